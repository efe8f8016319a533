//! The lines that wait for a seat.
ghost use Rattle.std.specs.Prelude.{◌≡◌, ◌≤◌, ◌++◌, ◌-◌, [], ◌∷◌, IfOk, IfSome, OnOk, drop, length, map, nat_lt};
ghost use Rattle.mails.specs.Texts.{tagged_text, text_of};
ghost use Rattle.std.specs.VecDeque.{deque_len, deque_capacity};

use crate::lines::{Lines, sum_of};
use names::{LineText, Memory};
use std::alloc::Global;
use std::collections::VecDeque;
use std::marker::Model;

/// The lines that wait for a seat, in order, with places for further ones.
#[derive(Drop)]
pub struct Mail {
    lines: VecDeque<LineText>,
    /// How many bytes they have, with their LFs; none, where they once were more than can be counted.
    size: Option<u64>,
}

impl Model for Mail {
    ghost use Rattle.std.specs.Prelude.{◌-◌};
    ghost use Rattle.std.specs.VecDeque.{deque_len, deque_capacity};
    ghost use Rattle.mails.specs.Waiting.{Waiting, IsCounted};

    ghost Value = { Waiting };

    ghost view = { λ m. record { lines = m.lines.items; room = deque_capacity m.lines - deque_len m.lines } };

    ghost invariant = { λ m. IsCounted m.size m.lines.items };
}

impl Mail {
    /// No lines, and no places.
    pub fn new(alloc: Global) -> Mail
        ensures { result.lines ≡ [] }
    {
        Mail {
            lines: VecDeque::new(alloc),
            size: Some(0),
        }
    }

    /// How many lines wait.
    pub fn len(&self) -> usize
        ensures { result ≡ length self.now.lines }
    {
        self.lines.len()
    }

    /// An equal mail, but for its places.
    pub fn copy(&self, alloc: Global) -> Result<Mail, Memory>
        ensures { IfOk result (λ m. m.lines ≡ self.now.lines) }
    {
        let mut lines = VecDeque::new(alloc);
        for place in 0..self.lines.len() {
            let line = LineText::copy(alloc, self.lines[place].bytes())?;
            if lines.push_back(line).is_err() {
                return Err(Memory);
            }
        }
        let size = self.size;
        Ok(Mail { lines, size })
    }

    /// The lines from the place `first` on, each with its LF.
    pub fn lines_from(&self, alloc: Global, first: usize) -> Result<Vec<LineText>, Memory>
        ensures { IfOk result (λ v. v.items ≡ map (λ line. line ++ 10 ∷ []) (drop first self.now.lines)) }
    {
        let mut all = Vec::new(alloc);
        for place in first..self.lines.len() {
            if all
                .push(with_end(alloc, self.lines[place].bytes())?)
                .is_err()
            {
                return Err(Memory);
            }
        }
        Ok(all)
    }

    /// How many bytes the lines from the place `first` on have, with their LFs; none, where they are more than can be counted. These
    /// lines alone are walked.
    pub fn size_from(&self, first: usize) -> Option<usize>
        ensures { IfSome result (λ n. n ≡ length (text_of (drop first self.now.lines))) }
    {
        let mut size: usize = 0;
        for place in first..self.lines.len() {
            size = size
                .checked_add(self.lines[place].bytes().len())?
                .checked_add(1)?;
        }
        Some(size)
    }

    /// The text of the lines from the place `first` on, each with its LF, in one piece of memory.
    pub fn text_from(&self, alloc: Global, first: usize) -> Result<LineText, Memory>
        ensures { IfOk result (λ t. t ≡ text_of (drop first self.now.lines)) }
    {
        let Some(size) = self.size_from(first) else {
            return Err(Memory);
        };
        let Ok(mut text) = Vec::with_capacity(alloc, size) else {
            return Err(Memory);
        };
        for place in first..self.lines.len() {
            if text.extend_from_slice(self.lines[place].bytes()).is_err() {
                return Err(Memory);
            }
            if text.push(b'\n').is_err() {
                return Err(Memory);
            }
        }
        Ok(LineText::new(text))
    }

    /// Adds the lines from the place `first` on to the text, each behind the tag and with its LF.
    pub fn add_to(&self, first: usize, tag: &[u8], text: &mut Vec<u8>) -> Result<(), Memory>
        ensures { OnOk result (text.new.items ≡ text.old.items ++ tagged_text tag.now (drop first self.now.lines)) }
    {
        for place in first..self.lines.len() {
            add_line(tag, self.lines[place].bytes(), text)?;
        }
        Ok(())
    }

    /// Makes places for so many further lines. The lines stay.
    pub fn make_room(&mut self, count: usize) -> Result<(), Memory>
        ensures lines { self.new.lines ≡ self.old.lines }
        ensures room { OnOk result (count ≤ self.new.room) }
        ensures kept { self.old.room ≤ self.new.room }
    {
        self.lines.reserve(count)?;
        Ok(())
    }

    /// Takes out all lines.
    pub fn clear(&mut self)
        ensures lines { self.new.lines ≡ [] }
        ensures room { self.old.room ≤ self.new.room }
    {
        self.lines.clear();
        self.size = Some(0);
    }

    /// How many bytes the lines from the place `gone` on have, with their LFs, by those before it; none, where they once
    /// were more than can be counted.
    fn size_past(&self, gone: usize) -> Option<u64>
        requires { gone ≤ length self.now.lines }
        ensures { IfSome result (λ n. n ≡ length (text_of (drop gone self.now.lines))) }
    {
        let mut size = self.size?;
        for place in 0..gone {
            size = size
                .checked_sub(self.lines[place].bytes().len() as u64)?
                .checked_sub(1)?;
        }
        Some(size)
    }

    /// Takes out the first `gone` lines, in the time of these.
    pub fn take_out(&mut self, gone: u64)
        ensures lines { self.new.lines ≡ drop gone self.old.lines }
        ensures room { self.old.room ≤ self.new.room }
    {
        if gone >= self.lines.len() as u64 {
            self.clear();
            return;
        }
        let size = self.size_past(gone as usize);
        let _gone = self.lines.drain(..gone as usize);
        self.size = size;
    }

    /// Puts in further lines, for which there are places. It takes no memory.
    pub fn put_in(&mut self, lines: Lines)
        requires { length lines ≤ self.old.room }
        ensures { self.new.lines ≡ self.old.lines ++ lines }
    {
        let size = sum_of(self.size, lines.size());
        let Lines { first, rest } = lines;
        if let Some(line) = first {
            self.lines.push_back_reserved(line);
        }
        append(&mut self.lines, rest);
        self.size = size;
    }

    /// Whether the lines have more bytes than this, with their LFs. No line is walked, unless they once were more than can
    /// be counted.
    pub fn is_longer_than(&self, limit: u64) -> bool
        ensures { result ≡ nat_lt limit (length (text_of self.now.lines)) }
    {
        match self.size {
            Some(size) => limit < size,
            None => self.is_walked_past(limit),
        }
    }

    /// The same, line by line.
    fn is_walked_past(&self, limit: u64) -> bool
        ensures { result ≡ nat_lt limit (length (text_of self.now.lines)) }
    {
        let mut left = limit;
        for place in 0..self.lines.len() {
            let length = self.lines[place].bytes().len() as u64;
            if length >= left {
                return true;
            }
            left -= length + 1;
        }
        false
    }
}

/// Puts in lines behind these, for which there are places. It takes no memory.
fn append(lines: &mut VecDeque<LineText>, further: Vec<LineText>)
    requires { length further.items ≤ deque_capacity lines.old - deque_len lines.old }
    ensures { lines.new.items ≡ lines.old.items ++ further.items }
{
    if further.is_empty() {
        return;
    }
    let mut further = VecDeque::from_vec(further);
    match lines.append(&mut further) {
        Ok(()) => {}
        Err(_) => unreachable!(),
    }
}

/// The line with its LF.
fn with_end(alloc: Global, line: &[u8]) -> Result<LineText, Memory>
    ensures { IfOk result (λ t. t ≡ line.now ++ 10 ∷ []) }
{
    let Ok(mut bytes) = Vec::from_slice(alloc, line) else {
        return Err(Memory);
    };
    if bytes.push(b'\n').is_err() {
        return Err(Memory);
    }
    Ok(LineText::new(bytes))
}

/// Adds the line to the text, behind the tag and with its LF.
pub fn add_line(tag: &[u8], line: &[u8], text: &mut Vec<u8>) -> Result<(), Memory>
    ensures { OnOk result (text.new.items ≡ text.old.items ++ (tag.now ++ (line.now ++ 10 ∷ []))) }
{
    if text.extend_from_slice(tag).is_err() {
        return Err(Memory);
    }
    if text.extend_from_slice(line).is_err() {
        return Err(Memory);
    }
    if text.push(b'\n').is_err() {
        return Err(Memory);
    }
    Ok(())
}
