//! One seat's book.
ghost use Rattle.std.specs.Prelude.{◌≡◌, ◌≢◌, ◌<◌, ◌≤◌, ◌↔◌, ◌^◌, true, false, length, slice_get, option_map, is_some, Some, None, Err, IfOk, IfErr, OnOk, OnErr};
ghost use Rattle.std.specs.Borrow.{sem};
ghost use Rattle.std.specs.List.{IsDistinct};
ghost use Rattle.std.specs.Result.{result_err};
ghost use Rattle.std.specs.Str.{bytes_eq};
ghost use Rattle.seats.specs.declared.seat_state.JoinRefusal.TheVariants.{BadKey, NoHello, SeatTaken, Spent};
ghost use Rattle.seats.specs.SeatState.{is_free, is_joined};
ghost use Rattle.seats.specs.declared.tag_fault.TagFault.TheVariants.{TagUsed, TagsSpent};
ghost use Rattle.seats.specs.Book.{counted, freed, fresh_book, join_refusal as join_refusal_lem, joined, left, line_limit, macro_fault, macro_of, most_tags, stream_of, tag_used, tags_spent as tags_spent_lem, with_macro, with_tag, without_macro, IsBookFaultOf, IsFresh};
ghost use Rattle.seats.specs.Lending.{LendsStream};
ghost use Rattle.type_table.specs.Types.{AreTypes};

use crate::book_fault::BookFault;
use crate::macros::Macros;
use crate::seat_state::{JoinRefusal, SeatState};
use crate::tag_fault::TagFault;
use names::{Memory, SeatNo, Tag, Text};
use seat_random::SeatStream;
use std::alloc::Global;
use std::marker::Model;

/// How many lines a seat has in one run, its joins among them.
const LINE_LIMIT: u32 = 16384;

/// How many tags the game master's seat uses at most.
const GM_TAG_LIMIT: usize = 2048;

/// How many tags a player's seat uses at most.
const TAG_LIMIT: usize = 16;

/// One seat's book: its number, its key, the stream of its dice (a 32-byte seed and how many of its
/// words were drawn), the tags that it used, its count of lines in this run, its state, and its macros.
#[derive(Drop)]
pub struct SeatBook {
    alloc: Global,
    seat: SeatNo,
    key: Text,
    stream: SeatStream,
    tags: Vec<Tag>,
    lines: u32,
    state: SeatState,
    macros: Macros,
}

impl Model for SeatBook {
    ghost use Rattle.seats.specs.Book.{Book, IsKept};

    ghost Value = { Book };

    ghost view = { λ b. record {
      seat = b.seat;
      key = b.key;
      seed = b.stream.seed;
      drawn = b.stream.drawn;
      tags = b.tags.items;
      lines = b.lines;
      state = b.state;
      macros = b.macros;
    } };

    ghost invariant = { λ b. IsKept b.seat b.tags.items b.lines b.state };
}

impl SeatBook {
    /// A Free seat's book with no tags, no macros and no lines. `drawn` is below 2^62.
    pub fn new(alloc: Global, seat: SeatNo, key: Text, seed: [u8; 32], drawn: u64) -> SeatBook
        requires { drawn < 2 ^ 62 }
        ensures value { result ≡ fresh_book seat key seed drawn }
        ensures fresh { IsFresh result }
    {
        SeatBook {
            alloc,
            seat,
            key,
            stream: SeatStream::new(seed, drawn),
            tags: Vec::new(alloc),
            lines: 0,
            state: SeatState::Free,
            macros: Macros::new(alloc),
        }
    }

    /// An equal book, or `Memory` for want of memory.
    pub fn copy(&self) -> Result<SeatBook, Memory>
        ensures { IfOk result (λ b. b ≡ self.now) }
    {
        let key = self.key.share()?;
        let macros = self.macros.copy()?;
        let Ok(tags) = Vec::from_slice(self.alloc, self.tags.as_slice()) else {
            return Err(Memory);
        };
        Ok(SeatBook {
            alloc: self.alloc,
            seat: self.seat,
            key,
            stream: SeatStream::new(self.seed(), self.drawn()),
            tags,
            lines: self.lines,
            state: self.state,
            macros,
        })
    }

    /// Why a session with this key can't join now, if it can't: the first of another key, a seat
    /// that isn't Free, and a seat that has had its 16,384 lines.
    pub fn join_refusal(&self, key: &[u8]) -> Option<JoinRefusal>
        ensures { result ≡ join_refusal_lem self.now key.now }
    {
        if self.key.text().as_bytes() != key {
            Some(JoinRefusal::BadKey)
        } else if !self.state.is_free() {
            Some(JoinRefusal::SeatTaken)
        } else if self.lines == LINE_LIMIT {
            Some(JoinRefusal::Spent)
        } else {
            None
        }
    }

    /// A session sits down by these passes, which counts as a line. A refused join changes nothing
    /// and isn't counted. `reader` and `writer` are the numbers of the session's passes.
    pub fn join(&mut self, key: &[u8], reader: u64, writer: u64) -> Result<(), JoinRefusal>
        ensures cause { result_err result ≡ join_refusal_lem self.old key.now }
        ensures bad_key { (result ≡ Err BadKey) ↔ (self.old.key ≢ key.now) }
        ensures seat_taken { (result ≡ Err SeatTaken) ↔ ((self.old.key ≡ key.now) × (is_free self.old.state ≡ false)) }
        ensures spent { (result ≡ Err Spent) ↔ ((self.old.key ≡ key.now) × (is_free self.old.state ≡ true)
            × (self.old.lines ≡ line_limit)) }
        ensures never_no_hello { result ≢ Err NoHello }
        ensures ok { OnOk result (self.new ≡ joined self.old reader writer) }
        ensures refused { OnErr result (self.new ≡ self.old) }
    {
        if let Some(refusal) = self.join_refusal(key) {
            return Err(refusal);
        }
        self.state = SeatState::Joined { reader, writer };
        self.count_line();
        Ok(())
    }

    /// A Joined seat becomes Closing: its lines are no longer read.
    pub fn leave(&mut self)
        ensures { self.new ≡ left self.old }
    {
        self.state = self.state.closed();
    }

    /// The seat becomes Free, whatever its state.
    pub fn free(&mut self)
        ensures { self.new ≡ freed self.old }
    {
        self.state = SeatState::Free;
    }

    /// One more line. The line that makes the count 16,384 makes a Joined seat Closing.
    pub fn count_line(&mut self)
        requires { self.old.lines < 16384 }
        ensures { self.new ≡ counted self.old }
    {
        self.lines += 1;
        if self.lines == LINE_LIMIT {
            self.state = self.state.closed();
        }
    }

    /// The seat's number.
    pub fn seat(&self) -> SeatNo
        ensures { result ≡ self.now.seat }
    {
        self.seat
    }

    /// The key by which a session joins.
    pub fn key(&self) -> &Text
        ensures { result.now ≡ self.now.key }
    {
        &self.key
    }

    /// The seed of the seat's dice.
    pub fn seed(&self) -> [u8; 32]
        ensures { result ≡ self.now.seed }
    {
        self.stream.seed()
    }

    /// How many words of the seed's stream were drawn: below 2^62.
    pub fn drawn(&self) -> u64
        ensures value { result ≡ self.now.drawn }
        ensures limit { result < 2 ^ 62 }
    {
        self.stream.drawn()
    }

    /// The stream of the seat's dice, to be drawn from. All else of the book stays.
    pub fn stream(&mut self) -> &mut SeatStream
        ensures* lent { sem 𝓛 (LendsStream self.entry result) }
        ensures value { result.now ≡ stream_of self.old }
    {
        &mut self.stream
    }

    /// The seat uses the tag. After each fault the book is as before: `TagUsed` where it used the
    /// tag already, else `TagsSpent` where it has used all that it may, 2,048 tags for seat 0 and 16
    /// for another, else `Memory` for want of memory.
    pub fn use_tag(&mut self, tag: Tag) -> Result<(), TagFault>
        ensures tag_used { (result ≡ Err TagUsed) ↔ (tag_used self.old.tags tag ≡ true) }
        ensures tags_spent { (result ≡ Err TagsSpent) ↔ ((tag_used self.old.tags tag ≡ false)
            × (tags_spent_lem self.old.seat self.old.tags ≡ true)) }
        ensures ok { OnOk result (self.new ≡ with_tag self.old tag) }
        ensures refused { OnErr result (self.new ≡ self.old) }
    {
        if self.has_tag(tag) {
            return Err(TagFault::TagUsed);
        }
        if self.tags_spent() {
            return Err(TagFault::TagsSpent);
        }
        match self.tags.push(tag) {
            Ok(()) => Ok(()),
            Err(_) => Err(TagFault::Memory),
        }
    }

    /// Whether the seat used the tag.
    pub fn has_tag(&self, tag: Tag) -> bool
        ensures { result ≡ tag_used self.now.tags tag }
    {
        self.tags.contains(&tag)
    }

    /// Whether the seat has used all the tags that it may: 2,048 for seat 0, and 16 for another.
    pub fn tags_spent(&self) -> bool
        ensures { result ≡ tags_spent_lem self.now.seat self.now.tags }
    {
        self.tags.len() >= most_tags(self.seat)
    }

    /// How many tags the seat used: at most 2,048 for seat 0, else 16. No tag is used twice.
    pub fn tag_count(&self) -> usize
        ensures value { result ≡ length self.now.tags }
        ensures limit { result ≤ most_tags self.now.seat }
        ensures differ { IsDistinct bytes_eq self.now.tags }
    {
        self.tags.len()
    }

    /// The tag at that place, in order of use.
    pub fn tag_at(&self, place: usize) -> Tag
        requires { place < length self.now.tags }
        ensures { slice_get self.now.tags place ≡ Some result }
    {
        self.tags[place]
    }

    /// Sets the macro with this name, which is added where it is new. All else stays.
    ///
    /// `MacroLimit` exactly where the name is new and the seat has 32 macros. After a fault the book is as before.
    pub fn set_macro(&mut self, name: Tag, text: Text) -> Result<(), BookFault>
        ensures ok { OnOk result (self.new ≡ with_macro name text self.old) }
        ensures room { OnOk result (macro_fault self.old.macros name ≡ None) }
        ensures fault { IfErr result (IsBookFaultOf (macro_fault self.old.macros name)) }
        ensures refused { OnErr result (self.new ≡ self.old) }
    {
        self.macros.set(name, text)
    }

    /// Removes the macro with this name; false exactly where there is none, and then the book is as before. All else
    /// stays.
    pub fn drop_macro(&mut self, name: Tag) -> bool
        ensures there { result ≡ is_some (macro_of name self.old.macros) }
        ensures value { self.new ≡ without_macro name self.old }
    {
        self.macros.remove(name)
    }

    /// The text of the macro with this name; `None` exactly where there is none.
    pub fn macro_text(&self, name: Tag) -> Option<&Text>
        ensures { option_map (λ text. text.now) result ≡ macro_of name self.now.macros }
    {
        self.macros.text(name)
    }

    /// How many macros the seat has, at most 32. Their names rise, so no name stands there twice.
    pub fn macro_count(&self) -> usize
        ensures value { result ≡ length self.now.macros }
        ensures valid { AreTypes self.now.macros }
    {
        self.macros.len()
    }

    /// The macro at that place, by its name and its text. Macros stand in byte order of their names.
    pub fn macro_at(&self, place: usize) -> (Tag, &Text)
        requires { place < length self.now.macros }
        ensures { slice_get self.now.macros place ≡ Some (result.0, result.1.now) }
    {
        self.macros.at(place)
    }

    /// The seat's state. A Joined seat has lines left.
    pub fn state(&self) -> SeatState
        ensures value { result ≡ self.now.state }
        ensures lines_left { is_joined result ≡ true → self.now.lines < line_limit }
    {
        self.state
    }

    /// How many lines were counted in this run, accepted joins among them: at most 16,384, and
    /// fewer while the seat is Joined.
    pub fn lines(&self) -> u32
        ensures value { result ≡ self.now.lines }
        ensures limit { result ≤ line_limit }
        ensures joined { is_joined self.now.state ≡ true → result < line_limit }
    {
        self.lines
    }
}

/// How many tags the seat uses at most: 2,048 for seat 0, the game master's, and 16 for another.
pub fn most_tags(seat: SeatNo) -> usize
    ensures { result ≡ most_tags seat }
{
    if seat.number() == 0 {
        GM_TAG_LIMIT
    } else {
        TAG_LIMIT
    }
}
