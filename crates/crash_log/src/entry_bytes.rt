//! Entries as the bytes of a log, and back.
ghost use Rattle.std.specs.Prelude.{◌≡◌, ◌≤◌, ◌<◌, ◌+◌, ◌^◌, ◌++◌, ◌∷◌, [], ◌↔◌, ℕ, length, All, IfOk, IfSome, IsTrue, None, OnOk};
ghost use Rattle.campaign_law.specs.declared.entry.Entry.TheVariants.{Join, Line};
ghost use Rattle.std.specs.Int.{w32, w64, to_be_bytes, from_be_bytes};
ghost use Rattle.std.specs.List.{flat_map};
ghost use Rattle.crash_log.specs.Entries.{entry_bytes as entry_bytes_lem, entry_of, join_of, leave_of, taken_of, cut_of, InRange, IsShort, Fits};
ghost use Rattle.crash_log.specs.Log.{record_bytes};

use crate::journal::GATE_LIMIT;
use campaign_law::Entry;
use names::{LineText, Memory, SeatNo};
use std::alloc::{AllocError, Global};

/// The most bytes of an entry.
pub(crate) const ENTRY_BYTES: usize = 4_098;

/// Whether the entry has no more bytes than a log takes.
pub fn is_short(entry: &Entry) -> bool
    ensures { IsTrue result ↔ IsShort entry.now }
{
    entry_size(entry) <= ENTRY_BYTES
}

/// How many bytes the entry has in a log.
pub(crate) fn entry_size(entry: &Entry) -> usize
    ensures size { result ≡ length (entry_bytes_lem entry.now) }
    ensures range { InRange entry.now }
{
    match entry {
        Entry::Join {
            seat,
            key,
            reader,
            writer,
        } => join_size(*seat, key, *reader, *writer),
        Entry::Line { seat, bytes } => {
            let _number = seat.number();
            2 + bytes.bytes().len()
        }
        Entry::Leave { seat, .. } => {
            let _number = seat.number();
            3
        }
        Entry::Taken { seat, count } => taken_size(*seat, *count),
        Entry::Cut { seat } => {
            let _number = seat.number();
            2
        }
    }
}

fn join_size(seat: SeatNo, key: &LineText, reader: u64, writer: u64) -> usize
    ensures size { result ≡ 18 + length key.now }
    ensures seat { seat ≤ 32 }
    ensures reader { reader < 2 ^ 64 }
    ensures writer { writer < 2 ^ 64 }
{
    let _number = seat.number();
    18 + key.bytes().len()
}

fn taken_size(seat: SeatNo, count: u64) -> usize
    ensures size { result ≡ 10 }
    ensures seat { seat ≤ 32 }
    ensures count { count < 2 ^ 64 }
{
    let _number = seat.number();
    10
}

/// Where the next gate stands behind these entries, the first of which has its gate at this place; none, where that isn't below
/// `GATE_LIMIT`.
pub(crate) fn gate_behind(gate: u64, entries: &[Entry]) -> Option<u64>
    requires place { gate < 2 ^ 30 }
    requires short { All IsShort entries.now }
    ensures place { IfSome result (λ next. next ≡ gate + length (flat_map record_bytes entries.now)) }
    ensures low { IfSome result (λ next. next < 2 ^ 30) }
    ensures fit { IfSome result (λ _. All Fits entries.now) }
    ensures full { result ≡ None → 2 ^ 30 ≤ gate + length (flat_map record_bytes entries.now) }
{
    let mut next = gate;
    for entry in entries {
        next = next + 5 + entry_size(entry) as u64;
        if next >= GATE_LIMIT {
            return None;
        }
    }
    Some(next)
}

/// The entries as records, each behind an open gate, and a closed gate behind the last.
pub(crate) fn sealed(alloc: Global, entries: &[Entry]) -> Result<Vec<u8>, Memory>
    requires short { All IsShort entries.now }
    ensures { IfOk result (λ group. group.items ≡ flat_map record_bytes entries.now ++ 0 ∷ []) }
{
    let mut group = Vec::new(alloc);
    for entry in entries {
        add_record(&mut group, entry)?;
    }
    added(&mut group, &[0])?;
    Ok(group)
}

fn add_record(group: &mut Vec<u8>, entry: &Entry) -> Result<(), Memory>
    requires { IsShort entry.now }
    ensures { OnOk result (group.new.items ≡ group.old.items ++ record_bytes entry.now) }
{
    let size = entry_size(entry) as u32;
    added(group, &[1])?;
    added(group, &size.to_be_bytes())?;
    add_entry(group, entry)
}

fn added(piece: &mut Vec<u8>, bytes: &[u8]) -> Result<(), Memory>
    ensures { OnOk result (piece.new.items ≡ piece.old.items ++ bytes.now) }
{
    match piece.extend_from_slice(bytes) {
        Ok(()) => Ok(()),
        Err(_) => Err(Memory),
    }
}

fn add_entry(piece: &mut Vec<u8>, entry: &Entry) -> Result<(), Memory>
    ensures { OnOk result (piece.new.items ≡ piece.old.items ++ entry_bytes_lem entry.now) }
{
    match entry {
        Entry::Join {
            seat,
            key,
            reader,
            writer,
        } => add_join(piece, *seat, key, *reader, *writer),
        Entry::Line { seat, bytes } => {
            added(piece, &[1, seat.number()])?;
            added(piece, bytes.bytes())
        }
        Entry::Leave { seat, drop } => added(piece, &[2, seat.number(), u8::from(*drop)]),
        Entry::Taken { seat, count } => {
            added(piece, &[3, seat.number()])?;
            added(piece, &count.to_be_bytes())
        }
        Entry::Cut { seat } => added(piece, &[4, seat.number()]),
    }
}

fn add_join(
    piece: &mut Vec<u8>,
    seat: SeatNo,
    key: &LineText,
    reader: u64,
    writer: u64,
) -> Result<(), Memory>
    ensures { OnOk result (piece.new.items ≡ piece.old.items ++ entry_bytes_lem (Join seat key.now reader writer)) }
{
    added(piece, &[0, seat.number()])?;
    added(piece, &reader.to_be_bytes())?;
    added(piece, &writer.to_be_bytes())?;
    added(piece, key.bytes())?;
    Ok(())
}

/// The entry of these bytes; none, where they are none's.
pub(crate) fn read_entry(alloc: Global, bytes: &[u8]) -> Result<Option<Entry>, Memory>
    ensures value { IfOk result (λ entry. entry ≡ entry_of bytes.now) }
    ensures range { IfOk result (λ entry. IfSome entry InRange) }
    ensures written { IfOk result (λ entry. IfSome entry (λ e. entry_bytes_lem e ≡ bytes.now)) }
{
    let entry = read_kind(alloc, bytes)?;
    Ok(entry)
}

fn read_kind(alloc: Global, bytes: &[u8]) -> Result<Option<Entry>, Memory>
    ensures value { IfOk result (λ entry. entry ≡ entry_of bytes.now) }
    ensures range { IfOk result (λ entry. IfSome entry InRange) }
{
    let [kind, number, rest @ ..] = bytes else {
        return Ok(None);
    };
    let Some(seat) = SeatNo::new(*number) else {
        return Ok(None);
    };
    match *kind {
        0 => read_join(alloc, seat, rest),
        1 => read_line(alloc, seat, rest),
        2 => Ok(read_leave(seat, rest)),
        3 => Ok(read_taken(seat, rest)),
        4 => Ok(read_cut(seat, rest)),
        _ => Ok(None),
    }
}

fn read_join(alloc: Global, seat: SeatNo, rest: &[u8]) -> Result<Option<Entry>, Memory>
    ensures value { IfOk result (λ entry. entry ≡ join_of seat rest.now) }
    ensures range { IfOk result (λ entry. IfSome entry InRange) }
{
    if rest.len() < 16 {
        return Ok(None);
    }
    let key = LineText::copy(alloc, &rest[16..])?;
    Ok(Some(Entry::Join {
        seat,
        key,
        reader: eight(&rest[..8]),
        writer: eight(&rest[8..16]),
    }))
}

fn read_line(alloc: Global, seat: SeatNo, rest: &[u8]) -> Result<Option<Entry>, Memory>
    ensures value { IfOk result (λ entry. entry ≡ Some (Line seat rest.now)) }
    ensures range { IfOk result (λ entry. IfSome entry InRange) }
{
    let bytes = LineText::copy(alloc, rest)?;
    Ok(Some(Entry::Line { seat, bytes }))
}

fn read_leave(seat: SeatNo, rest: &[u8]) -> Option<Entry>
    ensures value { result ≡ leave_of seat rest.now }
    ensures range { IfSome result InRange }
{
    match rest {
        [0] => Some(Entry::Leave { seat, drop: false }),
        [1] => Some(Entry::Leave { seat, drop: true }),
        _ => None,
    }
}

fn read_taken(seat: SeatNo, rest: &[u8]) -> Option<Entry>
    ensures value { result ≡ taken_of seat rest.now }
    ensures range { IfSome result InRange }
{
    if rest.len() != 8 {
        return None;
    }
    Some(Entry::Taken {
        seat,
        count: eight(rest),
    })
}

fn read_cut(seat: SeatNo, rest: &[u8]) -> Option<Entry>
    ensures value { result ≡ cut_of seat rest.now }
    ensures range { IfSome result InRange }
{
    if rest.is_empty() {
        Some(Entry::Cut { seat })
    } else {
        None
    }
}

// A number of eight bytes, highest first.
fn eight(bytes: &[u8]) -> u64
    requires { length bytes.now ≡ 8 }
    ensures { result ≡ from_be_bytes w64 bytes.now }
{
    u64::from_be_bytes([
        bytes[0], bytes[1], bytes[2], bytes[3], bytes[4], bytes[5], bytes[6], bytes[7],
    ])
}

// A number of four bytes, highest first.
pub(crate) fn four(bytes: &[u8]) -> u32
    requires { length bytes.now ≡ 4 }
    ensures value { result ≡ from_be_bytes w32 bytes.now }
    ensures bytes { to_be_bytes w32 result ≡ bytes.now }
{
    u32::from_be_bytes([bytes[0], bytes[1], bytes[2], bytes[3]])
}
