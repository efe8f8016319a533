//! Whether two openings, or two items of traces, are equal.
ghost use Rattle.std.specs.Prelude.{◌≡◌, ◌<◌, ◌+◌, ◌↔◌, ◌&&◌, drop, length, IsTrue};
ghost use Rattle.std.specs.Option.{option_eq};
ghost use Rattle.std.specs.Str.{bytes_eq};
ghost use Rattle.std.specs.Cmp.Lexicographic.{pointwise};
ghost use Rattle.views.specs.Same.{same_bytes, same_props};
ghost use Rattle.player_machine.specs.Items.{item_of};
ghost use Rattle.player_machine.specs.Same as same;

use crate::item::TraceItem;
use crate::machine::Opening;
use campaign_law::Entry;
use names::{Tag, Text};
use seats::{SeatBook, SeatState};
use views::same_view;

// ---- openings

fn same_state(a: SeatState, b: SeatState) -> bool
    ensures { result ≡ same.same_state a b }
{
    match (a, b) {
        (SeatState::Free, SeatState::Free) => true,
        (
            SeatState::Joined { reader, writer },
            SeatState::Joined {
                reader: reader2,
                writer: writer2,
            },
        ) => reader == reader2 && writer == writer2,
        (
            SeatState::Closing { reader, writer },
            SeatState::Closing {
                reader: reader2,
                writer: writer2,
            },
        ) => reader == reader2 && writer == writer2,
        _ => false,
    }
}

fn same_seed(a: &SeatBook, b: &SeatBook) -> bool
    ensures { result ≡ bytes_eq a.now.seed b.now.seed }
{
    let seed = a.seed();
    let seed2 = b.seed();
    seed.as_slice() == seed2.as_slice()
}

fn same_name(a: Tag, b: Tag) -> bool
    ensures { result ≡ bytes_eq a b }
{
    a == b
}

/// Whether the tags at the place are equal, on which it turns whether those from it on are.
fn same_tag(a: &SeatBook, b: &SeatBook, place: usize) -> bool
    requires first { place < length a.now.tags }
    requires second { place < length b.now.tags }
    ensures { pointwise bytes_eq (drop place a.now.tags) (drop place b.now.tags)
        ≡ (result && pointwise bytes_eq (drop (place + 1) a.now.tags) (drop (place + 1) b.now.tags)) }
{
    same_name(a.tag_at(place), b.tag_at(place))
}

#[tactic(auto, using(views::proofs::SameLoops::same_length, views::proofs::SameLoops::same_end))]
fn same_tags(a: &SeatBook, b: &SeatBook) -> bool
    ensures { result ≡ pointwise bytes_eq a.now.tags b.now.tags }
{
    if a.tag_count() != b.tag_count() {
        return false;
    }
    for place in 0..a.tag_count() {
        if !same_tag(a, b, place) {
            return false;
        }
    }
    true
}

fn same_named_text(name: Tag, text: &Text, name2: Tag, text2: &Text) -> bool
    ensures { result ≡ same_bytes (name, text.now) (name2, text2.now) }
{
    name == name2 && text.text() == text2.text()
}

/// Whether the macros at the place are equal, on which it turns whether those from it on are.
fn same_macro(a: &SeatBook, b: &SeatBook, place: usize) -> bool
    requires first { place < length a.now.macros }
    requires second { place < length b.now.macros }
    ensures { same_props (drop place a.now.macros) (drop place b.now.macros)
        ≡ (result && same_props (drop (place + 1) a.now.macros) (drop (place + 1) b.now.macros)) }
{
    let (name, text) = a.macro_at(place);
    let (name2, text2) = b.macro_at(place);
    same_named_text(name, text, name2, text2)
}

#[tactic(auto, using(views::proofs::SameLoops::same_length, views::proofs::SameLoops::same_end))]
fn same_macros(a: &SeatBook, b: &SeatBook) -> bool
    ensures { result ≡ same_props a.now.macros b.now.macros }
{
    if a.macro_count() != b.macro_count() {
        return false;
    }
    for place in 0..a.macro_count() {
        if !same_macro(a, b, place) {
            return false;
        }
    }
    true
}

fn same_book(a: &SeatBook, b: &SeatBook) -> bool
    ensures { result ≡ same.same_book a.now b.now }
{
    a.seat().number() == b.seat().number()
        && a.key().text() == b.key().text()
        && same_seed(a, b)
        && a.drawn() == b.drawn()
        && same_tags(a, b)
        && a.lines() == b.lines()
        && same_state(a.state(), b.state())
        && same_macros(a, b)
}

fn same_books(a: &Option<SeatBook>, b: &Option<SeatBook>) -> bool
    ensures { result ≡ option_eq same.same_book a.now b.now }
{
    match (a, b) {
        (None, None) => true,
        (Some(a), Some(b)) => same_book(a, b),
        _ => false,
    }
}

fn same_opening_parts(a: &Opening, b: &Opening) -> bool
    ensures { result ≡ same.same_opening a.now b.now }
{
    a.seats == b.seats && same_books(&a.book, &b.book)
}

/// Whether the two openings are equal.
pub fn same_opening(a: &Opening, b: &Opening) -> bool
    ensures { IsTrue result ↔ (a.now ≡ b.now) }
{
    same_opening_parts(a, b)
}

// ---- items

fn same_entry(a: &Entry, b: &Entry) -> bool
    ensures { result ≡ same.same_entry a.now b.now }
{
    match (a, b) {
        (
            Entry::Join {
                seat,
                key,
                reader,
                writer,
            },
            Entry::Join {
                seat: seat2,
                key: key2,
                reader: reader2,
                writer: writer2,
            },
        ) => {
            seat.number() == seat2.number()
                && key.bytes() == key2.bytes()
                && reader == reader2
                && writer == writer2
        }
        (
            Entry::Line { seat, bytes },
            Entry::Line {
                seat: seat2,
                bytes: bytes2,
            },
        ) => seat.number() == seat2.number() && bytes.bytes() == bytes2.bytes(),
        (
            Entry::Leave { seat, drop },
            Entry::Leave {
                seat: seat2,
                drop: drop2,
            },
        ) => seat.number() == seat2.number() && drop == drop2,
        (
            Entry::Taken { seat, count },
            Entry::Taken {
                seat: seat2,
                count: count2,
            },
        ) => seat.number() == seat2.number() && count == count2,
        (Entry::Cut { seat }, Entry::Cut { seat: seat2 }) => seat.number() == seat2.number(),
        _ => false,
    }
}

fn same_item_parts(a: &TraceItem, b: &TraceItem) -> bool
    ensures { result ≡ same.same_item (item_of a.now) (item_of b.now) }
{
    match (a, b) {
        (
            TraceItem::Own { entry, steps },
            TraceItem::Own {
                entry: entry2,
                steps: steps2,
            },
        ) => same_entry(entry, entry2) && steps == steps2,
        (TraceItem::Message(line), TraceItem::Message(line2)) => line.bytes() == line2.bytes(),
        (TraceItem::Seen(view), TraceItem::Seen(view2)) => same_view(view, view2),
        _ => false,
    }
}

/// Whether the two items are equal.
pub fn same_item(a: &TraceItem, b: &TraceItem) -> bool
    ensures { IsTrue result ↔ (item_of a.now ≡ item_of b.now) }
{
    same_item_parts(a, b)
}
