//! Seats.
ghost use Rattle.std.specs.Prelude.{◌≡◌, ◌≤◌, ◌+◌, length, IfOk, OnOk, codes, [], Some, option_map};
ghost use Rattle.serde_json.specs.View.{view, items_view};
ghost use Rattle.json_fields.specs.Objects.{Gives};
ghost use Rattle.campaign_json.specs.Reading.{Fails, under, each};
ghost use Rattle.campaign_scene.specs.Kept.{kept};
ghost use Rattle.campaign_file.specs.Campaign.{players_in};
ghost use Rattle.campaign_file.specs.Macros.{unfilled};
ghost use Rattle.seats.specs.Book.{Book};
ghost use Rattle.campaign_file.specs.Seats.{seat as seat_lem, seat_book as seat_book_lem, beside_fog, filled, seated, seats as seats_lem, tags as tags_lem, used_tag, IsFreshAt, AreFreshFrom, IsOpening};

use crate::macros::read_macros;
use campaign_json::fields::{self, check_object, check_only};
use campaign_json::{FileFault, Rule, broken, kinds};
use campaign_scene::read_fog;
use names::{SeatNo, Text};
use seats::{SeatBook, TagFault, most_tags};
use serde_json::Value;
use std::alloc::Global;
use world::Scene;

/// How many words of its seed's stream a seat has drawn at most.
const MOST_DRAWN: u64 = (1 << 62) - 1;

/// The keys of a seat.
const SEAT_KEYS: [&str; 6] = ["key", "seed", "drawn", "tags", "macros", "fog"];

/// The scene with its seats, each numbered by its place.
#[tactic(auto, using(crate::proofs::Seats::counted_seats), unfolding(crate::specs::Seats::seats))]
pub(crate) fn read_seats(
    alloc: Global,
    value: &Value,
    scene: Scene,
) -> Result<(Scene, Vec<SeatBook>), FileFault>
    ensures exact { Gives Fails (λ r. record { scene = r.0; books = r.1.items }) result (seats_lem scene (view value.now)) }
    ensures opening { IfOk result (λ r. IsOpening r.1.items) }
    ensures kept { IfOk result (λ r. kept r.0 ≡ kept scene) }
    ensures count { IfOk result (λ r. players_in (view value.now) + 1 ≡ length r.1.items) }
{
    let values = fields::list(alloc, value, "seats", 1, 33)?;
    each_seat(alloc, values, scene)
}

fn each_seat(
    alloc: Global,
    values: &[Value],
    mut scene: Scene,
) -> Result<(Scene, Vec<SeatBook>), FileFault>
    requires { length values.now ≤ 33 }
    ensures exact { Gives Fails (λ r. record { scene = r.0; books = r.1.items }) result
        (under (codes "seats") (each seated 0 (record { scene = scene; books = [] }) (items_view values.now))) }
    ensures count { IfOk result (λ r. length r.1.items ≡ length values.now) }
    ensures fresh { IfOk result (λ r. AreFreshFrom 0 r.1.items) }
    ensures kept { IfOk result (λ r. kept r.0 ≡ kept scene) }
{
    let mut books = Vec::new(alloc);
    for (place, value) in values.iter().enumerate() {
        let seat = SeatNo::new(place as u8).unwrap();
        let (book, next) = match read_seat(alloc, seat, value, scene) {
            Ok(read) => read,
            Err(fault) => return Err(fault.under_item(alloc, "seats", place)),
        };
        scene = next;
        if books.push(book).is_err() {
            return Err(FileFault::Memory);
        }
    }
    Ok((scene, books))
}

#[tactic(auto, unfolding(crate::specs::Seats::seat))]
fn read_seat(
    alloc: Global,
    seat: SeatNo,
    value: &Value,
    scene: Scene,
) -> Result<(SeatBook, Scene), FileFault>
    ensures exact { Gives Fails (λ r. (r.0, r.1)) result (seat_lem seat scene (view value.now)) }
    ensures fresh { IfOk result (λ r. IsFreshAt seat r.0) }
    ensures kept { IfOk result (λ r. kept r.1 ≡ kept scene) }
{
    let book = read_book(alloc, seat, value)?;
    let scene = exposed(alloc, seat, value, scene)?;
    Ok((book, scene))
}

/// The scene with what is exposed to the seat, of which the value says nothing else.
fn exposed(alloc: Global, seat: SeatNo, value: &Value, scene: Scene) -> Result<Scene, FileFault>
    ensures exact { (book : Book) → Gives Fails (λ s. (book, s)) result (beside_fog seat scene (view value.now) book) }
    ensures kept { IfOk result (λ s. kept s ≡ kept scene) }
{
    let scene = read_fog(alloc, seat, value, scene)?;
    check_only(alloc, value, &SEAT_KEYS)?;
    Ok(scene)
}

/// The book of a seat where nobody sat yet.
#[tactic(auto, using(crate::proofs::Seats::fresh_at), unfolding(crate::specs::Seats::seat_book))]
fn read_book(alloc: Global, seat: SeatNo, value: &Value) -> Result<SeatBook, FileFault>
    ensures exact { Gives Fails (λ b. b) result (seat_book_lem seat (view value.now)) }
    ensures fresh { IfOk result (λ b. IsFreshAt seat b) }
{
    check_object(alloc, value)?;
    let key = fields::text(alloc, value, "key", 1, 64)?;
    let seed = fields::seed(alloc, value, "seed")?;
    let drawn = fields::whole(alloc, value, "drawn", 0, MOST_DRAWN)?;
    let mut book = SeatBook::new(alloc, seat, Text::copy(alloc, key)?, seed, drawn);
    fill_book(alloc, value, &mut book)?;
    Ok(book)
}

/// Reads the tags and the macros of the book's seat.
fn fill_book(alloc: Global, value: &Value, book: &mut SeatBook) -> Result<(), FileFault>
    ensures exact { Gives Fails (λ u. book.new) result (filled book.old (view value.now)) }
    ensures rest { OnOk result (unfilled book.new ≡ unfilled book.old) }
{
    read_tags(alloc, value, book)?;
    read_macros(alloc, value, book)
}

/// Reads the tags that the book's seat used.
#[tactic(auto, unfolding(crate::specs::Seats::tags))]
fn read_tags(alloc: Global, value: &Value, book: &mut SeatBook) -> Result<(), FileFault>
    ensures exact { Gives Fails (λ u. book.new) result (tags_lem book.old (view value.now)) }
    ensures rest { OnOk result (unfilled book.new ≡ unfilled book.old) }
{
    let values = fields::list(alloc, value, "tags", 0, most_tags(book.seat()))?;
    each_tag(alloc, values, book)
}

fn each_tag(alloc: Global, values: &[Value], book: &mut SeatBook) -> Result<(), FileFault>
    ensures exact { Gives Fails (λ u. book.new) result
        (under (codes "tags") (each (λ place. used_tag) 0 book.old (items_view values.now))) }
    ensures rest { OnOk result (unfilled book.new ≡ unfilled book.old) }
{
    for (place, value) in values.iter().enumerate() {
        match read_tag(alloc, value, book) {
            Ok(()) => {}
            Err(fault) => return Err(fault.under_item(alloc, "tags", place)),
        }
    }
    Ok(())
}

#[tactic(auto, unfolding(crate::specs::Seats::used_tag))]
fn read_tag(alloc: Global, value: &Value, book: &mut SeatBook) -> Result<(), FileFault>
    ensures exact { Gives Fails (λ u. book.new) result (used_tag book.old (view value.now)) }
    ensures rest { OnOk result (unfilled book.new ≡ unfilled book.old) }
{
    let name = match kinds::tag(value) {
        Ok(name) => name,
        Err(rule) => return Err(broken(alloc, rule)),
    };
    match book.use_tag(name) {
        Ok(()) => Ok(()),
        Err(TagFault::TagUsed) => Err(broken(alloc, Rule::Twice)),
        Err(TagFault::TagsSpent) => Err(broken(alloc, Rule::Range)),
        Err(TagFault::Memory) => Err(FileFault::Memory),
    }
}
