//! With ample memory a seat's book takes a tag and a macro, and its dice are those of its seed.

ghost use Rattle.std.specs.Prelude.{◌≡◌, ◌<◌, length};
ghost use Rattle.seats.specs.declared.seat_state.SeatState.TheVariants.{Free};

use crate::World;
use names::{SeatNo, Tag, Text};
use seats::SeatBook;
use std::alloc::Global;
use std::process::Abort;

pub fn tag(rt: &impl Abort, text: &str) -> Tag {
    Tag::read(text.as_bytes()).expect(rt, "a tag")
}

fn book(rt: &impl Abort, alloc: Global, number: u8) -> SeatBook
    ensures number { result.seat ≡ number }
    ensures free { result.state ≡ Free }
{
    let seat = SeatNo::new(number).expect(rt, "a seat");
    let key = Text::copy(alloc, "key").expect(rt, "memory");
    SeatBook::new(alloc, seat, key, [0; 32], 0)
}

/// A world of a game master and one player.
pub fn opened(rt: &impl Abort, alloc: Global) -> World {
    let books = [book(rt, alloc, 0), book(rt, alloc, 1)];
    let books = Vec::from_array(alloc, books).expect(rt, "memory");
    World::open(alloc, books).expect(rt, "memory")
}

fn find(rt: &impl Abort, world: &World, seat: SeatNo)
    ensures { seat < length world.now.books }
{
    assert!(rt; seat.number() < world.seat_count());
}

fn fill(rt: &impl Abort, alloc: Global, world: &mut World, seat: SeatNo) {
    find(rt, world, seat);
    world.use_tag(seat, tag(rt, "t")).expect(rt, "a tag");
    find(rt, world, seat);
    let text = Text::copy(alloc, "hi").expect(rt, "memory");
    world
        .set_macro(seat, tag(rt, "m"), text)
        .expect(rt, "a macro");
}

#[test]
fn a_book_is_filled(rt: HostRuntime) {
    let mut world = opened(&rt, rt.alloc());
    let ann = SeatNo::new(1).expect(&rt, "a seat");
    fill(&rt, rt.alloc(), &mut world, ann);
    find(&rt, &world, ann);
    // The first word of the zero seed is ade0b876 (RFC 8439, appendix A.1, test vector 1).
    let die = world.stream(ann).die(6);
    find(&rt, &world, ann);
    let book = world.seat(ann);
    assert_eq!(rt;
        (die, book.drawn(), book.tag_count(), book.macro_count()),
        (5, 1, 1, 1)
    );
}
