ghost use Rattle.std.specs.Prelude.{◌≡◌, ◌++◌, ◌∷◌, ◌≤◌, [], if◌then◌else◌, IfSome};
ghost use Rattle.turn_lock.specs.Pass.{IsPassOf};

use crate::{Hall, Job, Object, Pass};
use std::alloc::Global;
use std::sync::Wait;
use std::test::Fail;
use std::thread::{Threads, join};

const TURNS: u64 = 100;

// A list of numbers, which has a name.
#[derive(Drop)]
struct Numbers {
    name: u64,
    items: Vec<u64>,
}

impl Object for Numbers {
    type Entry = u64;

    type Origin = u64;

    ghost origin = { λ numbers. numbers.name };

    ghost history = { λ numbers. numbers.items.items };

    fn length(&self) -> u64 {
        self.items.len() as u64
    }
}

// Appends the number, where there is memory, and tells how long the list was.
#[derive(Drop)]
struct Append {
    number: u64,
    found: usize,
    done: bool,
}

impl Job<Numbers> for Append {
    ghost entries = { λ before after. if after.done then after.number ∷ [] else [] };

    ghost ran = { λ name before found after left. (after.number ≡ before.number)
        × (left ≡ found ++ (if after.done then before.number ∷ [] else [])) };

    fn run(&mut self, object: &mut Numbers) {
        self.found = object.items.len();
        self.done = object.items.push(self.number).is_ok();
    }
}

impl Append {
    fn of(number: u64) -> Append {
        Append {
            number,
            found: 0,
            done: false,
        }
    }
}

impl Numbers {
    fn none(alloc: Global, name: u64) -> Numbers
        ensures { result.name ≡ name }
    {
        Numbers {
            name,
            items: Vec::new(alloc),
        }
    }
}

#[test]
fn a_turn_finds_what_the_other_pass_appended(rt: HostRuntime) -> Result<(), Fail> {
    let opened = Hall::open(rt.alloc(), Numbers::none(rt.alloc(), 7));
    let (hall, mut usher, first) = opened.ok().ok_or("memory")?;
    let (mut left, mut right) = hall.split(&mut usher, first).ok().ok_or("memory")?;
    assert!(rt; left.number() == 0 && right.number() == 1 && usher.count() == 2);

    let mut one = Append::of(1);
    let mut two = Append::of(2);
    hall.act(&rt, &mut left, &mut one);
    hall.act_quietly(&rt, &mut right, &mut two);
    assert!(rt; one.done && one.found == 0 && two.done && two.found == 1);

    let mut both = hall.meet(left, right);
    let made = hall.progress(&mut both);
    let past = hall.wait_past(&rt, &mut both, 1);
    assert!(rt; made == 2 && past == 2 && both.number() == 0);

    let list = hall.close(&rt, both);
    assert!(rt; list.name == 7 && list.items.as_slice() == [1, 2].as_slice());
    Ok(())
}

// Appends a hundred numbers, each in a turn of its own, and tells whether it appended them all.
fn append_each<R: Wait>(
    rt: &R,
    hall: &Hall<Numbers>,
    mut pass: Pass<Numbers>,
    first: u64,
) -> (Pass<Numbers>, bool)
    requires hall { IsPassOf hall.now pass }
    requires first { first ≤ 1000 }
    ensures { IsPassOf hall.now result.0 }
{
    let mut done = true;
    for turn in 0..TURNS {
        let mut job = Append::of(first + turn);
        hall.act(rt, &mut pass, &mut job);
        done = done && job.done;
    }
    (pass, done)
}

// The list that two threads appended to, where there was memory.
fn appended_by_two<R: Threads + Wait + Sync>(rt: &R, alloc: Global) -> Option<Numbers>
    ensures { IfSome result (λ list. list.name ≡ 7) }
{
    let (hall, mut usher, first) = Hall::open(alloc, Numbers::none(alloc, 7)).ok()?;
    let (left, right) = hall.split(&mut usher, first).ok()?;
    let ((left, left_done), (right, right_done)) = join(
        rt,
        || -> (Pass<Numbers>, bool)
            requires { IsPassOf hall left }
            ensures { IsPassOf hall result.0 }
        { append_each(rt, &hall, left, 0) },
        || -> (Pass<Numbers>, bool)
            requires { IsPassOf hall right }
            ensures { IsPassOf hall result.0 }
        { append_each(rt, &hall, right, 1000) },
    );
    let both = hall.meet(left, right);
    let list = hall.close(rt, both);
    if left_done && right_done {
        Some(list)
    } else {
        None
    }
}

// Whether the hundred numbers from the first stand in the list in order, each once.
fn has_in_order(list: &[u64], first: u64) -> bool
    requires { first ≤ 1000 }
{
    let mut next = 0;
    for number in list {
        if next < TURNS && *number == first + next {
            next += 1;
        }
    }
    next == TURNS
}

#[test]
fn two_threads_share_one_history(rt: HostRuntime) -> Result<(), Fail> {
    let list = appended_by_two(&rt, rt.alloc()).ok_or("memory")?;
    assert!(rt; list.items.len() == 200);
    assert!(rt; has_in_order(list.items.as_slice(), 0));
    assert!(rt; has_in_order(list.items.as_slice(), 1000));
    Ok(())
}
