//! Rolling one group from a stream.

ghost use Rattle.std.specs.Prelude.{◌≡◌, ◌+◌, ◌*◌, ◌<◌, ◌≤◌, ◌++◌, ◌^◌, List, ℕ, length, All, IfOk, OnOk, OnErr};
ghost use Rattle.seat_random.specs.Stream.{word_of, after};
ghost use Rattle.dice_parse.specs.Grammar.{GroupFits, PartFits};
ghost use Rattle.dice_roll.specs.Rolling.{first_value, first_used, further, most_further, die_values, die_used, dice_values, dice_used, worth_of, part_value, part_used, total_of, words_used};

use crate::values::worth;
use dice_parse::{Group, Part};
use seat_random::SeatStream;
use std::alloc::{AllocError, Global};

/// The first value of a die, which may be rolled again.
fn first(group: &Group, stream: &mut SeatStream) -> u32
    requires { GroupFits group.now }
    ensures value { result ≡ first_value (word_of stream.old) group.now }
    ensures stream { stream.new ≡ after stream.old (first_used (word_of stream.old) group.now) }
    ensures range { result ≤ 1000 }
{
    let value = stream.die(group.sides);
    match group.again {
        Some(limit) if value <= limit => stream.die(group.sides),
        _ => value,
    }
}

/// How many further values a die may have.
fn most_further_of(group: &Group) -> u32
    ensures { result ≡ most_further group.now }
{
    if group.explode { 10 } else { 0 }
}

/// Rolls one die of a group, and puts what it shows at the end.
fn one_die(group: &Group, stream: &mut SeatStream, values: &mut Vec<u32>) -> Result<(), AllocError>
    requires { GroupFits group.now }
    ensures values { OnOk result (values.new.items ≡ values.old.items ++ die_values (word_of stream.old) group.now) }
    ensures stream { OnOk result (stream.new ≡ after stream.old (die_used (word_of stream.old) group.now)) }
    ensures small { OnOk result (All (λ x. x ≤ 1000) values.old.items → All (λ x. x ≤ 1000) values.new.items) }
{
    let mut last = first(group, stream);
    values.push(last)?;
    let most = most_further_of(group);
    for _turn in 0..most {
        if last != group.sides {
            break;
        }
        last = stream.die(group.sides);
        values.push(last)?;
    }
    Ok(())
}

/// Rolls the dice of a group, and puts what they show at the end.
fn roll_group(
    group: &Group,
    stream: &mut SeatStream,
    values: &mut Vec<u32>,
) -> Result<(), AllocError>
    requires { GroupFits group.now }
    ensures values { OnOk result (values.new.items
        ≡ values.old.items ++ dice_values (word_of stream.old) group.now group.now.count) }
    ensures stream { OnOk result (stream.new ≡ after stream.old (dice_used (word_of stream.old) group.now group.now.count)) }
    ensures small { OnOk result (All (λ x. x ≤ 1000) values.old.items → All (λ x. x ≤ 1000) values.new.items) }
{
    for _die in 0..group.count {
        one_die(group, stream, values)?;
    }
    Ok(())
}

/// What a part is worth, with the words that its dice use drawn.
pub(crate) fn part_worth(
    alloc: Global,
    part: &Part,
    stream: &mut SeatStream,
) -> Result<u32, AllocError>
    requires { PartFits part.now }
    ensures value { IfOk result (λ value. value ≡ part_value (word_of stream.old) part.now) }
    ensures stream { OnOk result (stream.new ≡ after stream.old (part_used (word_of stream.old) part.now)) }
{
    match part {
        Part::Number(number) => Ok(*number),
        Part::Group(group) => {
            let mut values = Vec::new(alloc);
            roll_group(group, stream, &mut values)?;
            Ok(worth(&mut values, group.tail))
        }
    }
}
