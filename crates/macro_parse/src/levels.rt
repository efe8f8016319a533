//! The operators of each level of an expression, each read by a function that moves a cursor.

ghost use Rattle.std.specs.Prelude.{◌≡◌, ◌≤◌, length};
ghost use Rattle.macro_parse.specs.Levels.{IsNext};

use macro_grammar::Operator;
use reading::Cursor;

/// A level of an expression: what stands between operators of one strength. All but `Compare` are chains.
#[derive(Clone, Copy, Debug, PartialEq, Eq)]
pub(crate) enum Level {
    Or,
    And,
    Compare,
    Sum,
    Product,
}

/// What comes next behind an operand.
#[derive(Clone, Copy, Debug, PartialEq, Eq)]
pub(crate) enum Next {
    /// No operator of the level.
    Nothing,
    /// The front of one, behind which nothing may come that does.
    Fails,
    /// One, which was taken.
    Found(Operator),
}

fn or_operator(cursor: &mut Cursor<'_>) -> Next
    ensures value { IsNext Level.Or cursor.old.rest.now result cursor.new.rest.now }
    ensures shrinks { length cursor.new.rest.now ≤ length cursor.old.rest.now }
{
    if !cursor.takes(b'|') {
        return Next::Nothing;
    }
    if !cursor.takes(b'|') {
        return Next::Fails;
    }
    Next::Found(Operator::Or)
}

fn and_operator(cursor: &mut Cursor<'_>) -> Next
    ensures value { IsNext Level.And cursor.old.rest.now result cursor.new.rest.now }
    ensures shrinks { length cursor.new.rest.now ≤ length cursor.old.rest.now }
{
    if !cursor.takes(b'&') {
        return Next::Nothing;
    }
    if !cursor.takes(b'&') {
        return Next::Fails;
    }
    Next::Found(Operator::And)
}

/// The longer of two operators is read, so `<=` is no `<`.
#[tactic(auto, unfolding(macro_grammar::specs::Readers::compare_operator_at))]
fn compare_operator(cursor: &mut Cursor<'_>) -> Next
    ensures value { IsNext Level.Compare cursor.old.rest.now result cursor.new.rest.now }
    ensures shrinks { length cursor.new.rest.now ≤ length cursor.old.rest.now }
{
    let Some((first, rest)) = cursor.rest.split_first() else {
        return Next::Nothing;
    };
    let first = *first;
    if first != b'=' && first != b'!' && first != b'<' && first != b'>' {
        return Next::Nothing;
    }
    cursor.rest = rest;
    if cursor.takes(b'=') {
        return Next::Found(match first {
            b'=' => Operator::Equal,
            b'!' => Operator::NotEqual,
            b'<' => Operator::LessOrEqual,
            _ => Operator::GreaterOrEqual,
        });
    }
    match first {
        b'<' => Next::Found(Operator::Less),
        b'>' => Next::Found(Operator::Greater),
        _ => Next::Fails,
    }
}

fn sum_operator(cursor: &mut Cursor<'_>) -> Next
    ensures value { IsNext Level.Sum cursor.old.rest.now result cursor.new.rest.now }
    ensures shrinks { length cursor.new.rest.now ≤ length cursor.old.rest.now }
{
    let Some((first, rest)) = cursor.rest.split_first() else {
        return Next::Nothing;
    };
    let operator = match *first {
        b'+' => Operator::Add,
        b'-' => Operator::Subtract,
        _ => return Next::Nothing,
    };
    cursor.rest = rest;
    Next::Found(operator)
}

fn product_operator(cursor: &mut Cursor<'_>) -> Next
    ensures value { IsNext Level.Product cursor.old.rest.now result cursor.new.rest.now }
    ensures shrinks { length cursor.new.rest.now ≤ length cursor.old.rest.now }
{
    let Some((first, rest)) = cursor.rest.split_first() else {
        return Next::Nothing;
    };
    let operator = match *first {
        b'*' => Operator::Multiply,
        b'/' => Operator::Divide,
        b'%' => Operator::Remainder,
        _ => return Next::Nothing,
    };
    cursor.rest = rest;
    Next::Found(operator)
}

/// The operator of a level that comes next.
pub(crate) fn operator(cursor: &mut Cursor<'_>, level: Level) -> Next
    ensures value { IsNext level cursor.old.rest.now result cursor.new.rest.now }
    ensures shrinks { length cursor.new.rest.now ≤ length cursor.old.rest.now }
{
    match level {
        Level::Or => or_operator(cursor),
        Level::And => and_operator(cursor),
        Level::Compare => compare_operator(cursor),
        Level::Sum => sum_operator(cursor),
        Level::Product => product_operator(cursor),
    }
}
