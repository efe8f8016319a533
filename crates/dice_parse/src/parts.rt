//! What dice are made of.

ghost use Rattle.std.specs.Prelude.{◌↔◌, IsTrue};
ghost use Rattle.dice_parse.specs.Grammar.{GroupFits, PartFits, IsWithin};

/// Which shown values of a group count.
#[derive(Clone, Copy, Debug, PartialEq, Eq)]
pub enum Tail {
    /// `k`: the sum of the greatest.
    Keep,
    /// `d`: the sum without the least.
    Lose,
    /// `s`: how many are at least a number.
    Succeed,
}

/// Dice that are rolled together.
#[derive(Clone, Copy, Debug, PartialEq, Eq)]
pub struct Group {
    /// How many dice.
    pub count: u32,
    /// How many sides each has.
    pub sides: u32,
    /// `e`: a die that shows its greatest value is rolled further.
    pub explode: bool,
    /// `r`: a die that shows at most this is rolled once again.
    pub again: Option<u32>,
    /// `k`, `d` or `s` with its number: which of the shown values count.
    pub tail: Option<(Tail, u32)>,
}

impl Group {
    /// Whether the group is within the limits: 1 to 100 dice of 1 to 1,000 sides.
    pub fn fits(&self) -> bool
        ensures { IsTrue result ↔ GroupFits self.now }
    {
        1 <= self.count && self.count <= 100 && 1 <= self.sides && self.sides <= 1000
    }
}

/// Dice or a number.
#[derive(Clone, Copy, Debug, PartialEq, Eq)]
pub enum Part {
    /// Dice that are rolled together.
    Group(Group),
    /// A number of at most nine digits.
    Number(u32),
}

/// A part that is added, or taken away.
#[derive(Clone, Copy, Debug, PartialEq, Eq)]
pub struct Term {
    /// Whether the part is taken away.
    pub minus: bool,
    /// What is added or taken away.
    pub part: Part,
}

/// Whether a term is within the limits.
fn fits(term: &Term) -> bool
    ensures { IsTrue result ↔ PartFits term.now.part }
{
    match term.part {
        Part::Group(group) => group.fits(),
        Part::Number(_) => true,
    }
}

/// Whether all terms are within the limits, and neither none nor too many.
pub(crate) fn within(terms: &[Term]) -> bool
    ensures { IsTrue result ↔ IsWithin terms.now }
{
    !terms.is_empty() && terms.len() <= 16 && terms.iter().all(fits)
}
