//! What the writing of a session began with.
ghost use Rattle.session.specs.Begun.{Begun, nothing};

use std::marker::Brand;

/// What the writing of a session began with: its hall, its pass, and what its output had taken. No value has it: who begins picks it.
pub(crate) trait Start {
    ghost begun: { Begun };
}

impl Start for Brand {
    ghost begun = { nothing };
}
