//! Whose views an entry may change, as far as its scene tells.
ghost use Rattle.std.specs.Prelude.{◌≡◌};
ghost use Rattle.campaign_core.specs.Shown.{placed_reaching, reaches as reaches_lem};

use names::SeatNo;
use tokens::Owners;
use view_marks::Placed;

/// Whose views may change.
#[derive(Clone, Copy)]
pub(crate) enum Reach {
    /// Nobody's: the scene is the same.
    Nobody,
    /// Those of the game master and of these players: others are shown nothing of what changed. In the game master's that is,
    /// where there is one, where the token stands.
    Onlookers(Owners, Option<Placed>),
}

/// Whether what changed reaches the seat.
pub(crate) fn reaches(reach: Reach, seat: SeatNo) -> bool
    ensures { result ≡ reaches_lem reach seat }
{
    match reach {
        Reach::Nobody => false,
        Reach::Onlookers(players, _) => seat.number() == 0 || players.has(seat),
    }
}

/// Where the token stands that is all that changed in the game master's view; none, where that isn't known.
pub(crate) fn placed_in_reach(reach: Reach) -> Option<Placed>
    ensures { result ≡ placed_reaching reach }
{
    match reach {
        Reach::Nobody => None,
        Reach::Onlookers(_, placed) => placed,
    }
}
