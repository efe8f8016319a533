//! What rules ask.
ghost use Rattle.std.specs.Prelude.{◌≡◌};
ghost use Rattle.player_view.specs.View.{no_view as no_view_lem};

use std::alloc::Global;
use views::{LightTexts, MapViews, SightTexts, TokenViews, View};
use world::Scene;

/// What the rules of a seat's commands ask, of a campaign of so many seats: what the seat is shown answers, and for the game
/// master the whole scene besides.
#[derive(Drop)]
pub struct Asking<'a> {
    pub seats: u8,
    /// What the seat is shown.
    pub view: &'a View,
    /// The whole scene, for the game master; none, for a player.
    pub whole: Option<&'a Scene>,
}

/// The view of a seat that was shown nothing. It takes no memory.
pub fn no_view(alloc: Global) -> View
    ensures { result ≡ no_view_lem }
{
    View {
        gm: false,
        lights: LightTexts {
            list: Vec::new(alloc),
        },
        sights: SightTexts {
            list: Vec::new(alloc),
        },
        maps: MapViews {
            list: Vec::new(alloc),
        },
        tokens: TokenViews {
            list: Vec::new(alloc),
        },
        fight: None,
    }
}
