//! What one seat sees of a game, and how one view differs from another: the types, their copies and the tests whether
//! two are equal.
//!
//! Contracts see each small list as the list of its items.
#![tactic(auto)]

mod change;
mod copies;
mod lettered_cells;
mod lists;
mod same;
mod view;

pub use change::{Change, MapChange};
pub use copies::copy_fight;
pub use lettered_cells::lettered;
pub use lists::{
    FightList, Letters, LightTexts, MapChanges, MapViews, PropTexts, SeatNos, SightTexts, Tags,
    TokenIds, TokenViews,
};
pub use same::{
    same_fight, same_map, same_map_by, same_mode, same_shown, same_token, same_view, same_view_by,
};
pub use view::{FightView, GmPart, MapView, OwnedPart, TokenView, View};
