//! How one view differs from another.
use crate::lists::{
    Letters, LightTexts, MapChanges, MapViews, SightTexts, Tags, TokenIds, TokenViews,
};
use crate::view::FightView;
use cells::CellSet;
use names::{Mode, Tag};

/// How a view differs from the one before it.
#[derive(Drop)]
pub struct Change {
    /// How the maps differ that are in both views, in byte order of names.
    pub changed: MapChanges,
    /// The part of the fight, or that there is none, where that differs.
    pub fight: Option<Option<FightView>>,
    /// The ids of tokens that are in the view before alone, in order.
    pub gone: TokenIds,
    /// The light types that are new or differ, in byte order of names.
    pub lights: LightTexts,
    /// The maps that are in the view after alone, whole, in byte order of names.
    pub maps: MapViews,
    /// The sight types that are new or differ, in byte order of names.
    pub sights: SightTexts,
    /// The tokens that are new or differ, whole, in order of ids.
    pub tokens: TokenViews,
    /// The names of maps that are in the view before alone, in byte order.
    pub unmapped: Tags,
}

/// How a map differs from the same map in the view before.
#[derive(Drop)]
pub struct MapChange {
    pub name: Tag,
    /// The mode, where it differs.
    pub mode: Option<Mode>,
    /// Whether players are shown the map, where that differs.
    pub shown: Option<bool>,
    /// The cells that are no longer in sight, of the map's size.
    pub dark: CellSet,
    /// The terrain of the cells that are newly exposed or have another letter, by row, then column.
    pub letters: Letters,
    /// The cells that are no longer exposed, of the map's size.
    pub hidden: CellSet,
    /// The cells that are newly in sight, of the map's size.
    pub lit: CellSet,
}
