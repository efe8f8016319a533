//! What one seat sees.
use crate::lists::{
    FightList, Letters, LightTexts, MapViews, PropTexts, SeatNos, SightTexts, TokenViews,
};
use cells::{Cell, CellSet, Size};
use names::{Layer, Mode, Tag, Text, TokenId};

/// All that one seat sees.
#[derive(Drop)]
pub struct View {
    /// Whether it is the game master's view.
    pub gm: bool,
    /// The light types, in byte order of names.
    pub lights: LightTexts,
    /// The sight types, in byte order of names.
    pub sights: SightTexts,
    /// The maps, in byte order of names.
    pub maps: MapViews,
    /// The tokens, in order of ids.
    pub tokens: TokenViews,
    /// The seat's part of the fight, where there is an entry in its list.
    pub fight: Option<FightView>,
}

/// What a seat sees of a fight.
#[derive(Drop)]
pub struct FightView {
    /// The entries of the tokens that stand in the view: the greatest value first, and of equal values the least id first.
    pub list: FightList,
    /// The round, 0 before the first turn, at most 999,999,999.
    pub round: u32,
    /// The last of these entries at or before the one that has the turn, or none.
    pub turn: Option<TokenId>,
}

/// What a seat sees of a map.
#[derive(Drop)]
pub struct MapView {
    pub name: Tag,
    pub size: Size,
    pub mode: Mode,
    /// Whether players are shown the map: in the game master's view alone.
    pub shown: Option<bool>,
    /// The cells that are in sight, of the map's size.
    pub seen: CellSet,
    /// The cells that were ever shown and aren't hidden again, of the map's size.
    pub exposed: CellSet,
    /// The terrain of the exposed cells, by row, then column.
    pub letters: Letters,
}

/// What a seat sees of a token.
#[derive(Drop)]
pub struct TokenView {
    pub id: TokenId,
    pub name: Text,
    pub map: Tag,
    pub cell: Cell,
    /// How many cells wide and high the token is, 1 to 4.
    pub size: u8,
    pub layer: Layer,
    /// The Public properties, in order of first setting.
    pub props: PropTexts,
    /// What an owner and the game master see besides.
    pub owned: Option<OwnedPart>,
    /// What the game master alone sees besides.
    pub whole: Option<GmPart>,
}

/// What a token's owner sees besides.
#[derive(Drop)]
pub struct OwnedPart {
    /// The name of its sight type.
    pub sight: Option<Tag>,
    /// The name of its light type.
    pub light: Option<Tag>,
    /// The Own properties, in order of first setting.
    pub own: PropTexts,
}

/// What the game master alone sees of a token.
#[derive(Drop)]
pub struct GmPart {
    /// The players that own the token, ascending.
    pub owners: SeatNos,
    /// The Secret properties, in order of first setting.
    pub secret: PropTexts,
    /// The visible flag.
    pub visible: bool,
}
