//! The small lists of views and changes. Contracts see each as the list of its items.
ghost use Rattle.std.specs.Prelude.{◌≡◌, IfOk};

use crate::change::MapChange;
use crate::view::{MapView, TokenView};
use cells::Cell;
use names::{Memory, SeatNo, Tag, Text, TokenId};
use std::marker::Model;
use std::sync::Arc;

/// Light types: names with radii in cells.
#[derive(Drop)]
pub struct LightTexts {
    pub list: Vec<(Tag, i64)>,
}

impl Model for LightTexts {
    ghost use Rattle.std.specs.Prelude.{List, ℕ, ℤ};

    ghost Value = { List (List ℕ × ℤ) };

    ghost view = { λ l. l.list.items };
}

impl LightTexts {
    /// The items, in order.
    pub fn items(&self) -> &[(Tag, i64)]
        ensures { result.now ≡ self.now }
    {
        self.list.as_slice()
    }
}

/// Sight types: names with range, night range and multiplier.
#[derive(Drop)]
pub struct SightTexts {
    pub list: Vec<(Tag, [u8; 3])>,
}

impl Model for SightTexts {
    ghost use Rattle.std.specs.Prelude.{List, ℕ};

    ghost Value = { List (List ℕ × List ℕ) };

    ghost view = { λ l. l.list.items };
}

impl SightTexts {
    /// The items, in order.
    pub fn items(&self) -> &[(Tag, [u8; 3])]
        ensures { result.now ≡ self.now }
    {
        self.list.as_slice()
    }
}

/// Properties: names with values.
#[derive(Drop)]
pub struct PropTexts {
    pub list: Vec<(Tag, Text)>,
}

impl Model for PropTexts {
    ghost use Rattle.std.specs.Prelude.{List, ℕ};

    ghost Value = { List (List ℕ × List ℕ) };

    ghost view = { λ l. l.list.items };
}

impl PropTexts {
    /// The items, in order.
    pub fn items(&self) -> &[(Tag, Text)]
        ensures { result.now ≡ self.now }
    {
        self.list.as_slice()
    }
}

/// Terrain: cells with letters. A map has many, and most changes leave them, so copies share them.
#[derive(Drop)]
pub struct Letters {
    shared: Arc<Vec<(Cell, u8)>>,
}

impl Model for Letters {
    ghost use Rattle.std.specs.Prelude.{List, ℕ};
    ghost use Rattle.cells.specs.declared.cell.Cell.{Cell};
    ghost use Rattle.std.specs.Arc.{arc_value};

    ghost Value = { List (Cell × ℕ) };

    ghost view = { λ l. (arc_value l.shared).items };
}

impl Letters {
    /// These items, or `Memory` for want of memory.
    pub fn new(list: Vec<(Cell, u8)>) -> Result<Letters, Memory>
        ensures { IfOk result (λ letters. letters ≡ list.items) }
    {
        let shared = Arc::new(*list.allocator(), list)?;
        Ok(Letters { shared })
    }

    /// The items, in order.
    pub fn items(&self) -> &[(Cell, u8)]
        ensures { result.now ≡ self.now }
    {
        self.shared.as_slice()
    }

    /// The same list once more, shared: it takes no memory. `Memory` where it has as many owners as can be counted.
    pub fn share(&self) -> Result<Letters, Memory>
        ensures { IfOk result (λ letters. letters ≡ self.now) }
    {
        let shared = Arc::try_clone(&self.shared)?;
        Ok(Letters { shared })
    }
}

/// Numbers of seats.
#[derive(Drop)]
pub struct SeatNos {
    pub list: Vec<SeatNo>,
}

impl Model for SeatNos {
    ghost use Rattle.std.specs.Prelude.{List, ℕ};

    ghost Value = { List ℕ };

    ghost view = { λ l. l.list.items };
}

impl SeatNos {
    /// The items, in order.
    pub fn items(&self) -> &[SeatNo]
        ensures { result.now ≡ self.now }
    {
        self.list.as_slice()
    }
}

/// Names.
#[derive(Drop)]
pub struct Tags {
    pub list: Vec<Tag>,
}

impl Model for Tags {
    ghost use Rattle.std.specs.Prelude.{List, ℕ};

    ghost Value = { List (List ℕ) };

    ghost view = { λ l. l.list.items };
}

impl Tags {
    /// The items, in order.
    pub fn items(&self) -> &[Tag]
        ensures { result.now ≡ self.now }
    {
        self.list.as_slice()
    }
}

/// Ids of tokens.
#[derive(Drop)]
pub struct TokenIds {
    pub list: Vec<TokenId>,
}

impl Model for TokenIds {
    ghost use Rattle.std.specs.Prelude.{List};
    ghost use Rattle.names.specs.declared.token_id.TokenId.{TokenId};

    ghost Value = { List TokenId };

    ghost view = { λ l. l.list.items };
}

impl TokenIds {
    /// The items, in order.
    pub fn items(&self) -> &[TokenId]
        ensures { result.now ≡ self.now }
    {
        self.list.as_slice()
    }
}

/// Entries of a fight: the tokens' ids with their values.
#[derive(Drop)]
pub struct FightList {
    pub list: Vec<(TokenId, i16)>,
}

impl Model for FightList {
    ghost use Rattle.std.specs.Prelude.{List, ℤ};
    ghost use Rattle.names.specs.declared.token_id.TokenId.{TokenId};

    ghost Value = { List (TokenId × ℤ) };

    ghost view = { λ l. l.list.items };
}

impl FightList {
    /// The items, in order.
    pub fn items(&self) -> &[(TokenId, i16)]
        ensures { result.now ≡ self.now }
    {
        self.list.as_slice()
    }
}

/// Maps as a seat sees them.
#[derive(Drop)]
pub struct MapViews {
    pub list: Vec<MapView>,
}

impl Model for MapViews {
    ghost use Rattle.std.specs.Prelude.{List};
    ghost use Rattle.views.specs.declared.view.MapView.{MapView};

    ghost Value = { List MapView };

    ghost view = { λ l. l.list.items };
}

impl MapViews {
    /// The items, in order.
    pub fn items(&self) -> &[MapView]
        ensures { result.now ≡ self.now }
    {
        self.list.as_slice()
    }
}

/// Tokens as a seat sees them.
#[derive(Drop)]
pub struct TokenViews {
    pub list: Vec<TokenView>,
}

impl Model for TokenViews {
    ghost use Rattle.std.specs.Prelude.{List};
    ghost use Rattle.views.specs.declared.view.TokenView.{TokenView};

    ghost Value = { List TokenView };

    ghost view = { λ l. l.list.items };
}

impl TokenViews {
    /// The items, in order.
    pub fn items(&self) -> &[TokenView]
        ensures { result.now ≡ self.now }
    {
        self.list.as_slice()
    }
}

/// Changes of maps.
#[derive(Drop)]
pub struct MapChanges {
    pub list: Vec<MapChange>,
}

impl Model for MapChanges {
    ghost use Rattle.std.specs.Prelude.{List};
    ghost use Rattle.views.specs.declared.change.MapChange.{MapChange};

    ghost Value = { List MapChange };

    ghost view = { λ l. l.list.items };
}

impl MapChanges {
    /// The items, in order.
    pub fn items(&self) -> &[MapChange]
        ensures { result.now ≡ self.now }
    {
        self.list.as_slice()
    }
}
