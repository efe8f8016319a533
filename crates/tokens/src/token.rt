//! One token.
ghost use Rattle.std.specs.Prelude.{◌≡◌, ◌≤◌, ◌+◌, ◌<◌, ◌↔◌, ◌&&◌, nat_le, IsTrue, true, length, Err, IfOk, OnOk, OnErr};
ghost use Rattle.tokens.specs.Properties.{is_full_for, value_limit};
ghost use Rattle.tokens.specs.Tokens.{Covers, covers, eye_of, props_of, with_prop};
ghost use Rattle.tokens.specs.declared.props.PropFault.TheVariants.{PropertyLimit};

use crate::owners::Owners;
use crate::props::{PropFault, Props};
use cells::Cell;
use lattice::Point;
use names::{Layer, Memory, PropClass, Tag, Text, TokenId};

/// A token on a map.
#[derive(Drop)]
pub struct Token {
    pub id: TokenId,
    /// What the token is called. It need not be unique.
    pub name: Text,
    /// The name of the map that the token is on.
    pub map: Tag,
    /// The upper left cell of the square that the token covers.
    pub cell: Cell,
    /// How many cells wide and high that square is.
    pub size: u8,
    pub layer: Layer,
    /// The players that own it.
    pub owners: Owners,
    /// Whether players who don't own it may be shown it.
    pub visible: bool,
    /// The name of its sight type, if it sees.
    pub sight: Option<Tag>,
    /// The name of its light type, if it has a light.
    pub light: Option<Tag>,
    /// The properties that whoever is shown the token reads.
    pub public: Props,
    /// The properties that its owners and the game master read.
    pub own: Props,
    /// The properties that the game master reads.
    pub secret: Props,
}

impl Token {
    /// An equal token, or `Memory` for want of memory.
    pub fn copy(&self) -> Result<Token, Memory>
        ensures { IfOk result (λ t. t ≡ self.now) }
    {
        Ok(Token {
            id: self.id,
            name: self.name.share()?,
            map: self.map,
            cell: self.cell,
            size: self.size,
            layer: self.layer,
            owners: self.owners,
            visible: self.visible,
            sight: self.sight,
            light: self.light,
            public: self.public.copy()?,
            own: self.own.copy()?,
            secret: self.secret.copy()?,
        })
    }

    /// Whether the token covers the cell: it covers the square of `size` by `size` cells that begins at `cell`.
    #[tactic(auto, using(crate::proofs::CoverLemmas::covers_tells))]
    pub fn covers(&self, cell: Cell) -> bool
        ensures test { result ≡ covers self.now cell.x cell.y }
        ensures square { IsTrue result ↔ Covers self.now cell.x cell.y }
    {
        self.passes_covers(cell)
    }

    fn passes_covers(&self, cell: Cell) -> bool
        ensures { result ≡ covers self.now cell.x cell.y }
    {
        spans(self.cell.x, self.size, cell.x) && spans(self.cell.y, self.size, cell.y)
    }

    /// Where the token looks from, and where its light is: the centre of its square. The square is on a map.
    pub fn eye(&self) -> Point
        requires column { self.now.cell.x + self.now.size ≤ 96 }
        requires row { self.now.cell.y + self.now.size ≤ 96 }
        ensures { result ≡ eye_of self.now }
    {
        Point::square_centre(self.cell.x, self.cell.y, self.size)
    }

    /// The properties of a class.
    pub fn props(&self, class: PropClass) -> &Props
        ensures { result.now ≡ props_of class self.now }
    {
        match class {
            PropClass::Public => &self.public,
            PropClass::Own => &self.own,
            PropClass::Secret => &self.secret,
        }
    }

    /// Sets a property of a class to a value of at most 200 bytes; all else stays.
    ///
    /// `PropertyLimit` exactly where the name is new in its class and the class has 64 names. After a fault the token
    /// is as before.
    pub fn set_prop(&mut self, class: PropClass, name: Tag, value: Text) -> Result<(), PropFault>
        requires { length value ≤ value_limit }
        ensures ok { OnOk result (self.new ≡ with_prop class name value self.old) }
        ensures limit { (result ≡ Err PropertyLimit) ↔ (is_full_for name (props_of class self.old) ≡ true) }
        ensures unchanged { OnErr result (self.new ≡ self.old) }
    {
        match class {
            PropClass::Public => self.public.set(name, value),
            PropClass::Own => self.own.set(name, value),
            PropClass::Secret => self.secret.set(name, value),
        }
    }
}

/// Whether the place is one of those that begin at `first`.
fn spans(first: u8, count: u8, place: u8) -> bool
    ensures { result ≡ (nat_le first place && nat_le (place + 1) (first + count)) }
{
    first <= place && place - first < count
}
