//! The table of a campaign's tokens.
ghost use Rattle.std.specs.Prelude.{◌≡◌, ◌<◌, ◌≤◌, ◌↔◌, ◌∷◌, ◌++◌, true, false, [], length, slice_get, Some, None, Err, IfOk, IfErr, IfSome, OnOk, OnErr, is_ok, is_some, if◌then◌else◌};
ghost use Rattle.std.specs.Option.{option_copied};
ghost use Rattle.std.specs.List.{insert, position, position_or_len};
ghost use Rattle.std.specs.Ordering.{is_lt};
ghost use Rattle.names.specs.TokenId.{id_cmp};
ghost use Rattle.tokens.specs.Properties.{is_full_for, value_limit};
ghost use Rattle.tokens.specs.Tokens.{changed, has_id, has_token, in_order, is_behind, on_layer, owned_by, placed, props_of, put, shown_if, token_of, with_light, with_prop, with_sight, without};
ghost use Rattle.tokens.specs.declared.props.PropFault.TheVariants.{PropertyLimit};

use crate::props::PropFault;
use crate::token::Token;
use cells::Cell;
use names::{Layer, Memory, PropClass, SeatNo, Tag, Text, TokenId};
use std::alloc::Global;
use std::marker::Model;

/// The tokens of a campaign, in order of ids: by maker, then tag. No id is there twice.
#[derive(Drop)]
pub struct TokenTable {
    tokens: Vec<Token>,
}

impl Model for TokenTable {
    ghost use Rattle.std.specs.Prelude.{◌≡◌, List, true};
    ghost use Rattle.tokens.specs.declared.token.Token.{Token};
    ghost use Rattle.tokens.specs.Tokens.{in_order};

    ghost Value = { List Token };

    ghost view = { λ t. t.tokens.items };

    ghost invariant = { λ t. in_order t.tokens.items ≡ true };
}

impl TokenTable {
    /// No tokens.
    pub fn new(alloc: Global) -> TokenTable
        ensures { result ≡ [] }
    {
        TokenTable {
            tokens: Vec::new(alloc),
        }
    }

    /// An equal table, or `Memory` for want of memory.
    pub fn copy(&self) -> Result<TokenTable, Memory>
        ensures { IfOk result (λ t. t ≡ self.now) }
    {
        let tokens = copy_tokens(&self.tokens)?;
        Ok(TokenTable { tokens })
    }

    /// How many tokens there are.
    pub fn len(&self) -> usize
        ensures value { result ≡ length self.now }
        ensures ordered { in_order self.now ≡ true }
    {
        self.tokens.len()
    }

    /// The token at that place, in order of ids.
    pub fn at(&self, place: usize) -> &Token
        requires { place < length self.now }
        ensures { slice_get self.now place ≡ Some result.now }
    {
        &self.tokens[place]
    }

    /// The token of that id; `None` exactly where it isn't there.
    pub fn get(&self, id: TokenId) -> Option<&Token>
        ensures value { option_copied result ≡ token_of id self.now }
        ensures there { is_some result ≡ has_token id self.now }
    {
        find_token(&self.tokens, id)
    }

    /// Puts a token in its place; its id isn't there. The token comes back for want of memory, and the table is then
    /// as before.
    pub fn make(&mut self, token: Token) -> Result<(), Token>
        requires { has_token token.id self.old ≡ false }
        ensures ok { OnOk result (self.new ≡ put token self.old) }
        ensures back { IfErr result (λ t. t ≡ token) }
        ensures unchanged { OnErr result (self.new ≡ self.old) }
    {
        let place = place_for(&self.tokens, token.id);
        insert_at(&mut self.tokens, place, token)
    }

    /// Takes out the token of that id, with its properties; `None` exactly where it isn't there.
    pub fn remove(&mut self, id: TokenId) -> Option<Token>
        ensures value { result ≡ token_of id self.old }
        ensures rest { self.new ≡ without id self.old }
    {
        match place_of(&self.tokens, id) {
            Some(place) => Some(self.tokens.remove(place)),
            None => None,
        }
    }

    /// Puts the token of that id, which is there, on a cell of a map; all else stays.
    pub fn place(&mut self, id: TokenId, map: Tag, cell: Cell)
        requires { has_token id self.old ≡ true }
        ensures { self.new ≡ changed id (placed map cell) self.old }
    {
        let place = known_place_of(&self.tokens, id);
        let token = &mut self.tokens[place];
        token.map = map;
        token.cell = cell;
    }

    /// Puts the token of that id, which is there, on a layer; all else stays.
    pub fn set_layer(&mut self, id: TokenId, layer: Layer)
        requires { has_token id self.old ≡ true }
        ensures { self.new ≡ changed id (on_layer layer) self.old }
    {
        let place = known_place_of(&self.tokens, id);
        let token = &mut self.tokens[place];
        token.layer = layer;
    }

    /// Sets the visible flag of the token of that id, which is there; all else stays.
    pub fn set_visible(&mut self, id: TokenId, on: bool)
        requires { has_token id self.old ≡ true }
        ensures { self.new ≡ changed id (shown_if on) self.old }
    {
        let place = known_place_of(&self.tokens, id);
        let token = &mut self.tokens[place];
        token.visible = on;
    }

    /// Makes the seat an owner of the token of that id, which is there, or makes it none; all else stays.
    pub fn set_owner(&mut self, id: TokenId, seat: SeatNo, on: bool)
        requires { has_token id self.old ≡ true }
        ensures { self.new ≡ changed id (owned_by seat on) self.old }
    {
        let place = known_place_of(&self.tokens, id);
        let token = &mut self.tokens[place];
        token.owners = token.owners.with(seat, on);
    }

    /// Sets the sight type of the token of that id, which is there; all else stays.
    pub fn set_sight(&mut self, id: TokenId, sight: Option<Tag>)
        requires { has_token id self.old ≡ true }
        ensures { self.new ≡ changed id (with_sight sight) self.old }
    {
        let place = known_place_of(&self.tokens, id);
        let token = &mut self.tokens[place];
        token.sight = sight;
    }

    /// Sets the light type of the token of that id, which is there; all else stays.
    pub fn set_light(&mut self, id: TokenId, light: Option<Tag>)
        requires { has_token id self.old ≡ true }
        ensures { self.new ≡ changed id (with_light light) self.old }
    {
        let place = known_place_of(&self.tokens, id);
        let token = &mut self.tokens[place];
        token.light = light;
    }

    /// Sets a property of the token of that id, which is there, to a value of at most 200 bytes; all else stays.
    ///
    /// `PropertyLimit` exactly where the name is new in its class and the class has 64 names. After a fault the table
    /// is as before.
    pub fn set_prop(
        &mut self,
        id: TokenId,
        class: PropClass,
        name: Tag,
        value: Text,
    ) -> Result<(), PropFault>
        requires there { has_token id self.old ≡ true }
        requires short { length value ≤ value_limit }
        ensures ok { OnOk result (self.new ≡ changed id (with_prop class name value) self.old) }
        ensures limit { IfSome (token_of id self.old) (λ t. (result ≡ Err PropertyLimit) ↔ (is_full_for name (props_of class t) ≡ true)) }
        ensures unchanged { OnErr result (self.new ≡ self.old) }
    {
        let place = known_place_of(&self.tokens, id);
        self.tokens[place].set_prop(class, name, value)
    }
}

/// Inserts a token at a place; it comes back for want of memory.
fn insert_at(tokens: &mut Vec<Token>, place: usize, token: Token) -> Result<(), Token>
    requires { place ≤ length tokens.old.items }
    ensures items { tokens.new.items ≡ (if is_ok result then insert tokens.old.items place token else tokens.old.items) }
    ensures back { IfErr result (λ t. t ≡ token) }
{
    match tokens.insert(place, token) {
        Ok(()) => Ok(()),
        Err(failed) => Err(failed.value),
    }
}

fn find_token(tokens: &[Token], id: TokenId) -> Option<&Token>
    ensures { option_copied result ≡ token_of id tokens.now }
{
    tokens.iter().find(|token| token.id == id)
}

/// Where the token of that id is, if it is there.
fn place_of(tokens: &[Token], id: TokenId) -> Option<usize>
    ensures { result ≡ position (has_id id) tokens.now }
{
    tokens.iter().position(|token| token.id == id)
}

/// Where the token of that id is, which is there.
fn known_place_of(tokens: &[Token], id: TokenId) -> usize
    requires { has_token id tokens.now ≡ true }
    ensures place { result ≡ position_or_len (has_id id) tokens.now }
    ensures bound { result < length tokens.now }
{
    match place_of(tokens, id) {
        Some(place) => place,
        None => unreachable!(),
    }
}

/// Where a token of that id would stand: behind all those of lesser ids.
fn place_for(tokens: &[Token], id: TokenId) -> usize
    ensures place { result ≡ position_or_len (is_behind id) tokens.now }
    ensures bound { result ≤ length tokens.now }
{
    match first_behind(tokens, id) {
        Some(place) => place,
        None => tokens.len(),
    }
}

fn first_behind(tokens: &[Token], id: TokenId) -> Option<usize>
    ensures { result ≡ position (is_behind id) tokens.now }
{
    tokens.iter().position(|token| !is_before(token.id, id))
}

fn is_before(id: TokenId, other: TokenId) -> bool
    ensures { result ≡ is_lt (id_cmp id other) }
{
    id < other
}

fn copy_tokens(tokens: &Vec<Token>) -> Result<Vec<Token>, Memory>
    ensures { IfOk result (λ copy. copy.items ≡ tokens.now.items) }
{
    let mut copy = Vec::with_capacity(*tokens.allocator(), tokens.len())?;
    for token in tokens {
        copy.push(token.copy()?)?;
    }
    Ok(copy)
}
