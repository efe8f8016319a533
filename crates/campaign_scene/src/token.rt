//! Tokens.
ghost use Rattle.std.specs.Prelude.{◌≡◌, IfOk, OnOk, Some, true, false, codes};
ghost use Rattle.serde_json.specs.View.{view, items_view};
ghost use Rattle.json_fields.specs.Objects.{Gives};
ghost use Rattle.tokens.specs.Tokens.{has_token, put};
ghost use Rattle.tokens.specs.declared.token.Token.{Token as TokenLem};
ghost use Rattle.world.specs.Rules.{belongs, fits, size_of, are_players, is_known};
ghost use Rattle.world.specs.World.{is_used as is_used_lem};
ghost use Rattle.campaign_json.specs.Kinds.{only};
ghost use Rattle.campaign_json.specs.Reading.{Fails, here, under, each, field};
ghost use Rattle.campaign_scene.specs.Kept.{kept_by};
ghost use Rattle.campaign_scene.specs.Tokens.{may_be_made, new_id as new_id_lem, map_name as map_name_lem, name_or_null as name_or_null_lem, type_name as type_name_lem, cell as cell_lem, owner as owner_lem, owners as owners_lem, bare_token as bare_token_lem, marked as marked_lem, with_marks, described as described_lem, with_described, token as token_lem, token_keys, tokens as tokens_lem};

use crate::property::read_properties;
use campaign_json::fields::{self, check_count, check_object, check_only};
use campaign_json::{FileFault, Rule, broken, broken_at, kinds};
use cells::{Cell, Size};
use names::{Layer, SeatNo, Tag, Text, TokenId};
use seats::SeatBook;
use serde_json::Value;
use std::alloc::Global;
use tokens::{Owners, Props, Token};
use world::Scene;

/// The keys of a token.
const TOKEN_KEYS: [&str; 13] = [
    "id", "name", "map", "size", "cell", "layer", "owners", "visible", "sight", "light", "props",
    "own", "secret",
];

/// What a token's value says of its layer, its owners and its types.
#[derive(Drop)]
struct Marks {
    layer: Layer,
    owners: Owners,
    visible: bool,
    sight: Option<Tag>,
    light: Option<Tag>,
}

/// What it says of its properties.
#[derive(Drop)]
struct TokenProps {
    public: Props,
    own: Props,
    secret: Props,
}

/// The scene with the tokens of the campaign, whose seats have these books.
pub fn read_tokens(
    alloc: Global,
    books: &[SeatBook],
    value: &Value,
    mut scene: Scene,
) -> Result<Scene, FileFault>
    ensures exact { Gives Fails (λ s. s) result (tokens_lem books.now scene (view value.now)) }
    ensures kept { IfOk result (λ s. kept_by books.now s ≡ kept_by books.now scene) }
{
    add_tokens(alloc, books, value, &mut scene)?;
    Ok(scene)
}

#[tactic(auto, unfolding(crate::specs::Tokens::tokens))]
fn add_tokens(
    alloc: Global,
    books: &[SeatBook],
    value: &Value,
    scene: &mut Scene,
) -> Result<(), FileFault>
    ensures exact { Gives Fails (λ u. scene.new) result (tokens_lem books.now scene.old (view value.now)) }
    ensures kept { OnOk result (kept_by books.now scene.new ≡ kept_by books.now scene.old) }
{
    let values = fields::items(alloc, value, "tokens")?;
    each_token(alloc, books, values, scene)
}

fn each_token(
    alloc: Global,
    books: &[SeatBook],
    values: &[Value],
    scene: &mut Scene,
) -> Result<(), FileFault>
    ensures exact { Gives Fails (λ u. scene.new) result
        (under (codes "tokens") (each (λ place. token_lem books.now) 0 scene.old (items_view values.now))) }
    ensures kept { OnOk result (kept_by books.now scene.new ≡ kept_by books.now scene.old) }
{
    for (place, value) in values.iter().enumerate() {
        match read_token(alloc, books, value, scene) {
            Ok(()) => {}
            Err(fault) => return Err(fault.under_item(alloc, "tokens", place)),
        }
    }
    Ok(())
}

#[tactic(auto, using(crate::proofs::Tokens::kept_with))]
fn read_token(
    alloc: Global,
    books: &[SeatBook],
    value: &Value,
    scene: &mut Scene,
) -> Result<(), FileFault>
    ensures exact { Gives Fails (λ u. scene.new) result (token_lem books.now scene.old (view value.now)) }
    ensures kept { OnOk result (kept_by books.now scene.new ≡ kept_by books.now scene.old) }
{
    let token = new_token(alloc, books, scene, value)?;
    match scene.make(token) {
        Ok(()) => Ok(()),
        Err(_) => Err(FileFault::Memory),
    }
}

/// The token of a value, which may be made.
#[tactic(auto, unfolding(crate::specs::Tokens::token))]
fn new_token(
    alloc: Global,
    books: &[SeatBook],
    scene: &Scene,
    value: &Value,
) -> Result<Token, FileFault>
    ensures exact { Gives Fails (λ t. record scene.now { tokens = put t scene.now.tokens }) result
        (token_lem books.now scene.now (view value.now)) }
    ensures fitting { IfOk result (λ t. belongs scene.now t ≡ true) }
    ensures used { IfOk result (λ t. is_used_lem books.now t.id ≡ true) }
    ensures absent { IfOk result (λ t. has_token t.id scene.now.tokens ≡ false) }
{
    let token = bare_token(alloc, books, scene, value)?;
    let token = marked(alloc, scene, token, value)?;
    let token = described(alloc, scene, token, value)?;
    alone(alloc, token, value)
}

/// The token, of which the value says nothing else.
fn alone(alloc: Global, token: Token, value: &Value) -> Result<Token, FileFault>
    ensures others { Gives Fails (λ t. tt) result (only token_keys (view value.now)) }
    ensures same { IfOk result (λ t. t ≡ token) }
{
    check_only(alloc, value, &TOKEN_KEYS)?;
    Ok(token)
}

/// A token that isn't shown, with nothing but an id, a name and its place.
#[tactic(auto, unfolding(crate::specs::Tokens::bare_token))]
fn bare_token(
    alloc: Global,
    books: &[SeatBook],
    scene: &Scene,
    value: &Value,
) -> Result<Token, FileFault>
    ensures exact { Gives Fails (λ t. t) result (bare_token_lem books.now scene.now (view value.now)) }
    ensures fitting { IfOk result (λ t. belongs scene.now t ≡ true) }
    ensures used { IfOk result (λ t. is_used_lem books.now t.id ≡ true) }
    ensures absent { IfOk result (λ t. has_token t.id scene.now.tokens ≡ false) }
{
    check_object(alloc, value)?;
    let id = new_id(alloc, books, scene, value)?;
    let name = fields::text(alloc, value, "name", 1, 40)?;
    let (map, extent) = map_name(alloc, scene, value)?;
    let size = fields::whole(alloc, value, "size", 1, 4)? as u8;
    let cell = cell(alloc, extent, size, value)?;
    Ok(Token {
        id,
        name: Text::copy(alloc, name)?,
        map,
        cell,
        size,
        layer: Layer::Token,
        owners: Owners::none(),
        visible: false,
        sight: None,
        light: None,
        public: Props::new(alloc),
        own: Props::new(alloc),
        secret: Props::new(alloc),
    })
}

/// The layer, the owners and the types of a token.
#[tactic(auto, unfolding(crate::specs::Tokens::marked))]
fn read_marks(alloc: Global, scene: &Scene, value: &Value) -> Result<Marks, FileFault>
    ensures exact { (t : TokenLem) → Gives Fails (with_marks t) result (marked_lem scene.now t (view value.now)) }
    ensures owners { IfOk result (λ m. are_players scene.now.fog.players m.owners ≡ true) }
    ensures sight { IfOk result (λ m. is_known scene.now.sights m.sight ≡ true) }
    ensures light { IfOk result (λ m. is_known scene.now.lights m.light ≡ true) }
{
    let layer = fields::layer(alloc, value, "layer")?;
    let owners = read_owners(alloc, scene, value)?;
    let visible = fields::boolean(alloc, value, "visible")?;
    let sight = sight(alloc, scene, value)?;
    let light = light(alloc, scene, value)?;
    Ok(Marks {
        layer,
        owners,
        visible,
        sight,
        light,
    })
}

/// The token with its layer, owners and types.
#[tactic(auto, using(crate::proofs::Tokens::marked_belongs))]
fn marked(alloc: Global, scene: &Scene, mut token: Token, value: &Value) -> Result<Token, FileFault>
    requires { belongs scene.now token ≡ true }
    ensures exact { Gives Fails (λ t. t) result (marked_lem scene.now token (view value.now)) }
    ensures fitting { IfOk result (λ t. belongs scene.now t ≡ true) }
    ensures id { IfOk result (λ t. t.id ≡ token.id) }
{
    let marks = read_marks(alloc, scene, value)?;
    token.layer = marks.layer;
    token.owners = marks.owners;
    token.visible = marks.visible;
    token.sight = marks.sight;
    token.light = marks.light;
    Ok(token)
}

/// The properties of a token.
#[tactic(auto, unfolding(crate::specs::Tokens::described))]
fn read_all_properties(alloc: Global, value: &Value) -> Result<TokenProps, FileFault>
    ensures { (t : TokenLem) → Gives Fails (with_described t) result (described_lem t (view value.now)) }
{
    let public = read_properties(alloc, value, "props")?;
    let own = read_properties(alloc, value, "own")?;
    let secret = read_properties(alloc, value, "secret")?;
    Ok(TokenProps {
        public,
        own,
        secret,
    })
}

/// The token with its properties.
fn described(
    alloc: Global,
    scene: &Scene,
    mut token: Token,
    value: &Value,
) -> Result<Token, FileFault>
    requires { belongs scene.now token ≡ true }
    ensures exact { Gives Fails (λ t. t) result (described_lem token (view value.now)) }
    ensures fitting { IfOk result (λ t. belongs scene.now t ≡ true) }
    ensures id { IfOk result (λ t. t.id ≡ token.id) }
{
    let described = read_all_properties(alloc, value)?;
    token.public = described.public;
    token.own = described.own;
    token.secret = described.secret;
    Ok(token)
}

/// The id of a new token.
fn new_id(
    alloc: Global,
    books: &[SeatBook],
    scene: &Scene,
    value: &Value,
) -> Result<TokenId, FileFault>
    ensures exact { Gives Fails (λ i. i) result
        (field (codes "id") (new_id_lem books.now scene.now) (view value.now)) }
    ensures used { IfOk result (λ i. is_used_lem books.now i ≡ true) }
    ensures absent { IfOk result (λ i. has_token i scene.now.tokens ≡ false) }
{
    match checked_id(books, scene, fields::needed(alloc, value, "id")?) {
        Ok(id) => Ok(id),
        Err(rule) => Err(broken_at(alloc, "id", rule)),
    }
}

#[tactic(auto, unfolding(crate::specs::Tokens::new_id))]
fn checked_id(books: &[SeatBook], scene: &Scene, value: &Value) -> Result<TokenId, Rule>
    ensures exact { here (λ i. i) result ≡ new_id_lem books.now scene.now (view value.now) }
    ensures used { IfOk result (λ i. is_used_lem books.now i ≡ true) }
    ensures absent { IfOk result (λ i. has_token i scene.now.tokens ≡ false) }
{
    let id = kinds::id(value)?;
    match check_id(books, scene, &id) {
        Ok(()) => Ok(id),
        Err(rule) => Err(rule),
    }
}

/// The id's maker used its tag, and no token has the id.
#[tactic(auto, unfolding(crate::specs::Tokens::may_be_made))]
fn check_id(books: &[SeatBook], scene: &Scene, id: &TokenId) -> Result<(), Rule>
    ensures exact { here (λ u. u) result ≡ may_be_made books.now scene.now id.now }
    ensures used { OnOk result (is_used_lem books.now id.now ≡ true) }
    ensures absent { OnOk result (has_token id.now scene.now.tokens ≡ false) }
{
    if !is_used(books, id) {
        return Err(Rule::Cross);
    }
    if scene.tokens().get(*id).is_some() {
        return Err(Rule::Twice);
    }
    Ok(())
}

/// Whether the maker of the id used its tag.
fn is_used(books: &[SeatBook], id: &TokenId) -> bool
    ensures { result ≡ is_used_lem books.now id.now }
{
    match books.get(usize::from(id.maker.number())) {
        Some(book) => book.has_tag(id.tag),
        None => false,
    }
}

/// The name of a token's map, and the map's size.
fn map_name(alloc: Global, scene: &Scene, value: &Value) -> Result<(Tag, Size), FileFault>
    ensures exact { Gives Fails (λ m. (m.0, m.1)) result
        (field (codes "map") (map_name_lem scene.now) (view value.now)) }
    ensures there { IfOk result (λ m. size_of m.0 scene.now.maps ≡ Some m.1) }
{
    match checked_map(scene, fields::needed(alloc, value, "map")?) {
        Ok(map) => Ok(map),
        Err(rule) => Err(broken_at(alloc, "map", rule)),
    }
}

#[tactic(auto, unfolding(crate::specs::Tokens::map_name))]
fn checked_map(scene: &Scene, value: &Value) -> Result<(Tag, Size), Rule>
    ensures exact { here (λ m. (m.0, m.1)) result ≡ map_name_lem scene.now (view value.now) }
    ensures there { IfOk result (λ m. size_of m.0 scene.now.maps ≡ Some m.1) }
{
    let name = kinds::name(value)?;
    match scene.maps().get(name) {
        Some(grid) => Ok((name, grid.size())),
        None => Err(Rule::Cross),
    }
}

/// The cell of a token of that size on a map of that extent.
fn cell(alloc: Global, extent: Size, size: u8, value: &Value) -> Result<Cell, FileFault>
    ensures exact { Gives Fails (λ c. c) result
        (field (codes "cell") (cell_lem extent size) (view value.now)) }
    ensures fitting { IfOk result (λ c. fits extent c size ≡ true) }
{
    match checked_cell(alloc, extent, size, fields::needed(alloc, value, "cell")?) {
        Ok(cell) => Ok(cell),
        Err(fault) => Err(fault.under_key(alloc, "cell")),
    }
}

#[tactic(auto, unfolding(crate::specs::Tokens::cell))]
fn checked_cell(alloc: Global, extent: Size, size: u8, value: &Value) -> Result<Cell, FileFault>
    ensures exact { Gives Fails (λ c. c) result (cell_lem extent size (view value.now)) }
    ensures fitting { IfOk result (λ c. fits extent c size ≡ true) }
{
    check_count(alloc, value, 2)?;
    let x = fields::whole_item(alloc, value, 0, 0, 95)?;
    let y = fields::whole_item(alloc, value, 1, 0, 95)?;
    let side = u64::from(size);
    if x + side > u64::from(extent.w()) || y + side > u64::from(extent.h()) {
        return Err(broken(alloc, Rule::Cross));
    }
    Ok(Cell {
        x: x as u8,
        y: y as u8,
    })
}

/// The sight type of a token.
fn sight(alloc: Global, scene: &Scene, value: &Value) -> Result<Option<Tag>, FileFault>
    ensures exact { Gives Fails (λ t. t) result
        (field (codes "sight") (type_name_lem scene.now.sights) (view value.now)) }
    ensures known { IfOk result (λ t. is_known scene.now.sights t ≡ true) }
{
    match checked_sight(scene, fields::needed(alloc, value, "sight")?) {
        Ok(name) => Ok(name),
        Err(rule) => Err(broken_at(alloc, "sight", rule)),
    }
}

#[tactic(auto, unfolding(crate::specs::Tokens::type_name))]
fn checked_sight(scene: &Scene, value: &Value) -> Result<Option<Tag>, Rule>
    ensures exact { here (λ t. t) result ≡ type_name_lem scene.now.sights (view value.now) }
    ensures known { IfOk result (λ t. is_known scene.now.sights t ≡ true) }
{
    match name_or_null(value)? {
        None => Ok(None),
        Some(name) if scene.sights().sight(name).is_some() => Ok(Some(name)),
        Some(_) => Err(Rule::Cross),
    }
}

/// The light type of a token.
fn light(alloc: Global, scene: &Scene, value: &Value) -> Result<Option<Tag>, FileFault>
    ensures exact { Gives Fails (λ t. t) result
        (field (codes "light") (type_name_lem scene.now.lights) (view value.now)) }
    ensures known { IfOk result (λ t. is_known scene.now.lights t ≡ true) }
{
    match checked_light(scene, fields::needed(alloc, value, "light")?) {
        Ok(name) => Ok(name),
        Err(rule) => Err(broken_at(alloc, "light", rule)),
    }
}

#[tactic(auto, unfolding(crate::specs::Tokens::type_name))]
fn checked_light(scene: &Scene, value: &Value) -> Result<Option<Tag>, Rule>
    ensures exact { here (λ t. t) result ≡ type_name_lem scene.now.lights (view value.now) }
    ensures known { IfOk result (λ t. is_known scene.now.lights t ≡ true) }
{
    match name_or_null(value)? {
        None => Ok(None),
        Some(name) if scene.lights().radius(name).is_some() => Ok(Some(name)),
        Some(_) => Err(Rule::Cross),
    }
}

/// The name of a type, or null.
#[tactic(auto, unfolding(crate::specs::Tokens::name_or_null))]
fn name_or_null(value: &Value) -> Result<Option<Tag>, Rule>
    ensures { here (λ t. t) result ≡ name_or_null_lem (view value.now) }
{
    if value.is_null() {
        return Ok(None);
    }
    Ok(Some(kinds::name(value)?))
}

/// The owners of a token, all of them players of the scene.
#[tactic(auto, unfolding(crate::specs::Tokens::owners))]
fn read_owners(alloc: Global, scene: &Scene, value: &Value) -> Result<Owners, FileFault>
    ensures exact { Gives Fails (λ o. o) result (owners_lem scene.now.fog.players (view value.now)) }
    ensures players { IfOk result (λ o. are_players scene.now.fog.players o ≡ true) }
{
    let values = fields::items(alloc, value, "owners")?;
    each_owner(alloc, scene.fog().players(), values)
}

fn each_owner(alloc: Global, players: u8, values: &[Value]) -> Result<Owners, FileFault>
    ensures exact { Gives Fails (λ o. o) result
        (under (codes "owners") (each (λ place. owner_lem players) 0 0 (items_view values.now))) }
    ensures players { IfOk result (λ o. are_players players o ≡ true) }
{
    let mut owners = Owners::none();
    for (place, value) in values.iter().enumerate() {
        owners = match read_owner(alloc, players, owners, value) {
            Ok(next) => next,
            Err(fault) => return Err(fault.under_item(alloc, "owners", place)),
        };
    }
    Ok(owners)
}

#[tactic(auto, using(crate::proofs::Tokens::owner_more), unfolding(crate::specs::Tokens::owner))]
fn read_owner(
    alloc: Global,
    players: u8,
    owners: Owners,
    value: &Value,
) -> Result<Owners, FileFault>
    ensures exact { Gives Fails (λ o. o) result (owner_lem players owners (view value.now)) }
    ensures players { are_players players owners ≡ true → IfOk result (λ o. are_players players o ≡ true) }
{
    let number = match kinds::whole(value, 1, 32) {
        Ok(number) => number as u8,
        Err(rule) => return Err(broken(alloc, rule)),
    };
    let seat = SeatNo::new(number).unwrap();
    if number > players {
        return Err(broken(alloc, Rule::Cross));
    }
    if owners.has(seat) {
        return Err(broken(alloc, Rule::Twice));
    }
    Ok(owners.with(seat, true))
}
