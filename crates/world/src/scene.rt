//! All of a campaign but its seats' books.
ghost use Rattle.std.specs.Prelude.{◌≡◌, ◌≤◌, ◌↔◌, IsTrue, true, false, length, Err, Some, None, IfOk, IfErr, IfSome, OnOk, OnErr, IsErr};
ghost use Rattle.cells.specs.Cells.{IsToldByCells};
ghost use Rattle.std.specs.List.{AllZip};
ghost use Rattle.fog_book.specs.Exposures.{AddsMap, ChangesOnly, HaveOneSize, joined, with_change, with_each_seen};
ghost use Rattle.fog_book.specs.Rects.{with_rect};
ghost use Rattle.initiative.specs.Fights.{is_listed, no_fight, passed, with_entry, without_entry};
ghost use Rattle.lights.specs.Lights.{IsFaultOf as IsLightFaultOf, light_fault};
ghost use Rattle.names.specs.Letters.{is_letter};
ghost use Rattle.maps.specs.Letters.{IsOn};
ghost use Rattle.maps.specs.Maps.{has_map, map_of, new_map, shown_if as map_shown_if, trail_if, with_letters, with_map, with_mode, with_wall_of, without_wall_of};
ghost use Rattle.maps.specs.MapFaults.{IsMapFaultOf, map_fault};
ghost use Rattle.sight_types.specs.Sights.{IsFaultOf as IsSightFaultOf, sight_fault};
ghost use Rattle.tokens.specs.Properties.{is_full_for, value_limit};
ghost use Rattle.tokens.specs.Tokens.{has_token, on_layer, owned_by, placed, props_of, put, shown_if, token_of, with_light, with_prop, with_sight};
ghost use Rattle.tokens.specs.declared.props.PropFault.TheVariants.{PropertyLimit};
ghost use Rattle.topology.specs.Order.{wall_between};
ghost use Rattle.topology.specs.WallFaults.{IsFaultOf as IsWallFaultOf, wall_fault};
ghost use Rattle.topology.specs.WallLists.{has_wall, walls_of};
ghost use Rattle.type_table.specs.Types.{with_type};
ghost use Rattle.world.specs.Rules.{IsScene, belongs, fits_on, is_known, is_player, size_of};
ghost use Rattle.world.specs.Scene.{bare, removed, with_grid, with_new_map, with_token};

use cells::{Cell, CellSet, Rect, Size};
use fog_book::FogBook;
use initiative::Fight;
use lattice::Point;
use lights::{LightFault, LightTable};
use maps::{MapFault, MapTable};
use names::{Layer, Memory, Mode, PropClass, SeatNo, Tag, Text, TokenId, WallKind};
use sight_types::{SightFault, SightTable};
use std::alloc::Global;
use std::marker::Model;
use tokens::{PropFault, Token, TokenTable};
use topology::{NoSuchWall, WallFault};

/// The maps of a campaign, the tokens on them, the types of lights and sights, what is exposed to each player, and the
/// list of the fight.
///
/// The parts fit together: each token stands on a map that is there, its types are there and its owners are players of
/// the campaign, and each player has a set of exposed cells for each map, of the map's size.
#[derive(Drop)]
pub struct Scene {
    maps: MapTable,
    tokens: TokenTable,
    lights: LightTable,
    sights: SightTable,
    fog: FogBook,
    fight: Fight,
}

impl Model for Scene {
    ghost use Rattle.world.specs.Rules.{IsScene};
    ghost use Rattle.world.specs.Scene.{Scene};

    ghost Value = { Scene };

    ghost view = { λ s. record { maps = s.maps; tokens = s.tokens; lights = s.lights; sights = s.sights; fog = s.fog; fight = s.fight } };

    ghost invariant = { λ s. IsScene
        (record { maps = s.maps; tokens = s.tokens; lights = s.lights; sights = s.sights; fog = s.fog; fight = s.fight }) };
}

impl Scene {
    /// The maps, in byte order of their names.
    pub fn maps(&self) -> &MapTable
        ensures value { result.now ≡ self.now.maps }
        ensures fitting { IsScene self.now }
    {
        &self.maps
    }

    /// The tokens, in order of their ids.
    pub fn tokens(&self) -> &TokenTable
        ensures value { result.now ≡ self.now.tokens }
        ensures fitting { IsScene self.now }
    {
        &self.tokens
    }

    /// The light types.
    pub fn lights(&self) -> &LightTable
        ensures value { result.now ≡ self.now.lights }
        ensures fitting { IsScene self.now }
    {
        &self.lights
    }

    /// The sight types.
    pub fn sights(&self) -> &SightTable
        ensures value { result.now ≡ self.now.sights }
        ensures fitting { IsScene self.now }
    {
        &self.sights
    }

    /// What is exposed to each player.
    pub fn fog(&self) -> &FogBook
        ensures value { result.now ≡ self.now.fog }
        ensures fitting { IsScene self.now }
    {
        &self.fog
    }

    /// The list of the fight, whose turn it is, and the round.
    pub fn fight(&self) -> &Fight
        ensures value { result.now ≡ self.now.fight }
        ensures fitting { IsScene self.now }
    {
        &self.fight
    }

    /// A scene with no map, token and type, for so many players, at most 32, and with no fight.
    pub fn open(alloc: Global, players: u8) -> Result<Scene, Memory>
        requires { players ≤ 32 }
        ensures { IfOk result (λ scene. scene ≡ bare players) }
    {
        Ok(Scene {
            maps: MapTable::new(alloc),
            tokens: TokenTable::new(alloc),
            lights: LightTable::new(alloc),
            sights: SightTable::new(alloc),
            fog: FogBook::open(alloc, players)?,
            fight: Fight::new(alloc),
        })
    }

    /// An equal scene, or `Memory` for want of memory.
    pub fn copy(&self) -> Result<Scene, Memory>
        ensures { IfOk result (λ scene. scene ≡ self.now) }
    {
        Ok(Scene {
            maps: self.maps.copy()?,
            tokens: self.tokens.copy()?,
            lights: self.lights.copy()?,
            sights: self.sights.copy()?,
            fog: self.fog.copy()?,
            fight: self.fight.copy()?,
        })
    }

    /// Adds a map in mode day, which isn't shown, with all letters `.` and no walls. Nothing of it is exposed to any
    /// player. All else stays.
    ///
    /// The checks are made in the order of `MapFault`; after a fault the scene is as before.
    pub fn add_map(&mut self, name: Tag, size: Size) -> Result<(), MapFault>
        ensures value { OnOk result (self.new ≡ with_new_map name size self.old) }
        ensures sets { OnOk result (AddsMap self.old.fog self.new.fog name size) }
        ensures ok { OnOk result (map_fault self.old.maps name ≡ None) }
        ensures fault { IfErr result (IsMapFaultOf (map_fault self.old.maps name)) }
        ensures unchanged { OnErr result (self.new ≡ self.old) }
    {
        let maps = with_new_map(&self.maps, name, size)?;
        match self.fog.add_map(name, size) {
            Ok(()) => {
                self.maps = maps;
                Ok(())
            }
            Err(Memory) => Err(MapFault::Memory),
        }
    }

    /// Sets the mode of the map of that name, which is there. All else stays.
    pub fn set_mode(&mut self, map: Tag, mode: Mode)
        requires { has_map map self.old.maps ≡ true }
        ensures { self.new ≡ with_grid map (with_mode mode) self.old }
    {
        self.maps.set_mode(map, mode);
    }

    /// Shows the map of that name, which is there, to players, or hides it. All else stays.
    pub fn set_shown(&mut self, map: Tag, on: bool)
        requires { has_map map self.old.maps ≡ true }
        ensures { self.new ≡ with_grid map (map_shown_if on) self.old }
    {
        self.maps.set_shown(map, on);
    }

    /// Gives the map of that name, which is there, a trail, or takes it. All else stays.
    pub fn set_trail(&mut self, map: Tag, on: bool)
        requires { has_map map self.old.maps ≡ true }
        ensures { self.new ≡ with_grid map (trail_if on) self.old }
    {
        self.maps.set_trail(map, on);
    }

    /// Gives each cell of a rectangle the letter, `a` to `z` or `.`; the map is there, and the rectangle is on it. All
    /// else stays.
    pub fn set_ground(&mut self, map: Tag, rect: Rect, letter: u8)
        requires there { has_map map self.old.maps ≡ true }
        requires on { IfSome (map_of map self.old.maps) (λ m. IsOn m.walls.extent rect) }
        requires letter { IsTrue (is_letter letter) }
        ensures { self.new ≡ with_grid map (with_letters rect letter) self.old }
    {
        self.maps.set_ground(map, rect, letter);
    }

    /// Adds a wall of that kind between two points to the map of that name, which is there. All else stays.
    ///
    /// The checks are made in the order of `WallFault`; after a fault the scene is as before.
    pub fn add_wall(
        &mut self,
        map: Tag,
        kind: WallKind,
        a: Point,
        b: Point,
    ) -> Result<(), WallFault>
        requires { has_map map self.old.maps ≡ true }
        ensures added { OnOk result (self.new ≡ with_grid map (with_wall_of kind a b) self.old) }
        ensures ok { IfSome (map_of map self.old.maps) (λ m. OnOk result (wall_fault m.walls kind a b ≡ None)) }
        ensures fault { IfSome (map_of map self.old.maps) (λ m. IfErr result (IsWallFaultOf (wall_fault m.walls kind a b))) }
        ensures unchanged { OnErr result (self.new ≡ self.old) }
    {
        self.maps.add_wall(map, kind, a, b)
    }

    /// Takes the wall of that kind between two points from the map of that name, which is there. All else stays.
    ///
    /// Refused exactly where the map has no such wall; the scene is then as before. No memory is taken.
    pub fn cut_wall(
        &mut self,
        map: Tag,
        kind: WallKind,
        a: Point,
        b: Point,
    ) -> Result<(), NoSuchWall>
        requires { has_map map self.old.maps ≡ true }
        ensures missing { IfSome (map_of map self.old.maps) (λ m. IsErr result
            ↔ (has_wall (wall_between a b) (walls_of m.walls kind) ≡ false)) }
        ensures cut { OnOk result (self.new ≡ with_grid map (without_wall_of kind a b) self.old) }
        ensures unchanged { OnErr result (self.new ≡ self.old) }
    {
        self.maps.cut_wall(map, kind, a, b)
    }

    /// Adds the light type with this name, or changes its radius. All else stays.
    ///
    /// The checks are made in the order of `LightFault`; after a fault the scene is as before.
    pub fn set_light_type(&mut self, name: Tag, radius: i32) -> Result<(), LightFault>
        ensures set { OnOk result (self.new ≡ record self.old { lights = with_type name radius self.old.lights }) }
        ensures ok { OnOk result (light_fault self.old.lights name radius ≡ None) }
        ensures fault { IfErr result (IsLightFaultOf (light_fault self.old.lights name radius)) }
        ensures unchanged { OnErr result (self.new ≡ self.old) }
    {
        self.lights.set(name, radius)
    }

    /// Adds the sight type with this name, or changes its sight. All else stays.
    ///
    /// The checks are made in the order of `SightFault`; after a fault the scene is as before.
    pub fn set_sight_type(
        &mut self,
        name: Tag,
        range: u32,
        night: u32,
        mult: u32,
    ) -> Result<(), SightFault>
        ensures set { OnOk result (self.new ≡ record self.old {
          sights = with_type name
              (record { range = range; night = night; mult = mult }) self.old.sights;
        }) }
        ensures ok { OnOk result (sight_fault self.old.sights name range night mult ≡ None) }
        ensures fault { IfErr result (IsSightFaultOf (sight_fault self.old.sights name range night mult)) }
        ensures unchanged { OnErr result (self.new ≡ self.old) }
    {
        self.sights.set(name, range, night, mult)
    }

    /// Puts a token in its place. Its id isn't there, and it belongs to the scene: its square is on a map that is there,
    /// its types are there, and players own it.
    ///
    /// The token comes back for want of memory, and the scene is then as before.
    pub fn make(&mut self, token: Token) -> Result<(), Token>
        requires absent { has_token token.id self.old.tokens ≡ false }
        requires fitting { IsTrue (belongs self.old token) }
        ensures ok { OnOk result (self.new ≡ record self.old { tokens = put token self.old.tokens }) }
        ensures back { IfErr result (λ t. t ≡ token) }
        ensures unchanged { OnErr result (self.new ≡ self.old) }
    {
        self.tokens.make(token)
    }

    /// Takes out the token of that id, with its properties and its entry in the fight; `None` exactly where the token
    /// isn't there. All else stays.
    ///
    /// If the token has the turn, the turn first passes on. No memory is taken.
    pub fn remove(&mut self, id: TokenId) -> Option<Token>
        ensures value { result ≡ token_of id self.old.tokens }
        ensures rest { self.new ≡ removed id self.old }
    {
        let own = &id;
        self.fight.drop_entry(*own);
        self.tokens.remove(*own)
    }

    /// Puts the token of that id, which is there, on a cell of a map that is there; its square is then on the map. All
    /// else stays.
    pub fn place(&mut self, id: TokenId, map: Tag, cell: Cell)
        requires there { has_token id self.old.tokens ≡ true }
        requires fitting { IfSome (token_of id self.old.tokens) (λ t. IsTrue (fits_on (size_of map self.old.maps) cell t.size)) }
        ensures { self.new ≡ with_token id (placed map cell) self.old }
    {
        // The table tells with its length that no other token has the id.
        let _count = self.tokens.len();
        self.tokens.place(id, map, cell);
    }

    /// Puts the token of that id, which is there, on a layer. All else stays.
    pub fn set_layer(&mut self, id: TokenId, layer: Layer)
        requires { has_token id self.old.tokens ≡ true }
        ensures { self.new ≡ with_token id (on_layer layer) self.old }
    {
        self.tokens.set_layer(id, layer);
    }

    /// Sets the visible flag of the token of that id, which is there. All else stays.
    pub fn set_visible(&mut self, id: TokenId, on: bool)
        requires { has_token id self.old.tokens ≡ true }
        ensures { self.new ≡ with_token id (shown_if on) self.old }
    {
        self.tokens.set_visible(id, on);
    }

    /// Makes the player an owner of the token of that id, which is there, or makes it none. All else stays.
    pub fn set_owner(&mut self, id: TokenId, seat: SeatNo, on: bool)
        requires there { has_token id self.old.tokens ≡ true }
        requires player { IsTrue (is_player self.old.fog.players seat) }
        ensures { self.new ≡ with_token id (owned_by seat on) self.old }
    {
        self.tokens.set_owner(id, seat, on);
    }

    /// Sets the sight type of the token of that id, which is there, to one that is there, or to none. All else stays.
    pub fn set_sight(&mut self, id: TokenId, sight: Option<Tag>)
        requires there { has_token id self.old.tokens ≡ true }
        requires known { IsTrue (is_known self.old.sights sight) }
        ensures { self.new ≡ with_token id (with_sight sight) self.old }
    {
        self.tokens.set_sight(id, sight);
    }

    /// Sets the light type of the token of that id, which is there, to one that is there, or to none. All else stays.
    pub fn set_light(&mut self, id: TokenId, light: Option<Tag>)
        requires there { has_token id self.old.tokens ≡ true }
        requires known { IsTrue (is_known self.old.lights light) }
        ensures { self.new ≡ with_token id (with_light light) self.old }
    {
        self.tokens.set_light(id, light);
    }

    /// Sets a property of the token of that id, which is there, to a value of at most 200 bytes. All else stays.
    ///
    /// `PropertyLimit` exactly where the name is new in its class and the class has 64 names. After a fault the scene
    /// is as before.
    pub fn set_prop(
        &mut self,
        id: TokenId,
        class: PropClass,
        name: Tag,
        value: Text,
    ) -> Result<(), PropFault>
        requires there { has_token id self.old.tokens ≡ true }
        requires short { length value ≤ value_limit }
        ensures ok { OnOk result (self.new ≡ with_token id (with_prop class name value) self.old) }
        ensures limit { IfSome (token_of id self.old.tokens)
            (λ t. (result ≡ Err PropertyLimit) ↔ (is_full_for name (props_of class t) ≡ true)) }
        ensures unchanged { OnErr result (self.new ≡ self.old) }
    {
        self.tokens.set_prop(id, class, name, value)
    }

    /// Gives the token of that id, which is there, an entry with that value in the fight, or changes its entry's value.
    /// All else stays.
    ///
    /// After `Memory` the scene is as before.
    pub fn fight_set(&mut self, id: TokenId, value: i16) -> Result<(), Memory>
        requires { has_token id self.old.tokens ≡ true }
        ensures ok { OnOk result (self.new ≡ record self.old { fight = with_entry id value self.old.fight }) }
        ensures unchanged { OnErr result (self.new ≡ self.old) }
    {
        self.fight.set(id, value)
    }

    /// Takes the entry of the token of that id, which is there, out of the fight; false exactly where it has none. All
    /// else stays.
    ///
    /// If the token has the turn, the turn first passes on. No memory is taken.
    pub fn fight_drop(&mut self, id: TokenId) -> bool
        requires { has_token id self.old.tokens ≡ true }
        ensures there { result ≡ is_listed id self.old.fight.list }
        ensures value { self.new ≡ record self.old { fight = without_entry id self.old.fight } }
    {
        self.fight.drop_entry(id)
    }

    /// Passes the turn on; false exactly where the fight's list is empty. All else stays. No memory is taken.
    pub fn fight_next(&mut self) -> bool
        ensures there { (result ≡ false) ↔ (length self.old.fight.list ≡ 0) }
        ensures value { self.new ≡ record self.old { fight = passed self.old.fight } }
    {
        self.fight.next()
    }

    /// Ends the fight: no entry, no turn, round 0. All else stays. No memory is taken.
    pub fn fight_clear(&mut self)
        ensures { self.new ≡ record self.old { fight = no_fight } }
    {
        self.fight.clear();
    }

    /// Exposes the cells of a map, which is there, in the rectangle to a player. All else stays.
    pub fn expose(&mut self, seat: SeatNo, map: Tag, rect: Rect)
        requires there { has_map map self.old.maps ≡ true }
        requires player { IsTrue (is_player self.old.fog.players seat) }
        ensures value { self.new ≡ record self.old { fog = with_change self.old.fog seat map (λ cells. with_rect cells rect true) } }
        ensures sets { ChangesOnly self.old.fog self.new.fog seat map (λ cells. with_rect cells rect true) }
    {
        self.fog.expose(seat, map, rect);
    }

    /// Hides the cells of a map, which is there, in the rectangle from a player. All else stays.
    pub fn hide(&mut self, seat: SeatNo, map: Tag, rect: Rect)
        requires there { has_map map self.old.maps ≡ true }
        requires player { IsTrue (is_player self.old.fog.players seat) }
        ensures value { self.new ≡ record self.old { fog = with_change self.old.fog seat map (λ cells. with_rect cells rect false) } }
        ensures sets { ChangesOnly self.old.fog self.new.fog seat map (λ cells. with_rect cells rect false) }
    {
        self.fog.hide(seat, map, rect);
    }

    /// Exposes what is seen: to each set of the fog, in their order, the cells at its place in `seen`, where there are any,
    /// which are of its size. All else stays.
    pub fn join_each(&mut self, seen: &[Option<CellSet>])
        requires { AllZip HaveOneSize self.old.fog.sets seen.now }
        ensures { self.new ≡ record self.old { fog = record self.old.fog { sets = with_each_seen self.old.fog.sets seen.now } } }
    {
        self.fog.join_each(seen);
    }

    /// Exposes the cells of a map, which is there, that a player sees; `seen` is of the map's size. All else stays.
    pub fn after_sight(&mut self, seat: SeatNo, map: Tag, seen: &CellSet)
        requires there { size_of map self.old.maps ≡ Some seen.now.extent }
        requires player { IsTrue (is_player self.old.fog.players seat) }
        ensures value { self.new ≡ record self.old { fog = with_change self.old.fog seat map (λ cells. joined cells seen.now) } }
        ensures sets { ChangesOnly self.old.fog self.new.fog seat map (λ cells. joined cells seen.now) }
    {
        self.fog.after_sight(seat, map, seen);
    }
}

/// The maps with one more, in a table of its own.
fn with_new_map(maps: &MapTable, name: Tag, size: Size) -> Result<MapTable, MapFault>
    ensures value { IfOk result (λ table. table ≡ with_map (new_map name size) maps.now) }
    ensures ok { OnOk result (map_fault maps.now name ≡ None) }
    ensures fault { IfErr result (IsMapFaultOf (map_fault maps.now name)) }
{
    if let Some(fault) = maps.broken_check(name) {
        return Err(fault);
    }
    let Ok(mut table) = maps.copy() else {
        return Err(MapFault::Memory);
    };
    table.add(name, size)?;
    Ok(table)
}
