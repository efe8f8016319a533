//! All of a campaign.
ghost use Rattle.std.specs.Prelude.{◌≡◌, ◌<◌, ◌≤◌, ◌+◌, ◌↔◌, ◌++◌, ◌∷◌, [], IsTrue, true, false, length, slice_get, is_some, Err, None, Some, IfOk, IfErr, IfSome, OnOk, OnErr, IsErr};
ghost use Rattle.std.specs.Borrow.{sem};
ghost use Rattle.std.specs.Result.{result_err};
ghost use Rattle.fog_book.specs.Exposures.{AddsMap, ChangesOnly, joined as cells_joined, with_change};
ghost use Rattle.fog_book.specs.Rects.{with_rect};
ghost use Rattle.initiative.specs.Fights.{is_listed, no_fight, passed, with_entry, without_entry};
ghost use Rattle.lights.specs.Lights.{IsFaultOf as IsLightFaultOf, light_fault};
ghost use Rattle.names.specs.Letters.{is_letter};
ghost use Rattle.maps.specs.Letters.{IsOn};
ghost use Rattle.maps.specs.Maps.{has_map, map_of, shown_if as map_shown_if, trail_if, with_letters, with_mode, with_wall_of, without_wall_of};
ghost use Rattle.maps.specs.MapFaults.{IsMapFaultOf, map_fault};
ghost use Rattle.seats.specs.Book.{counted, freed, join_refusal, joined, left, macro_fault, macro_of, stream_of, tag_used, tags_spent, with_macro, with_tag, without_macro, IsBookFaultOf};
ghost use Rattle.seats.specs.declared.tag_fault.TagFault.TheVariants.{TagUsed, TagsSpent};
ghost use Rattle.sight_types.specs.Sights.{IsFaultOf as IsSightFaultOf, sight_fault};
ghost use Rattle.tokens.specs.Properties.{is_full_for, value_limit};
ghost use Rattle.tokens.specs.Tokens.{has_token, on_layer, owned_by, placed, props_of, put, shown_if, token_of, with_light, with_prop, with_sight};
ghost use Rattle.tokens.specs.declared.props.PropFault.TheVariants.{PropertyLimit};
ghost use Rattle.topology.specs.Order.{wall_between};
ghost use Rattle.topology.specs.WallFaults.{IsFaultOf as IsWallFaultOf, wall_fault};
ghost use Rattle.topology.specs.WallLists.{has_wall, walls_of};
ghost use Rattle.type_table.specs.Types.{with_type};
ghost use Rattle.world.specs.Lending.{LendsStream};
ghost use Rattle.world.specs.Rules.{IsScene, belongs, fits_on, is_known, is_player, size_of};
ghost use Rattle.world.specs.Scene.{removed, with_grid, with_new_map, with_token};
ghost use Rattle.world.specs.World.{IsOpening, IsWorld, is_used, opened, with_book};

use crate::scene::Scene;
use cells::{Cell, CellSet, Rect, Size};
use fog_book::FogBook;
use initiative::Fight;
use lattice::Point;
use lights::{LightFault, LightTable};
use maps::{MapFault, MapTable};
use names::{Layer, Memory, Mode, PropClass, SeatNo, Tag, Text, TokenId, WallKind};
use seat_random::SeatStream;
use seats::{BookFault, JoinRefusal, SeatBook, TagFault};
use sight_types::{SightFault, SightTable};
use std::alloc::Global;
use std::marker::Model;
use tokens::{PropFault, Token, TokenTable};
use topology::{NoSuchWall, WallFault};

/// A campaign's scene and its seats' books: 1 to 33 seats, the game master's and those of the scene's players, numbered
/// by their places. The maker of each token is a seat that used its tag.
#[derive(Drop)]
pub struct World {
    scene: Scene,
    seats: Vec<SeatBook>,
}

impl Model for World {
    ghost use Rattle.world.specs.World.{World, IsWorld};

    ghost Value = { World };

    ghost view = { λ w. record { scene = w.scene; books = w.seats.items } };

    ghost invariant = { λ w. IsWorld (record { scene = w.scene; books = w.seats.items }) };
}

impl World {
    /// A world with these books and nothing else. There are 1 to 33 books, each at the place that is its seat's number,
    /// and all are Free. After `Memory` the books are dropped.
    pub fn open(alloc: Global, seats: Vec<SeatBook>) -> Result<World, Memory>
        requires { IsOpening seats.items }
        ensures { IfOk result (λ world. world ≡ opened seats.items) }
    {
        let players = (seats.len() - 1) as u8;
        let scene = Scene::open(alloc, players)?;
        Ok(World { scene, seats })
    }

    /// An equal world, or `Memory` for want of memory.
    pub fn copy(&self) -> Result<World, Memory>
        ensures { IfOk result (λ world. world ≡ self.now) }
    {
        let seats = copied(&self.seats)?;
        let scene = self.scene.copy()?;
        Ok(World { scene, seats })
    }

    /// A world of a scene and its seats' books.
    pub fn from_parts(scene: Scene, seats: Vec<SeatBook>) -> World
        requires { IsWorld (record { scene = scene; books = seats.items }) }
        ensures { result ≡ record { scene = scene; books = seats.items } }
    {
        World { scene, seats }
    }

    /// The scene and the seats' books.
    pub fn into_parts(self) -> (Scene, Vec<SeatBook>)
        ensures scene { result.0 ≡ self.scene }
        ensures books { result.1.items ≡ self.books }
        ensures fitting { IsWorld self }
    {
        (self.scene, self.seats)
    }

    /// The scene: maps, tokens, types, what is exposed, and the fight.
    pub fn scene(&self) -> &Scene
        ensures value { result.now ≡ self.now.scene }
        ensures fitting { IsWorld self.now }
    {
        &self.scene
    }

    /// The maps, in byte order of their names.
    pub fn maps(&self) -> &MapTable
        ensures value { result.now ≡ self.now.scene.maps }
        ensures fitting { IsScene self.now.scene }
    {
        self.scene.maps()
    }

    /// The tokens, in order of their ids.
    pub fn tokens(&self) -> &TokenTable
        ensures value { result.now ≡ self.now.scene.tokens }
        ensures fitting { IsScene self.now.scene }
    {
        self.scene.tokens()
    }

    /// The light types.
    pub fn lights(&self) -> &LightTable
        ensures value { result.now ≡ self.now.scene.lights }
        ensures fitting { IsScene self.now.scene }
    {
        self.scene.lights()
    }

    /// The sight types.
    pub fn sights(&self) -> &SightTable
        ensures value { result.now ≡ self.now.scene.sights }
        ensures fitting { IsScene self.now.scene }
    {
        self.scene.sights()
    }

    /// What is exposed to each player.
    pub fn fog(&self) -> &FogBook
        ensures value { result.now ≡ self.now.scene.fog }
        ensures fitting { IsScene self.now.scene }
    {
        self.scene.fog()
    }

    /// The list of the fight, whose turn it is, and the round.
    pub fn fight(&self) -> &Fight
        ensures value { result.now ≡ self.now.scene.fight }
        ensures fitting { IsScene self.now.scene }
    {
        self.scene.fight()
    }

    /// How many seats there are, 1 to 33.
    pub fn seat_count(&self) -> u8
        ensures value { result ≡ length self.now.books }
        ensures fitting { IsWorld self.now }
    {
        self.seats.len() as u8
    }

    /// The seats' books, the game master's first.
    pub fn seats(&self) -> &[SeatBook]
        ensures value { result.now ≡ self.now.books }
        ensures fitting { IsWorld self.now }
    {
        &self.seats
    }

    /// The book of a seat that is in the world.
    pub fn seat(&self, seat: SeatNo) -> &SeatBook
        requires { seat < length self.now.books }
        ensures value { slice_get self.now.books seat ≡ Some result.now }
        ensures number { result.now.seat ≡ seat }
    {
        &self.seats[seat.number() as usize]
    }

    /// Adds a map in mode day, which isn't shown, with all letters `.` and no walls. Nothing of it is exposed to any
    /// player. All else stays.
    ///
    /// The checks are made in the order of `MapFault`; after a fault the world is as before.
    pub fn add_map(&mut self, name: Tag, size: Size) -> Result<(), MapFault>
        ensures value { OnOk result (self.new ≡ record self.old { scene = with_new_map name size self.old.scene }) }
        ensures sets { OnOk result (AddsMap self.old.scene.fog self.new.scene.fog name size) }
        ensures ok { OnOk result (map_fault self.old.scene.maps name ≡ None) }
        ensures fault { IfErr result (IsMapFaultOf (map_fault self.old.scene.maps name)) }
        ensures unchanged { OnErr result (self.new ≡ self.old) }
    {
        self.scene.add_map(name, size)
    }

    /// Sets the mode of the map of that name, which is there. All else stays.
    pub fn set_mode(&mut self, map: Tag, mode: Mode)
        requires { has_map map self.old.scene.maps ≡ true }
        ensures { self.new ≡ record self.old { scene = with_grid map (with_mode mode) self.old.scene } }
    {
        self.scene.set_mode(map, mode);
    }

    /// Shows the map of that name, which is there, to players, or hides it. All else stays.
    pub fn set_shown(&mut self, map: Tag, on: bool)
        requires { has_map map self.old.scene.maps ≡ true }
        ensures { self.new ≡ record self.old { scene = with_grid map (map_shown_if on) self.old.scene } }
    {
        self.scene.set_shown(map, on);
    }

    /// Gives the map of that name, which is there, a trail, or takes it. All else stays.
    pub fn set_trail(&mut self, map: Tag, on: bool)
        requires { has_map map self.old.scene.maps ≡ true }
        ensures { self.new ≡ record self.old { scene = with_grid map (trail_if on) self.old.scene } }
    {
        self.scene.set_trail(map, on);
    }

    /// Gives each cell of a rectangle the letter, `a` to `z` or `.`; the map is there, and the rectangle is on it. All
    /// else stays.
    pub fn set_ground(&mut self, map: Tag, rect: Rect, letter: u8)
        requires there { has_map map self.old.scene.maps ≡ true }
        requires on { IfSome (map_of map self.old.scene.maps) (λ m. IsOn m.walls.extent rect) }
        requires letter { IsTrue (is_letter letter) }
        ensures { self.new ≡ record self.old { scene = with_grid map (with_letters rect letter) self.old.scene } }
    {
        self.scene.set_ground(map, rect, letter);
    }

    /// Adds a wall of that kind between two points to the map of that name, which is there. All else stays.
    ///
    /// The checks are made in the order of `WallFault`; after a fault the world is as before.
    pub fn add_wall(
        &mut self,
        map: Tag,
        kind: WallKind,
        a: Point,
        b: Point,
    ) -> Result<(), WallFault>
        requires { has_map map self.old.scene.maps ≡ true }
        ensures added { OnOk result (self.new ≡ record self.old { scene = with_grid map (with_wall_of kind a b) self.old.scene }) }
        ensures ok { IfSome (map_of map self.old.scene.maps) (λ m. OnOk result (wall_fault m.walls kind a b ≡ None)) }
        ensures fault { IfSome (map_of map self.old.scene.maps) (λ m. IfErr result (IsWallFaultOf (wall_fault m.walls kind a b))) }
        ensures unchanged { OnErr result (self.new ≡ self.old) }
    {
        self.scene.add_wall(map, kind, a, b)
    }

    /// Takes the wall of that kind between two points from the map of that name, which is there. All else stays.
    ///
    /// Refused exactly where the map has no such wall; the world is then as before. No memory is taken.
    pub fn cut_wall(
        &mut self,
        map: Tag,
        kind: WallKind,
        a: Point,
        b: Point,
    ) -> Result<(), NoSuchWall>
        requires { has_map map self.old.scene.maps ≡ true }
        ensures missing { IfSome (map_of map self.old.scene.maps)
            (λ m. IsErr result ↔ (has_wall (wall_between a b) (walls_of m.walls kind) ≡ false)) }
        ensures cut { OnOk result (self.new ≡ record self.old { scene = with_grid map (without_wall_of kind a b) self.old.scene }) }
        ensures unchanged { OnErr result (self.new ≡ self.old) }
    {
        self.scene.cut_wall(map, kind, a, b)
    }

    /// Adds the light type with this name, or changes its radius. All else stays.
    ///
    /// The checks are made in the order of `LightFault`; after a fault the world is as before.
    pub fn set_light_type(&mut self, name: Tag, radius: i32) -> Result<(), LightFault>
        ensures set { OnOk result (self.new
            ≡ record self.old { scene = record self.old.scene { lights = with_type name radius self.old.scene.lights } }) }
        ensures ok { OnOk result (light_fault self.old.scene.lights name radius ≡ None) }
        ensures fault { IfErr result (IsLightFaultOf (light_fault self.old.scene.lights name radius)) }
        ensures unchanged { OnErr result (self.new ≡ self.old) }
    {
        self.scene.set_light_type(name, radius)
    }

    /// Adds the sight type with this name, or changes its sight. All else stays.
    ///
    /// The checks are made in the order of `SightFault`; after a fault the world is as before.
    pub fn set_sight_type(
        &mut self,
        name: Tag,
        range: u32,
        night: u32,
        mult: u32,
    ) -> Result<(), SightFault>
        ensures set { OnOk result (self.new ≡ record self.old {
          scene = record self.old.scene {
            sights = with_type name
                (record { range = range; night = night; mult = mult }) self.old.scene.sights;
          };
        }) }
        ensures ok { OnOk result (sight_fault self.old.scene.sights name range night mult ≡ None) }
        ensures fault { IfErr result (IsSightFaultOf (sight_fault self.old.scene.sights name range night mult)) }
        ensures unchanged { OnErr result (self.new ≡ self.old) }
    {
        self.scene.set_sight_type(name, range, night, mult)
    }

    /// Puts a token in its place. Its id isn't there, its maker used its tag, and it belongs to the scene: its square is
    /// on a map that is there, its types are there, and players own it.
    ///
    /// The token comes back for want of memory, and the world is then as before.
    pub fn make(&mut self, token: Token) -> Result<(), Token>
        requires absent { has_token token.id self.old.scene.tokens ≡ false }
        requires used { is_used self.old.books token.id ≡ true }
        requires fitting { IsTrue (belongs self.old.scene token) }
        ensures ok { OnOk result (self.new
            ≡ record self.old { scene = record self.old.scene { tokens = put token self.old.scene.tokens } }) }
        ensures back { IfErr result (λ t. t ≡ token) }
        ensures unchanged { OnErr result (self.new ≡ self.old) }
    {
        self.scene.make(token)
    }

    /// Takes out the token of that id, with its properties and its entry in the fight; `None` exactly where the token
    /// isn't there. All else stays.
    ///
    /// If the token has the turn, the turn first passes on. No memory is taken.
    pub fn remove(&mut self, id: TokenId) -> Option<Token>
        ensures value { result ≡ token_of id self.old.scene.tokens }
        ensures rest { self.new ≡ record self.old { scene = removed id self.old.scene } }
    {
        self.scene.remove(id)
    }

    /// Puts the token of that id, which is there, on a cell of a map that is there; its square is then on the map. All
    /// else stays.
    pub fn place(&mut self, id: TokenId, map: Tag, cell: Cell)
        requires there { has_token id self.old.scene.tokens ≡ true }
        requires fitting { IfSome (token_of id self.old.scene.tokens)
            (λ t. IsTrue (fits_on (size_of map self.old.scene.maps) cell t.size)) }
        ensures { self.new ≡ record self.old { scene = with_token id (placed map cell) self.old.scene } }
    {
        self.scene.place(id, map, cell);
    }

    /// Puts the token of that id, which is there, on a layer. All else stays.
    pub fn set_layer(&mut self, id: TokenId, layer: Layer)
        requires { has_token id self.old.scene.tokens ≡ true }
        ensures { self.new ≡ record self.old { scene = with_token id (on_layer layer) self.old.scene } }
    {
        self.scene.set_layer(id, layer);
    }

    /// Sets the visible flag of the token of that id, which is there. All else stays.
    pub fn set_visible(&mut self, id: TokenId, on: bool)
        requires { has_token id self.old.scene.tokens ≡ true }
        ensures { self.new ≡ record self.old { scene = with_token id (shown_if on) self.old.scene } }
    {
        self.scene.set_visible(id, on);
    }

    /// Makes the player an owner of the token of that id, which is there, or makes it none. All else stays.
    pub fn set_owner(&mut self, id: TokenId, seat: SeatNo, on: bool)
        requires there { has_token id self.old.scene.tokens ≡ true }
        requires player { IsTrue (is_player self.old.scene.fog.players seat) }
        ensures { self.new ≡ record self.old { scene = with_token id (owned_by seat on) self.old.scene } }
    {
        self.scene.set_owner(id, seat, on);
    }

    /// Sets the sight type of the token of that id, which is there, to one that is there, or to none. All else stays.
    pub fn set_sight(&mut self, id: TokenId, sight: Option<Tag>)
        requires there { has_token id self.old.scene.tokens ≡ true }
        requires known { IsTrue (is_known self.old.scene.sights sight) }
        ensures { self.new ≡ record self.old { scene = with_token id (with_sight sight) self.old.scene } }
    {
        self.scene.set_sight(id, sight);
    }

    /// Sets the light type of the token of that id, which is there, to one that is there, or to none. All else stays.
    pub fn set_light(&mut self, id: TokenId, light: Option<Tag>)
        requires there { has_token id self.old.scene.tokens ≡ true }
        requires known { IsTrue (is_known self.old.scene.lights light) }
        ensures { self.new ≡ record self.old { scene = with_token id (with_light light) self.old.scene } }
    {
        self.scene.set_light(id, light);
    }

    /// Sets a property of the token of that id, which is there, to a value of at most 200 bytes. All else stays.
    ///
    /// `PropertyLimit` exactly where the name is new in its class and the class has 64 names. After a fault the world
    /// is as before.
    pub fn set_prop(
        &mut self,
        id: TokenId,
        class: PropClass,
        name: Tag,
        value: Text,
    ) -> Result<(), PropFault>
        requires there { has_token id self.old.scene.tokens ≡ true }
        requires short { length value ≤ value_limit }
        ensures ok { OnOk result (self.new ≡ record self.old { scene = with_token id (with_prop class name value) self.old.scene }) }
        ensures limit { IfSome (token_of id self.old.scene.tokens)
            (λ t. (result ≡ Err PropertyLimit) ↔ (is_full_for name (props_of class t) ≡ true)) }
        ensures unchanged { OnErr result (self.new ≡ self.old) }
    {
        self.scene.set_prop(id, class, name, value)
    }

    /// Gives the token of that id, which is there, an entry with that value in the fight, or changes its entry's value.
    /// All else stays.
    ///
    /// After `Memory` the world is as before.
    pub fn fight_set(&mut self, id: TokenId, value: i16) -> Result<(), Memory>
        requires { has_token id self.old.scene.tokens ≡ true }
        ensures ok { OnOk result (self.new
            ≡ record self.old { scene = record self.old.scene { fight = with_entry id value self.old.scene.fight } }) }
        ensures unchanged { OnErr result (self.new ≡ self.old) }
    {
        self.scene.fight_set(id, value)
    }

    /// Takes the entry of the token of that id, which is there, out of the fight; false exactly where it has none. All
    /// else stays.
    ///
    /// If the token has the turn, the turn first passes on. No memory is taken.
    pub fn fight_drop(&mut self, id: TokenId) -> bool
        requires { has_token id self.old.scene.tokens ≡ true }
        ensures there { result ≡ is_listed id self.old.scene.fight.list }
        ensures value { self.new ≡ record self.old { scene = record self.old.scene { fight = without_entry id self.old.scene.fight } } }
    {
        self.scene.fight_drop(id)
    }

    /// Passes the turn on; false exactly where the fight's list is empty. All else stays. No memory is taken.
    pub fn fight_next(&mut self) -> bool
        ensures there { (result ≡ false) ↔ (length self.old.scene.fight.list ≡ 0) }
        ensures value { self.new ≡ record self.old { scene = record self.old.scene { fight = passed self.old.scene.fight } } }
    {
        self.scene.fight_next()
    }

    /// Ends the fight: no entry, no turn, round 0. All else stays. No memory is taken.
    pub fn fight_clear(&mut self)
        ensures { self.new ≡ record self.old { scene = record self.old.scene { fight = no_fight } } }
    {
        self.scene.fight_clear();
    }

    /// Exposes the cells of a map, which is there, in the rectangle to a player. All else stays.
    pub fn expose(&mut self, seat: SeatNo, map: Tag, rect: Rect)
        requires there { has_map map self.old.scene.maps ≡ true }
        requires player { IsTrue (is_player self.old.scene.fog.players seat) }
        ensures value { self.new ≡ record self.old {
          scene = record self.old.scene {
            fog = with_change self.old.scene.fog seat map
                (λ cells. with_rect cells rect true);
          };
        } }
        ensures sets { ChangesOnly self.old.scene.fog self.new.scene.fog seat map (λ cells. with_rect cells rect true) }
    {
        self.scene.expose(seat, map, rect);
    }

    /// Hides the cells of a map, which is there, in the rectangle from a player. All else stays.
    pub fn hide(&mut self, seat: SeatNo, map: Tag, rect: Rect)
        requires there { has_map map self.old.scene.maps ≡ true }
        requires player { IsTrue (is_player self.old.scene.fog.players seat) }
        ensures value { self.new ≡ record self.old {
          scene = record self.old.scene {
            fog = with_change self.old.scene.fog seat map
                (λ cells. with_rect cells rect false);
          };
        } }
        ensures sets { ChangesOnly self.old.scene.fog self.new.scene.fog seat map (λ cells. with_rect cells rect false) }
    {
        self.scene.hide(seat, map, rect);
    }

    /// Exposes the cells of a map, which is there, that a player sees; `seen` is of the map's size. All else stays.
    pub fn after_sight(&mut self, seat: SeatNo, map: Tag, seen: &CellSet)
        requires there { size_of map self.old.scene.maps ≡ Some seen.now.extent }
        requires player { IsTrue (is_player self.old.scene.fog.players seat) }
        ensures value { self.new ≡ record self.old {
          scene = record self.old.scene {
            fog = with_change self.old.scene.fog seat map
                (λ cells. cells_joined cells seen.now);
          };
        } }
        ensures sets { ChangesOnly self.old.scene.fog self.new.scene.fog seat map (λ cells. cells_joined cells seen.now) }
    {
        self.scene.after_sight(seat, map, seen);
    }

    /// A session sits down at a seat, which is in the world, by these passes; this counts as a line of the seat. All else
    /// stays.
    ///
    /// The checks are made in the order of `JoinRefusal`; after a refusal the world is as before. No memory is taken.
    pub fn join(
        &mut self,
        seat: SeatNo,
        key: &[u8],
        reader: u64,
        writer: u64,
    ) -> Result<(), JoinRefusal>
        requires { seat < length self.old.books }
        ensures cause { IfSome (slice_get self.old.books seat) (λ book. result_err result ≡ join_refusal book key.now) }
        ensures ok { OnOk result (self.new ≡ with_book seat (λ book. joined book reader writer) self.old) }
        ensures refused { OnErr result (self.new ≡ self.old) }
    {
        self.seats[seat.number() as usize].join(key, reader, writer)
    }

    /// A Joined seat, which is in the world, becomes Closing; one in another state stays as it is. All else stays.
    pub fn leave(&mut self, seat: SeatNo)
        requires { seat < length self.old.books }
        ensures { self.new ≡ with_book seat left self.old }
    {
        self.seats[seat.number() as usize].leave();
    }

    /// A seat, which is in the world, becomes Free. All else stays.
    pub fn free(&mut self, seat: SeatNo)
        requires { seat < length self.old.books }
        ensures { self.new ≡ with_book seat freed self.old }
    {
        self.seats[seat.number() as usize].free();
    }

    /// One more line of a seat, which is in the world and has lines left. The last makes it Closing, where it is Joined.
    /// All else stays.
    pub fn count_line(&mut self, seat: SeatNo)
        requires there { seat < length self.old.books }
        requires lines_left { IfSome (slice_get self.old.books seat) (λ book. book.lines < 16384) }
        ensures { self.new ≡ with_book seat counted self.old }
    {
        self.seats[seat.number() as usize].count_line();
    }

    /// The stream of the dice of a seat, which is in the world, to be drawn from. All else stays.
    pub fn stream(&mut self, seat: SeatNo) -> &mut SeatStream
        requires { seat < length self.old.books }
        ensures* lent { sem 𝓛 (LendsStream self.entry seat result) }
        ensures value { IfSome (slice_get self.old.books seat) (λ book. result.now ≡ stream_of book) }
    {
        let book = &mut self.seats[seat.number() as usize];
        book.stream()
    }

    /// A seat, which is in the world, uses the tag. All else stays.
    ///
    /// `TagUsed` exactly where the seat used the tag already, else `TagsSpent` exactly where it has used all that it may.
    /// After a fault the world is as before.
    pub fn use_tag(&mut self, seat: SeatNo, tag: Tag) -> Result<(), TagFault>
        requires { seat < length self.old.books }
        ensures tag_used { IfSome (slice_get self.old.books seat) (λ book. (result ≡ Err TagUsed) ↔ (tag_used book.tags tag ≡ true)) }
        ensures tags_spent { IfSome (slice_get self.old.books seat)
            (λ book. (result ≡ Err TagsSpent) ↔ ((tag_used book.tags tag ≡ false) × (tags_spent book.seat book.tags ≡ true))) }
        ensures ok { OnOk result (self.new ≡ with_book seat (λ book. with_tag book tag) self.old) }
        ensures refused { OnErr result (self.new ≡ self.old) }
    {
        self.seats[seat.number() as usize].use_tag(tag)
    }

    /// Sets the macro of that name of a seat, which is in the world. All else stays.
    ///
    /// `MacroLimit` exactly where the name is new and the seat has 32 macros. After a fault the world is as before.
    pub fn set_macro(&mut self, seat: SeatNo, name: Tag, text: Text) -> Result<(), BookFault>
        requires { seat < length self.old.books }
        ensures ok { OnOk result (self.new ≡ with_book seat (with_macro name text) self.old) }
        ensures room { IfSome (slice_get self.old.books seat) (λ book. OnOk result (macro_fault book.macros name ≡ None)) }
        ensures fault { IfSome (slice_get self.old.books seat) (λ book. IfErr result (IsBookFaultOf (macro_fault book.macros name))) }
        ensures refused { OnErr result (self.new ≡ self.old) }
    {
        self.seats[seat.number() as usize].set_macro(name, text)
    }

    /// Removes the macro of that name of a seat, which is in the world; false exactly where there is none, and then the
    /// world is as before. All else stays.
    pub fn drop_macro(&mut self, seat: SeatNo, name: Tag) -> bool
        requires { seat < length self.old.books }
        ensures there { IfSome (slice_get self.old.books seat) (λ book. result ≡ is_some (macro_of name book.macros)) }
        ensures value { self.new ≡ with_book seat (without_macro name) self.old }
    {
        self.seats[seat.number() as usize].drop_macro(name)
    }
}

fn copied(books: &Vec<SeatBook>) -> Result<Vec<SeatBook>, Memory>
    ensures { IfOk result (λ copy. copy.items ≡ books.now.items) }
{
    let mut copy = Vec::new(*books.allocator());
    for book in books {
        copy.push(book.copy()?)?;
    }
    Ok(copy)
}
