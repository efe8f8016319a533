//! The campaign of a drill.
ghost use Rattle.std.specs.Prelude.{◌≡◌, ◌+◌, ◌*◌, ◌<◌, ◌≤◌, ℕ, true, false, List, [], ◌∷◌, codes, All, IsTrue, IfOk, OnOk};
ghost use Rattle.tokens.specs.Tokens.{has_token, put};
ghost use Rattle.world.specs.Rules.{belongs};
ghost use Rattle.world.specs.World.{is_used};
ghost use Rattle.maps.specs.Maps.{has_map};
ghost use Rattle.topology.specs.declared.wall.Wall.{Wall};
ghost use Rattle.topology.specs.Order.{wall_between};
ghost use Rattle.drill.specs.Numbered.{cell_at, cells_up_to};
ghost use Rattle.drill.specs.Script.{IsOnMap};
ghost use Rattle.drill.specs.Campaign.{and_wall, drill_fog, drill_lights, drill_sights, drill_world, end_of as end_of_lem, layer_at, light_at, map_with, owners_at, sight_at, token_at, tokens_up_to, wall_drawn, walls_up_to, world_with};

use crate::draws::Draws;
use crate::seat_books::{TOKENS, seat_books};
use crate::tags::{dark, hit_points as hp, human, map_name, tag_of, torch};
use cells::{Cell, Size};
use lattice::Point;
use names::{Layer, Memory, Mode, SeatNo, Tag, Text, TokenId, WallKind};
use std::alloc::Global;
use tokens::{Owners, Props, Token};
use topology::WallFault;
use world::World;

/// How many walls are drawn.
const WALLS: u32 = 600;

/// How many of the tokens are owned.
const OWNED: u32 = 8;

/// The types of lights and sights.
fn set_types(world: &mut World) -> Result<(), Memory>
    requires lights { world.old.scene.lights ≡ [] }
    requires sights { world.old.scene.sights ≡ [] }
    ensures { OnOk result (world.new
        ≡ record world.old { scene = record world.old.scene { lights = drill_lights; sights = drill_sights } }) }
{
    if world.set_light_type(torch(), 8).is_err() {
        return Err(Memory);
    }
    if world.set_sight_type(dark(), 30, 12, 4).is_err() {
        return Err(Memory);
    }
    if world.set_sight_type(human(), 30, 0, 2).is_err() {
        return Err(Memory);
    }
    Ok(())
}

/// The map, without walls.
fn set_map(world: &mut World) -> Result<(), Memory>
    requires maps { world.old.scene.maps ≡ [] }
    requires fog { world.old.scene.fog ≡ record { players = 4; sets = [] } }
    ensures { OnOk result (world.new ≡ record world.old { scene = record world.old.scene { maps = map_with [] ∷ []; fog = drill_fog } }) }
{
    let Some(size) = Size::new(96, 96) else {
        unreachable!();
    };
    let name = map_name();
    match world.add_map(name, size) {
        Ok(()) => {}
        Err(_) => return Err(Memory),
    }
    world.set_mode(name, Mode::Night);
    world.set_shown(name, true);
    Ok(())
}

/// The world without walls and tokens.
fn bare_world(alloc: Global) -> Result<World, Memory>
    ensures { IfOk result (λ world. world ≡ world_with [] []) }
{
    let mut world = World::open(alloc, seat_books(alloc)?)?;
    set_types(&mut world)?;
    set_map(&mut world)?;
    Ok(world)
}

// ---- walls

fn point(x: u32, y: u32) -> Point
    requires column { x ≤ 192 }
    requires row { y ≤ 192 }
    ensures { result ≡ record { x = x; y = y } }
{
    match Point::new(x as i32, y as i32) {
        Some(point) => point,
        None => unreachable!(),
    }
}

/// The end of the wall that begins at (x, y): so far to the right, or downwards, and at most to the edge.
fn end_of(x: u32, y: u32, down: u32, far: u32) -> Point
    requires column { x ≤ 190 }
    requires row { y ≤ 190 }
    requires near { far ≤ 6 }
    ensures { result ≡ end_of_lem x y down far }
{
    if down == 0 {
        point((x + far).min(192), y)
    } else {
        point(x, (y + far).min(192))
    }
}

/// The ends of the next wall.
#[tactic(auto, unfolding(crate::specs::Campaign::wall_drawn))]
fn draw_wall(draws: &mut Draws) -> (Point, Point)
    requires { draws.old.next < 100000 }
    ensures wall { wall_between result.0 result.1 ≡ wall_drawn draws.old.number draws.old.next }
    ensures draws { draws.new ≡ record draws.old { next = draws.old.next + 4 } }
{
    let x = draws.draw(191);
    let y = draws.draw(191);
    let down = draws.draw(2);
    let far = 1 + draws.draw(6);
    (point(x, y), end_of(x, y, down, far))
}

/// Adds a wall, which is skipped if it is there already.
fn add_wall(world: &mut World, from: Point, to: Point) -> Result<(), Memory>
    requires { has_map (codes "drill") world.old.scene.maps ≡ true }
    ensures { (walls : List Wall) → world.old ≡ world_with walls []
        → OnOk result (world.new ≡ world_with (and_wall walls (wall_between from to)) []) }
{
    match world.add_wall(map_name(), WallKind::Vbl, from, to) {
        Ok(()) => Ok(()),
        Err(WallFault::WallThere) => Ok(()),
        Err(_) => Err(Memory),
    }
}

/// Draws the walls.
fn add_walls(world: &mut World, draws: &mut Draws) -> Result<(), Memory>
    requires world { world.old ≡ world_with [] [] }
    requires draws { draws.old.next ≡ 0 }
    ensures walls { OnOk result (world.new ≡ world_with (walls_up_to draws.old.number 600) []) }
    ensures draws { OnOk result (draws.new ≡ record draws.old { next = 2400 }) }
{
    for _wall in 0..WALLS {
        let (from, to) = draw_wall(draws);
        add_wall(world, from, to)?;
    }
    Ok(())
}

// ---- tokens

fn layer_of(number: u32) -> Layer
    ensures { result ≡ layer_at number }
{
    if number < 32 {
        Layer::Token
    } else if number < 36 {
        Layer::Object
    } else {
        Layer::Hidden
    }
}

fn owners_of(number: u32) -> Owners
    ensures { result ≡ owners_at number }
{
    if number >= OWNED {
        return Owners::none();
    }
    match SeatNo::new((1 + number % 4) as u8) {
        Some(seat) => Owners::none().with(seat, true),
        None => unreachable!(),
    }
}

fn sight_of(number: u32) -> Option<Tag>
    ensures { result ≡ sight_at number }
{
    if number >= OWNED {
        None
    } else if number % 2 == 0 {
        Some(human())
    } else {
        Some(dark())
    }
}

fn light_of(number: u32) -> Option<Tag>
    ensures { result ≡ light_at number }
{
    if number < 4 { Some(torch()) } else { None }
}

/// Every token has one property.
fn hit_points(alloc: Global) -> Result<Props, Memory>
    ensures { IfOk result (λ props. props ≡ (codes "hp", codes "10") ∷ []) }
{
    let mut props = Props::new(alloc);
    match props.set(hp(), Text::copy(alloc, "10")?) {
        Ok(()) => Ok(props),
        Err(_) => Err(Memory),
    }
}

/// The cell of the token of that number.
fn draw_cell(draws: &mut Draws, number: u32) -> Cell
    requires few { number < 40 }
    requires next { draws.old.next ≡ 2400 + 2 * number }
    ensures cell { result ≡ cell_at draws.old.number number }
    ensures on { IsOnMap result }
    ensures draws { draws.new ≡ record draws.old { next = draws.old.next + 2 } }
{
    let x = draws.draw(96) as u8;
    let y = draws.draw(96) as u8;
    Cell { x, y }
}

/// The token of that number, on its cell.
#[tactic(auto, unfolding(crate::specs::Campaign::token_at))]
fn token_of(alloc: Global, number: u32, cell: Cell) -> Result<Token, Memory>
    requires { number < 40 }
    ensures { (n : ℕ) → cell ≡ cell_at n number → IfOk result (λ token. token ≡ token_at n number) }
{
    let Some(maker) = SeatNo::new(0) else {
        unreachable!();
    };
    let tag = tag_of(alloc, number)?;
    Ok(Token {
        id: TokenId { maker, tag },
        name: Text::copy(alloc, tag.text())?,
        map: map_name(),
        cell,
        size: 1,
        layer: layer_of(number),
        owners: owners_of(number),
        visible: true,
        sight: sight_of(number),
        light: light_of(number),
        public: hit_points(alloc)?,
        own: Props::new(alloc),
        secret: Props::new(alloc),
    })
}

/// Puts a token in its place.
fn put_token(world: &mut World, token: Token) -> Result<(), Memory>
    requires absent { has_token token.id world.old.scene.tokens ≡ false }
    requires used { is_used world.old.books token.id ≡ true }
    requires fitting { IsTrue (belongs world.old.scene token) }
    ensures { OnOk result (world.new ≡ record world.old { scene = record world.old.scene { tokens = put token world.old.scene.tokens } }) }
{
    match world.make(token) {
        Ok(()) => Ok(()),
        Err(_) => Err(Memory),
    }
}

/// Draws the token of that number, and gives its cell.
fn add_token(
    alloc: Global,
    world: &mut World,
    draws: &mut Draws,
    number: u32,
) -> Result<Cell, Memory>
    requires few { number < 40 }
    requires world { world.old ≡ world_with (walls_up_to draws.old.number 600) (tokens_up_to draws.old.number number) }
    requires draws { draws.old.next ≡ 2400 + 2 * number }
    ensures token { OnOk result (world.new ≡ world_with (walls_up_to draws.old.number 600) (tokens_up_to draws.old.number (number + 1))) }
    ensures cell { IfOk result (λ cell. cell ≡ cell_at draws.old.number number) }
    ensures on { IfOk result IsOnMap }
    ensures draws { OnOk result (draws.new ≡ record draws.old { next = draws.old.next + 2 }) }
{
    let cell = draw_cell(draws, number);
    let token = token_of(alloc, number, cell)?;
    put_token(world, token)?;
    Ok(cell)
}

/// Draws the tokens that are owned, and gives their cells.
fn add_owned(alloc: Global, world: &mut World, draws: &mut Draws) -> Result<Vec<Cell>, Memory>
    requires world { world.old ≡ world_with (walls_up_to draws.old.number 600) [] }
    requires draws { draws.old.next ≡ 2400 }
    ensures tokens { OnOk result (world.new ≡ world_with (walls_up_to draws.old.number 600) (tokens_up_to draws.old.number 8)) }
    ensures cells { IfOk result (λ cells. cells.items ≡ cells_up_to draws.old.number 8) }
    ensures on { IfOk result (λ cells. All IsOnMap cells.items) }
    ensures draws { OnOk result (draws.new ≡ record draws.old { next = 2416 }) }
{
    let mut cells = Vec::new(alloc);
    for number in 0..OWNED {
        let cell = add_token(alloc, world, draws, number)?;
        match cells.push(cell) {
            Ok(()) => {}
            Err(_) => return Err(Memory),
        }
    }
    Ok(cells)
}

/// Draws the other tokens.
fn add_others(alloc: Global, world: &mut World, draws: &mut Draws) -> Result<(), Memory>
    requires world { world.old ≡ world_with (walls_up_to draws.old.number 600) (tokens_up_to draws.old.number 8) }
    requires draws { draws.old.next ≡ 2416 }
    ensures tokens { OnOk result (world.new ≡ drill_world draws.old.number) }
    ensures draws { OnOk result (draws.new ≡ record draws.old { next = 2480 }) }
{
    for number in OWNED..TOKENS {
        add_token(alloc, world, draws, number)?;
    }
    Ok(())
}

/// The world of a drill, and the cells of the tokens that are owned. The next draw is then the script's first.
pub(crate) fn draw_world(alloc: Global, draws: &mut Draws) -> Result<(World, Vec<Cell>), Memory>
    requires { draws.old.next ≡ 0 }
    ensures world { IfOk result (λ made. made.0 ≡ drill_world draws.old.number) }
    ensures cells { IfOk result (λ made. made.1.items ≡ cells_up_to draws.old.number 8) }
    ensures on { IfOk result (λ made. All IsOnMap made.1.items) }
    ensures draws { OnOk result (draws.new ≡ record draws.old { next = 2480 }) }
{
    let mut world = bare_world(alloc)?;
    add_walls(&mut world, draws)?;
    let cells = add_owned(alloc, &mut world, draws)?;
    add_others(alloc, &mut world, draws)?;
    Ok((world, cells))
}
