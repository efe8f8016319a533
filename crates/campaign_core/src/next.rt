//! What an entry makes: the scene, the seats and the views after it.
ghost use Rattle.std.specs.Prelude.{◌≡◌, ◌==◌, ◌≤◌, ◌+◌, ℕ, ◌<◌, if◌then◌else◌, length, true, false, None, Some, IfOk, IfSome, OnOk, unwrap_or, option_map, slice_get};
ghost use Rattle.names.specs.declared.token_id.TokenId.{TokenId};
ghost use Rattle.player_view.specs.Fields.{HasFields};
ghost use Rattle.player_view.specs.Seen.{AreSeen};
ghost use Rattle.player_view.specs.Tables.{HasTables};
ghost use Rattle.command_effects.specs.Settle.{IsSettled, OthersAreSettled, settled as settled_lem};
ghost use Rattle.command_looks.specs.Fields.{AreBehind, AreKept, field_for};
ghost use Rattle.command_looks.specs.Touched.{is_touched, looks_for, touched};
ghost use Rattle.command_looks.specs.Ways.{IsWayOn};
ghost use Rattle.vision.specs.Fields.{field_at};
ghost use Rattle.view_keep.specs.Kept.{view_at};
ghost use Rattle.campaign_law.specs.Outcome.{seat_of};
ghost use Rattle.campaign_law.specs.World.{outcome_of, steps_of, step, scene_after, mapped_from};
ghost use Rattle.campaign_law.specs.Worlds.{FitsTogether};
ghost use Rattle.campaign_law.specs.Session.{changes_state};
ghost use Rattle.campaign_law.specs.State.{state_after, world_in};
ghost use Rattle.campaign_core.specs.Places.{law, world_at, put_all, HaveRoom};
ghost use Rattle.campaign_core.specs.CutList.{cut_by};
ghost use Rattle.campaign_core.specs.Leaving.{cut_due, due, frees as frees_lem};
ghost use Rattle.campaign_core.specs.Taking.{count_in, is_taken};
ghost use Rattle.campaign_core.specs.Sound.{AreSound};
ghost use Rattle.campaign_law.specs.Law.{answer_of};
ghost use Rattle.campaign_core.specs.Changed.{IsChanged, reach_of as reach_of_lem, scene_in, fields_in};
ghost use Rattle.view_marks.specs.Placed.{placed_by as placed_by_lem};
ghost use Rattle.campaign_core.specs.Glances.{AreGlances, ViewsFit};
ghost use Rattle.campaign_core.specs.Looking.{looks_at};
ghost use Rattle.campaign_core.specs.Walked.{IsWalked, looks_on_way};
ghost use Rattle.campaign_core.specs.Steps.{with_book};
ghost use Rattle.campaign_core.specs.Prepared.{IsPrepared};
ghost use Rattle.campaign_core.specs.Shown.{AreShown, made_or, made_view, placed_if, placed_reaching, view_then};

use crate::boxed::Boxed;
use crate::deciding::decide;
use crate::queues::{Glances, NextSeats, next_seats};
use crate::reach::{Reach, placed_in_reach};
use crate::state::{NextPost, State};
use campaign_law::{Answer, Entry};
use cells::CellSet;
use command_effects::{Way, scene_by, settle, way_of};
use command_json::Command;
use command_looks::{Touched, fields_after, serve, show_way, touched_by};
use entry_outcomes::{Message, Outcome, ReadLine};
use names::{Memory, SeatNo};
use seats::SeatBook;
use std::alloc::Global;
use tokens::Owners;
use topology::Eye;
use view_keep::Keep;
use view_marks::{Placed, onlookers, placed_by};
use views::View;
use vision::Fields;
use world::Scene;

/// A scene that an entry made, and its fields, where they aren't those of the scene before; and what players see of it, at
/// the places of their exposed sets.
#[derive(Drop)]
pub(crate) struct Changed {
    pub(crate) scene: Scene,
    pub(crate) fields: Option<Fields>,
    pub(crate) seen: Vec<Option<CellSet>>,
    /// The players to whom it may show something.
    pub(crate) onlookers: Owners,
    /// Where the token stands, where that is all that changed in the game master's view.
    pub(crate) placed: Option<Placed>,
}

/// All that an entry makes, before any of it is put in its place.
#[derive(Drop)]
pub(crate) struct Prepared {
    pub(crate) nexts: Vec<Option<NextPost>>,
    pub(crate) views: Vec<Option<Boxed<View>>>,
    pub(crate) changed: Option<Boxed<Changed>>,
    pub(crate) said: Vec<Message>,
    pub(crate) answer: Answer,
}

/// What the entry makes of the state. Its line isn't read again where it was read ahead.
pub(crate) fn made_by<E: Eye>(
    alloc: Global,
    state: &State,
    keep: &Keep,
    eye: &mut E,
    entry: &Entry,
    ahead: Option<ReadLine>,
) -> Result<Prepared, Memory>
    requires fits { FitsTogether (world_at state.now) }
    requires tables { HasTables state.now.scene }
    requires settled { IsSettled state.now.scene }
    requires sound { AreSound (law state.now).posts }
    requires fields { AreKept state.now.scene keep.now.fields }
    requires views { AreShown (world_at state.now) keep.now.views }
    ensures prepared { IfOk result (IsPrepared (law state.now) keep.now entry.now) }
    ensures looks { E.looks_made eye.new ≤ E.looks_made eye.old + looks_at (world_at state.now) entry.now }
{
    let (steps, mut outcome) = decide(alloc, state, keep, entry, ahead)?;
    let changed = changed_scene(alloc, state, keep, eye, entry, &outcome, steps)?;
    let book = take_book(&mut outcome);
    let NextSeats { nexts, views } = seats_after(
        alloc, state, keep, entry, &outcome, book, &changed,
    )?;
    let (answer, said) = told(steps, outcome);
    Ok(Prepared {
        nexts,
        views,
        changed,
        said,
        answer,
    })
}

/// Takes the book out of the outcome.
fn take_book(outcome: &mut Outcome) -> Option<SeatBook>
    ensures book { result ≡ outcome.old.book }
    ensures outcome { outcome.new ≡ record outcome.old { book = None } }
{
    outcome.book.take()
}

/// The answer to the entry, and what it says.
fn told(steps: u32, mut outcome: Outcome) -> (Answer, Vec<Message>)
    ensures answer { result.0 ≡ answer_of steps outcome }
    ensures said { result.1.items ≡ outcome.messages }
{
    let line = outcome.reply.take();
    let answer = Answer {
        refusal: outcome.refusal.take(),
        taken: steps,
        line: if outcome.direct { line } else { None },
    };
    (answer, outcome.messages)
}

// ---- the scene

/// The fields of a scene that the command made of one with these fields; none, where they are the same.
fn next_fields<E: Eye>(
    alloc: Global,
    scene: &Scene,
    command: &Command,
    fields: &Fields,
    eye: &mut E,
) -> Result<Option<Fields>, Memory>
    requires kept { (id : TokenId) → is_touched scene.now.tokens (touched command.now) id ≡ false → field_at id fields.now
        ≡ field_for scene.now id }
    requires behind { AreBehind (touched command.now) scene.now fields.now }
    ensures fields { IfOk result (λ next. AreKept scene.now (unwrap_or next fields.now)) }
    ensures looks { E.looks_made eye.new ≤ E.looks_made eye.old + looks_for scene.now.tokens (touched command.now) }
{
    let touched = touched_by(command);
    if let Touched::Nobody = &touched {
        return Ok(None);
    }
    Ok(Some(fields_after(alloc, scene, &touched, fields, eye)?))
}

/// What is seen on the way, where there is one, is exposed. After `Memory` the scene is another one.
fn walk<E: Eye>(
    alloc: Global,
    scene: &mut Scene,
    way: &Option<Way>,
    next: &Option<Fields>,
    fields: &Fields,
    eye: &mut E,
) -> Result<(), Memory>
    requires way { IfSome way.now (IsWayOn scene.old) }
    requires kept { AreKept scene.old (unwrap_or next.now fields.now) }
    ensures scene { OnOk result (IsWalked way.now scene.old scene.new) }
    ensures looks { E.looks_made eye.new ≤ E.looks_made eye.old + looks_on_way way.now }
{
    let Some(way) = way else {
        return Ok(());
    };
    match next {
        Some(next) => show_way(alloc, scene, way, next, eye),
        None => show_way(alloc, scene, way, fields, eye),
    }
}

/// The scene in which what players see is exposed to them, and what those see who may see something else.
fn settled(
    alloc: Global,
    scene: Scene,
    onlookers: Owners,
    next: &Option<Fields>,
    fields: &Fields,
) -> Result<(Scene, Vec<Option<CellSet>>), Memory>
    requires kept { AreKept scene (unwrap_or next.now fields.now) }
    requires others { OthersAreSettled (Some onlookers) scene }
    ensures scene { IfOk result (λ r. r.0 ≡ settled_lem scene) }
    ensures seen { IfOk result (λ r. AreSeen r.0 r.1.items) }
{
    match next {
        Some(next) => settled_by(alloc, scene, onlookers, next),
        None => settled_by(alloc, scene, onlookers, fields),
    }
}

fn settled_by(
    alloc: Global,
    mut scene: Scene,
    onlookers: Owners,
    fields: &Fields,
) -> Result<(Scene, Vec<Option<CellSet>>), Memory>
    requires kept { AreKept scene fields.now }
    requires others { OthersAreSettled (Some onlookers) scene }
    ensures scene { IfOk result (λ r. r.0 ≡ settled_lem scene) }
    ensures seen { IfOk result (λ r. AreSeen r.0 r.1.items) }
{
    serve(&scene, fields);
    let seen = settle(alloc, &mut scene, Some(onlookers), fields)?;
    Ok((scene, seen))
}

/// Where the token stands that the command, which made this scene and takes this way, put elsewhere.
fn placed_without_way(scene: &Scene, command: &Command, way: &Option<Way>) -> Option<Placed>
    ensures command { IfSome result (λ p. placed_by_lem scene.now command.now ≡ Some p) }
    ensures way { IfSome result (λ p. way.now ≡ None) }
{
    if way.is_some() {
        return None;
    }
    placed_by(scene, command)
}

/// The scene after the entry with its fields; none, where the entry leaves it as it is.
pub(crate) fn changed_scene<E: Eye>(
    alloc: Global,
    state: &State,
    keep: &Keep,
    eye: &mut E,
    entry: &Entry,
    outcome: &Outcome,
    steps: u32,
) -> Result<Option<Boxed<Changed>>, Memory>
    requires fits { FitsTogether (world_at state.now) }
    requires tables { HasTables state.now.scene }
    requires settled { IsSettled state.now.scene }
    requires fields { AreKept state.now.scene keep.now.fields }
    requires outcome { outcome.now ≡ outcome_of (world_at state.now) entry.now }
    requires steps { steps ≡ steps_of (world_at state.now) entry.now }
    ensures changed { IfOk result (IsChanged (world_at state.now) entry.now keep.now.fields) }
    ensures looks { E.looks_made eye.new ≤ E.looks_made eye.old + looks_at (world_at state.now) entry.now }
{
    let Some(command) = &outcome.done else {
        return Ok(None);
    };
    // The state tells with its count of seats that all but the first are the scene's players.
    let _seats = state.seats();
    let before = state.scene();
    // The scene tells with its maps that its parts fit together.
    let _maps = before.maps();
    let intents = &outcome.intents;
    let seat = entry.seat();
    let way = way_of(alloc, before, seat, command, steps)?;
    let Some(mut scene) = scene_by(alloc, before, seat, command, steps, intents)? else {
        return Ok(None);
    };
    // The table tells with its length that no id is there twice.
    let _count = scene.tokens().len();
    let onlookers = onlookers(before, &scene, command);
    let placed = placed_without_way(&scene, command, &way);
    let fields = next_fields(alloc, &scene, command, keep.fields(), eye)?;
    walk(alloc, &mut scene, &way, &fields, keep.fields(), eye)?;
    let after = settled(alloc, scene, onlookers, &fields, keep.fields())?;
    let changed = Changed {
        scene: after.0,
        fields,
        seen: after.1,
        onlookers,
        placed,
    };
    Boxed::some(alloc, changed)
}

// ---- the seats

/// The seats after the entry.
pub(crate) fn seats_after(
    alloc: Global,
    state: &State,
    keep: &Keep,
    entry: &Entry,
    outcome: &Outcome,
    book: Option<SeatBook>,
    changed: &Option<Boxed<Changed>>,
) -> Result<NextSeats, Memory>
    requires fits { FitsTogether (world_at state.now) }
    requires tables { HasTables state.now.scene }
    requires settled { IsSettled state.now.scene }
    requires sound { AreSound (law state.now).posts }
    requires fields { AreKept state.now.scene keep.now.fields }
    requires views { AreShown (world_at state.now) keep.now.views }
    requires outcome { with_book outcome.now book ≡ outcome_of (world_at state.now) entry.now }
    requires changed { IsChanged (world_at state.now) entry.now keep.now.fields changed.now }
    ensures count { IfOk result (λ n. length n.nexts.items ≡ length state.now.posts) }
    ensures state { IfOk result (λ n. record {
      posts = put_all n.nexts.items (law state.now).posts;
      scene = scene_in state.now.scene changed.now;
    } ≡ state_after (law state.now) entry.now) }
    ensures views { IfOk result (λ n. n.views.items ≡ mapped_from
        (λ seat p. made_view (reach_of_lem changed.now) (seat_of entry.now == seat) (outcome_of (world_at state.now) entry.now)
        (scene_after (world_at state.now) entry.now) seat p.seat) 0 state.now.posts) }
{
    let glances = glances(state, keep, entry, changed);
    next_seats(alloc, outcome, book, entry.seat(), state.posts(), &glances)
}

/// What is seen before the entry and after it.
fn glances<'s>(
    state: &'s State,
    keep: &'s Keep,
    entry: &Entry,
    changed: &'s Option<Boxed<Changed>>,
) -> Glances<'s>
    requires fields { AreKept state.now.scene keep.now.fields }
    requires changed { IsChanged (world_at state.now) entry.now keep.now.fields changed.now }
    requires fit { ViewsFit state.now.scene (scene_in state.now.scene changed.now) }
    ensures glances { AreGlances result }
    ensures before { result.before.now ≡ state.now.scene }
    ensures keep { result.keep.now ≡ keep.now }
    ensures after { result.after.now ≡ scene_in state.now.scene changed.now }
    ensures reach { result.reach ≡ reach_of_lem changed.now }
{
    let _entry = entry;
    match changed {
        Some(changed) => glances_at(state, keep, changed.get()),
        None => glances_still(state, keep),
    }
}

fn glances_still<'s>(state: &'s State, keep: &'s Keep) -> Glances<'s>
    requires fields { AreKept state.now.scene keep.now.fields }
    requires fit { ViewsFit state.now.scene state.now.scene }
    ensures glances { AreGlances result }
    ensures before { result.before.now ≡ state.now.scene }
    ensures keep { result.keep.now ≡ keep.now }
    ensures after { result.after.now ≡ state.now.scene }
    ensures reach { result.reach ≡ Reach.Nobody }
{
    let scene = state.scene();
    let fields = keep.fields();
    serve(scene, fields);
    Glances {
        before: scene,
        keep,
        after: scene,
        fields,
        seen: &[],
        reach: Reach::Nobody,
    }
}

/// Whom the change reaches.
fn reach_of(changed: &Changed) -> Reach
    ensures { result ≡ reach_of_lem (Some changed.now) }
{
    Reach::Onlookers(changed.onlookers, changed.placed)
}

fn glances_at<'s>(state: &'s State, keep: &'s Keep, changed: &'s Changed) -> Glances<'s>
    requires fields { AreKept changed.now.scene (unwrap_or changed.now.fields keep.now.fields) }
    requires seen { AreSeen changed.now.scene changed.now.seen.items }
    requires fit { ViewsFit state.now.scene changed.now.scene }
    requires players { changed.now.scene.fog.players ≡ state.now.scene.fog.players }
    ensures glances { AreGlances result }
    ensures before { result.before.now ≡ state.now.scene }
    ensures keep { result.keep.now ≡ keep.now }
    ensures after { result.after.now ≡ changed.now.scene }
    ensures reach { result.reach ≡ reach_of_lem (Some changed.now) }
{
    let fields = match &changed.fields {
        Some(fields) => fields,
        None => keep.fields(),
    };
    serve(&changed.scene, fields);
    let scene = state.scene();
    Glances {
        before: scene,
        keep,
        after: &changed.scene,
        fields,
        seen: changed.seen.as_slice(),
        reach: reach_of(changed),
    }
}

// ---- what is made is put in its place

fn put_made(keep: &mut Keep, seat: SeatNo, made: Option<Boxed<View>>)
    requires { seat < length keep.old.views }
    ensures fields { keep.new.fields ≡ keep.old.fields }
    ensures count { length keep.new.views ≡ length keep.old.views }
    ensures views { (other : ℕ) → view_at other keep.new.views
        ≡ (if seat == other then made_or made (view_at other keep.old.views) else view_at other keep.old.views) }
{
    if let Some(view) = made {
        keep.put_view(seat, view.into_inner());
    }
}

/// Places the token in the game master's view, where that is all that changed in it.
#[tactic(auto, using(crate::proofs::Shows::placed_there))]
fn place_token(keep: &mut Keep, placed: Option<Placed>)
    requires { 1 ≤ length keep.old.views }
    ensures fields { keep.new.fields ≡ keep.old.fields }
    ensures count { length keep.new.views ≡ length keep.old.views }
    ensures views { (seat : ℕ) → view_at seat keep.new.views ≡ placed_if placed seat (view_at seat keep.old.views) }
{
    let Some(placed) = placed else {
        return;
    };
    let Some(master) = SeatNo::new(0) else {
        unreachable!();
    };
    keep.place(master, &placed);
}

/// Where the token stands, where that is all that changed in the game master's view.
fn placed_in_change(changed: &Option<Boxed<Changed>>) -> Option<Placed>
    ensures { result ≡ placed_reaching (reach_of_lem changed.now) }
{
    match changed {
        Some(changed) => placed_in_reach(reach_of(changed.get())),
        None => None,
    }
}

/// Puts in the views that were made.
fn put_views(keep: &mut Keep, views: Vec<Option<Boxed<View>>>)
    requires count { length views.items ≤ length keep.old.views }
    requires seats { length keep.old.views ≤ 33 }
    ensures fields { keep.new.fields ≡ keep.old.fields }
    ensures count { length keep.new.views ≡ length keep.old.views }
    ensures views { (seat : ℕ) → view_at seat keep.new.views ≡ view_then None views.items keep.old.views seat }
{
    let mut number: u8 = 0;
    for made in views {
        let Some(seat) = SeatNo::new(number) else {
            unreachable!();
        };
        put_made(keep, seat, made);
        number += 1;
    }
}

/// Places the token and puts in the views that were made.
#[tactic(auto, using(crate::proofs::Shows::views_after))]
fn put_all_views(keep: &mut Keep, placed: Option<Placed>, views: Vec<Option<Boxed<View>>>)
    requires count { length views.items ≤ length keep.old.views }
    requires one { 1 ≤ length keep.old.views }
    requires seats { length keep.old.views ≤ 33 }
    ensures fields { keep.new.fields ≡ keep.old.fields }
    ensures count { length keep.new.views ≡ length keep.old.views }
    ensures views { (seat : ℕ) → view_at seat keep.new.views ≡ view_then placed views.items keep.old.views seat }
{
    place_token(keep, placed);
    put_views(keep, views);
}

/// Puts what an entry made in its place. It takes no memory.
fn go_on(
    state: &mut State,
    keep: &mut Keep,
    nexts: Vec<Option<NextPost>>,
    views: Vec<Option<Boxed<View>>>,
    changed: Option<Boxed<Changed>>,
)
    requires count { length nexts.items ≤ length state.old.posts }
    requires room { HaveRoom nexts.items state.old.posts }
    requires players { (scene_in state.old.scene changed).fog.players ≡ state.old.scene.fog.players }
    requires views { length views.items ≤ length keep.old.views }
    requires one { 1 ≤ length keep.old.views }
    requires seats { length keep.old.views ≤ 33 }
    ensures state { law state.new ≡ record { posts = put_all nexts.items (law state.old).posts; scene = scene_in state.old.scene changed } }
    ensures seats { length state.new.posts ≡ length state.old.posts }
    ensures fields { keep.new.fields ≡ fields_in keep.old.fields changed }
    ensures count { length keep.new.views ≡ length keep.old.views }
    ensures views { (seat : ℕ) → view_at seat keep.new.views
        ≡ view_then (placed_reaching (reach_of_lem changed)) views.items keep.old.views seat }
{
    put_all_views(keep, placed_in_change(&changed), views);
    match changed {
        Some(changed) => {
            let changed = changed.into_inner();
            state.go_on(nexts, Some(changed.scene));
            put_fields(keep, changed.fields);
        }
        None => state.go_on(nexts, None),
    }
}

fn put_fields(keep: &mut Keep, fields: Option<Fields>)
    ensures { keep.new ≡ record keep.old { fields = unwrap_or fields keep.old.fields } }
{
    if let Some(fields) = fields {
        keep.put_fields(fields);
    }
}

/// The entry acts: all that it makes is put in its place. It takes no memory.
pub(crate) fn act(
    state: &mut State,
    keep: &mut Keep,
    said: &mut Vec<Message>,
    entry: &Entry,
    prepared: Prepared,
) -> Answer
    requires fields { AreKept state.old.scene keep.old.fields }
    requires count { length keep.old.views ≡ length state.old.posts }
    requires most { length keep.old.views ≤ 33 }
    requires room { HaveRoom prepared.nexts.items state.old.posts }
    requires prepared { IsPrepared (law state.old) keep.old entry.now prepared }
    ensures state { law state.new ≡ state_after (law state.old) entry.now }
    ensures seats { length state.new.posts ≡ length state.old.posts }
    ensures fields { AreKept state.new.scene keep.new.fields }
    ensures views { AreShown (step (world_in (law state.old)) entry.now) keep.new.views }
    ensures count { length keep.new.views ≡ length keep.old.views }
    ensures said { said.new.items ≡ (outcome_of (world_in (law state.old)) entry.now).messages }
    ensures answer { result ≡ answer_of (steps_of (world_in (law state.old)) entry.now) (outcome_of (world_in (law state.old)) entry.now) }
{
    let _entry = entry;
    // The state tells with its count of seats that there is one.
    let _seats = state.seats();
    let Prepared {
        nexts,
        views,
        changed,
        said: messages,
        answer,
    } = prepared;
    go_on(state, keep, nexts, views, changed);
    *said = messages;
    answer
}

/// The entry is a Leave that changes its seat's state, or a Cut of a Joined seat. It takes no memory.
pub(crate) fn leave(state: &mut State, entry: &Entry) -> Answer
    requires settled { IsSettled state.old.scene }
    requires sound { AreSound (law state.old).posts }
    requires moves { changes_state (world_in (law state.old)) entry.now ≡ true }
    ensures state { law state.new ≡ state_after (law state.old) entry.now }
    ensures seats { length state.new.posts ≡ length state.old.posts }
    ensures scene { state.new.scene ≡ state.old.scene }
    ensures owed { due (law state.new).posts + 1 ≤ due (law state.old).posts }
    ensures owed_cuts { (place : ℕ) → cut_due (law state.new).posts + length (cut_by (world_in (law state.old)) place entry.now)
        ≤ cut_due (law state.old).posts }
    ensures answer { result ≡ answer_of (steps_of (world_in (law state.old)) entry.now) (outcome_of (world_in (law state.old)) entry.now) }
{
    state.leave(entry.seat(), frees(entry));
    Answer {
        refusal: None,
        taken: 0,
        line: None,
    }
}

/// The entry is a Taken. It takes no memory.
pub(crate) fn take(state: &mut State, entry: &Entry) -> Answer
    requires settled { IsSettled state.old.scene }
    requires sound { AreSound (law state.old).posts }
    requires taken { is_taken entry.now ≡ true }
    ensures state { law state.new ≡ state_after (law state.old) entry.now }
    ensures seats { length state.new.posts ≡ length state.old.posts }
    ensures scene { state.new.scene ≡ state.old.scene }
    ensures answer { result ≡ answer_of (steps_of (world_in (law state.old)) entry.now) (outcome_of (world_in (law state.old)) entry.now) }
{
    state.take(entry.seat(), taken_count(entry));
    Answer {
        refusal: None,
        taken: 0,
        line: None,
    }
}

/// How many lines of its session a Taken says were taken.
fn taken_count(entry: &Entry) -> u64
    ensures { result ≡ count_in entry.now }
{
    match entry {
        Entry::Taken { count, .. } => *count,
        Entry::Join { .. } | Entry::Line { .. } | Entry::Leave { .. } | Entry::Cut { .. } => 0,
    }
}

/// Whether the entry frees a seat whose state it changes.
fn frees(entry: &Entry) -> bool
    ensures { result ≡ frees_lem entry.now }
{
    match entry {
        Entry::Leave { drop, .. } => *drop,
        Entry::Cut { .. } => true,
        Entry::Join { .. } | Entry::Line { .. } | Entry::Taken { .. } => false,
    }
}
