//! A campaign as its callers see it: the world that it opened with, and its history.
ghost use Rattle.std.specs.Prelude.{◌+◌, None, IfSome, ◌≡◌, ◌<◌, ◌≤◌, ◌++◌, ◌∷◌, [], ℕ, length, Some, IfOk, IsOk, OnOk, IfErr, OnErr, map, flat_map, drop, slice_get, option_map, is_some, true, false, ◌-◌, vec_len, vec_capacity};
ghost use Rattle.campaign_file.specs.Campaign.{IsOpening as IsOpeningList};
ghost use Rattle.mails.specs.Texts.{tagged_text, text_of};
ghost use Rattle.campaign_law.specs.Worlds.{opening_world, FitsTogether};
ghost use Rattle.player_view.specs.Tables.{HasTables};
ghost use Rattle.campaign_writing.specs.Written.{IsWritten};
ghost use Rattle.campaign_core.specs.Opening.{world_of_text, IsOpenFault};
ghost use Rattle.std.specs.Option.{option_copied};
ghost use Rattle.command_looks.specs.Fields.{field_for};
ghost use Rattle.command_looks.specs.Touched.{looks_of_opening};
ghost use Rattle.campaign_core.specs.Shown.{kept_view};
ghost use Rattle.campaign_law.specs.World.{seat_at, some_to_list};
ghost use Rattle.player_view.specs.View.{view_of as view_of_lem};
ghost use Rattle.seats.specs.SeatState.{is_joined};
ghost use Rattle.campaign_law.specs.Session.{session, waiting, standing, changes_state};
ghost use Rattle.campaign_law.specs.Cuts.{is_cut_since};
ghost use Rattle.campaign_core.specs.Looking.{looks_at};
ghost use Rattle.campaign_core.specs.Over.{over_of};
ghost use Rattle.campaign_core.specs.Said.{last_said};
ghost use Rattle.campaign_core.specs.Taking.{is_taken as is_taken_lem};
ghost use Rattle.campaign_core.specs.Totals.{seen_total as seen_total_lem};
ghost use Rattle.campaign_law.specs.Law.{IsOpening, IsSentAsMachine, ChangesLittle, world_of, answer_after};

use crate::boxed::Boxed;
use crate::cuts::{SeatCut, add_cut, any_since};
use crate::next::{Prepared, act, leave, made_by, take};
use crate::said::heard;
use crate::state::{Post, State};
use crate::tables::open_tables;
use crate::totals::seen_total;
use campaign_file::{BadCampaign, FileFault, read_campaign};
use campaign_law::{Answer, Entry};
use cells::CellSet;
use command_effects::settle;
use command_looks::{Touched, fields_after, serve};
use entry_outcomes::{Message, ReadLine};
use mails::Mail;
use names::{LineText, Memory, SeatNo, TokenId};
use player_view::view_of;
use seats::{SeatBook, SeatState};
use std::alloc::Global;
use std::marker::Model;
use topology::Eye;
use turn_lock::Object;
use view_keep::Keep;
use views::View;
use vision::Fields;
use world::World;

mod dumping;

/// A place in the history for an entry, and two for each seat: a Joined one becomes Closing, and then Free.
const PLACES: usize = 67;

/// A place in the list of cuts for each seat.
const CUT_PLACES: usize = 33;

/// What is made of an entry before it is committed.
#[derive(Drop)]
pub(crate) enum Made {
    /// All that it makes.
    Whole(Prepared),
    /// Nothing: a Leave that changes its seat's state, or a Cut of a Joined seat, is done in place.
    Alone,
}

/// An entry with what is made of it.
#[derive(Drop)]
pub(crate) struct Staged {
    pub(crate) entry: Entry,
    pub(crate) made: Made,
}

/// A campaign: the world that it opened with, and its history since. Its state is the replay of the
/// history from that world. By its eye it finds what tokens see; the fields that it found are kept, and the
/// view of each Joined seat; so is the list of the Cuts that freed a seat, and what the last entry said. An entry may be
/// staged.
#[derive(Drop)]
pub struct Campaign<E: Eye> {
    alloc: Global,
    eye: E,
    origin: State,
    state: State,
    keep: Keep,
    history: Vec<Entry>,
    cuts: Vec<SeatCut>,
    said: Vec<Message>,
    staged: Option<Staged>,
    // The line that was read ahead last, until an entry is prepared. No contract sees it.
    ahead: Option<Boxed<ReadLine>>,
}

impl<E: Eye> Model for Campaign<E> {
    ghost use Rattle.std.specs.Prelude.{◌-◌, option_map, vec_len, vec_capacity};
    ghost use Rattle.campaign_law.specs.State.{world_in};
    ghost use Rattle.campaign_law.specs.Law.{Course};
    ghost use Rattle.campaign_core.specs.Places.{law};
    ghost use Rattle.campaign_core.specs.Running.{IsRunning, entry_in};

    ghost Value = { Course };

    ghost view = { λ c. record {
      origin = world_in (law c.origin);
      history = c.history.items;
      staged = option_map entry_in c.staged;
      looks = E.looks_made c.eye;
    } };

    ghost invariant = { λ c. IsRunning (world_in (law c.origin)) c.history.items
        (record {
          places = vec_capacity c.history - vec_len c.history;
          cuts = c.cuts.items;
          cut_places = vec_capacity c.cuts - vec_len c.cuts;
          said = c.said.items;
        }) c.state c.keep c.staged };
}

/// The world that a campaign opened with. No value of it is made.
pub struct Opened {
    state: State,
}

impl Model for Opened {
    ghost use Rattle.campaign_law.specs.World.{World};
    ghost use Rattle.campaign_law.specs.State.{world_in};
    ghost use Rattle.campaign_core.specs.Places.{law};

    ghost Value = { World };

    ghost view = { λ opened. world_in (law opened.state) };
}

impl<E: Eye> Object for Campaign<E> {
    type Entry = Entry;

    type Origin = Opened;

    ghost origin = { λ c. c.origin };

    ghost history = { λ c. c.history };

    fn length(&self) -> u64 {
        self.history.len() as u64
    }
}

/// Why no campaign opens.
#[derive(Drop)]
pub enum OpenFault {
    /// The text is off the format.
    Bad(BadCampaign),
    /// Want of memory.
    Memory,
}

impl<E: Eye + Drop> Campaign<E> {
    /// The campaign of a text: its world, and no entry. `Bad` exactly where the text is off the format
    /// (`docs/CAMPAIGN.md`), with the path and the rule of its first breach.
    pub fn open(alloc: Global, text: &[u8], eye: E) -> Result<Campaign<E>, OpenFault>
        ensures world { IfOk result (λ c. world_of_text text.now ≡ Some c.origin) }
        ensures opening { IfOk result (λ c. IsOpening c.origin) }
        ensures fits { IfOk result (λ c. FitsTogether c.origin) }
        ensures tables { IfOk result (λ c. HasTables c.origin.scene) }
        ensures history { IfOk result (λ c. c.history ≡ []) }
        ensures staged { IfOk result (λ c. c.staged ≡ None) }
        ensures seats { IfOk result (λ c. (1 ≤ length c.origin.seats) × (length c.origin.seats ≤ 33)) }
        ensures looks { IfOk result (λ c. c.looks ≤ E.looks_made eye + looks_of_opening c.origin.scene) }
        ensures bad { IfErr result (IsOpenFault text.now) }
    {
        match read_campaign(alloc, text) {
            Ok(world) => match Campaign::of_world(alloc, world, eye) {
                Ok(campaign) => Ok(campaign),
                Err(_) => Err(OpenFault::Memory),
            },
            Err(FileFault::Bad(breach)) => Err(OpenFault::Bad(breach)),
            Err(FileFault::Memory) => Err(OpenFault::Memory),
        }
    }

    /// The campaign that opens with this world, in which each seat is Free. What players see is exposed to them.
    fn of_world(alloc: Global, world: World, mut eye: E) -> Result<Campaign<E>, Memory>
        requires opening { IsOpeningList world.books }
        requires written { IsWritten world }
        ensures world { IfOk result (λ c. c.origin ≡ opening_world world) }
        ensures opening { IfOk result (λ c. IsOpening c.origin) }
        ensures fits { IfOk result (λ c. FitsTogether c.origin) }
        ensures tables { IfOk result (λ c. HasTables c.origin.scene) }
        ensures history { IfOk result (λ c. c.history ≡ []) }
        ensures staged { IfOk result (λ c. c.staged ≡ None) }
        ensures looks { IfOk result (λ c. c.looks ≤ E.looks_made eye + looks_of_opening c.origin.scene) }
    {
        let (mut scene, books) = world.into_parts();
        open_tables(&scene);
        let fields = fields_after(
            alloc,
            &scene,
            &Touched::Everybody,
            &Fields::new(alloc),
            &mut eye,
        )?;
        serve(&scene, &fields);
        settle(alloc, &mut scene, None, &fields)?;
        let origin = State::opening(alloc, books, scene)?;
        let state = origin.copy(alloc)?;
        let mut keep = Keep::new(alloc, state.seats())?;
        keep.put_fields(fields);
        Ok(Campaign {
            alloc,
            eye,
            origin,
            state,
            keep,
            history: Vec::new(alloc),
            cuts: Vec::new(alloc),
            said: Vec::new(alloc),
            staged: None,
            ahead: None,
        })
    }

    /// Takes all memory that the entry needs, and stages it. An entry that was staged before is dropped. The entry comes
    /// back only for want of memory, and then none is staged. A Leave that changes its seat's state takes no memory, nor does a
    /// Cut of a Joined seat.
    pub fn prepare(&mut self, entry: Entry) -> Result<(), Entry>
        ensures staged { OnOk result (self.new ≡ record self.old { staged = Some entry; looks = self.new.looks }) }
        ensures back { IfErr result (λ e. e ≡ entry) }
        ensures unchanged { OnErr result (self.new ≡ record self.old { staged = None; looks = self.new.looks }) }
        ensures sure { changes_state (world_of self.old) entry ≡ true → IsOk result }
        ensures looks { self.new.looks ≤ self.old.looks + looks_at (world_of self.old) entry }

        // What each player was sent is what the machine without a world prints.
        ensures sent { (p : ℕ) → IsSentAsMachine self.new.origin self.new.history p }
    {
        clear_staged(&mut self.staged);
        if self.state.is_changed_by(&entry) {
            let made = Made::Alone;
            self.staged = Some(Staged { entry, made });
            return Ok(());
        }
        if make_places(&mut self.history, &mut self.cuts).is_err() {
            return Err(entry);
        }
        let ahead = match self.ahead.take() {
            Some(ahead) => Some(ahead.into_inner()),
            None => None,
        };
        let Ok(prepared) = made_by(
            self.alloc,
            &self.state,
            &self.keep,
            &mut self.eye,
            &entry,
            ahead,
        ) else {
            return Err(entry);
        };
        if self.state.make_room(&prepared.nexts).is_err() {
            return Err(entry);
        }
        let made = Made::Whole(prepared);
        self.staged = Some(Staged { entry, made });
        Ok(())
    }

    /// Takes a line that was read ahead. The next entry that is prepared isn't read again where it is of this line; what it does is
    /// the same without. For want of memory it isn't kept.
    pub fn read_ahead(&mut self, line: ReadLine)
        ensures { self.new ≡ self.old }
    {
        if let Ok(ahead) = Boxed::some(self.alloc, line) {
            self.ahead = ahead;
        }
    }

    /// The staged entry; `None` exactly where none is staged.
    pub fn staged(&self) -> Option<&Entry>
        ensures { option_copied result ≡ self.now.staged }
    {
        match &self.staged {
            Some(staged) => Some(&staged.entry),
            None => None,
        }
    }

    /// Applies the staged entry and appends it to the history; none is staged then. It takes no memory.
    pub fn commit(&mut self) -> Answer
        requires { is_some self.old.staged ≡ true }
        ensures course { IfSome self.old.staged (λ e. self.new ≡ record self.old { history = self.old.history ++ e ∷ []; staged = None }) }
        ensures answer { IfSome self.old.staged (λ e. result ≡ answer_after self.old e) }
        ensures refused { IfSome self.old.staged (λ e. is_some result.refusal ≡ true → ChangesLittle (world_of self.old) e) }

        // What each player was sent is what the machine without a world prints.
        ensures sent { (p : ℕ) → IsSentAsMachine self.new.origin self.new.history p }
    {
        let Some(staged) = self.staged.take() else {
            unreachable!();
        };
        let Staged { entry, made } = staged;
        let prepared = match made {
            Made::Whole(prepared) => prepared,
            Made::Alone => {
                let place = self.history.len() as u64;
                add_cut(&mut self.cuts, &self.state, place, &entry);
                let answer = leave(&mut self.state, &entry);
                self.said.clear();
                self.history.push_reserved(entry);
                return answer;
            }
        };
        let answer = act(
            &mut self.state,
            &mut self.keep,
            &mut self.said,
            &entry,
            prepared,
        );
        self.history.push_reserved(entry);
        answer
    }

    /// Applies a Taken in place and appends it to the history, as `step` does.
    fn take(&mut self, entry: Entry) -> Result<Answer, Entry>
        requires taken { is_taken_lem entry ≡ true }
        ensures origin { self.new.origin ≡ self.old.origin }
        ensures history { OnOk result (self.new.history ≡ self.old.history ++ entry ∷ []) }
        ensures answer { IfOk result (λ a. a ≡ answer_after self.old entry) }
        ensures back { IfErr result (λ e. e ≡ entry) }
        ensures unchanged { OnErr result (self.new ≡ record self.old { staged = None; looks = self.new.looks }) }
        ensures staged { self.new.staged ≡ None }
        ensures looks { self.new.looks ≡ self.old.looks }
        ensures refused { IfOk result (λ a. is_some a.refusal ≡ true → ChangesLittle (world_of self.old) entry) }
        ensures still { changes_state (world_of self.old) entry ≡ false }

        // What each player was sent is what the machine without a world prints.
        ensures sent { (p : ℕ) → IsSentAsMachine self.new.origin self.new.history p }
    {
        clear_staged(&mut self.staged);
        if make_places(&mut self.history, &mut self.cuts).is_err() {
            return Err(entry);
        }
        let answer = take(&mut self.state, &entry);
        self.said.clear();
        self.history.push_reserved(entry);
        Ok(answer)
    }

    /// Applies an entry and appends it to the history. The entry comes back only for want of memory, and
    /// the campaign is then as before, but for its looks; none is staged then. A Leave that changes its seat's state
    /// takes no memory, nor does a Cut of a Joined seat.
    pub fn step(&mut self, entry: Entry) -> Result<Answer, Entry>
        ensures origin { self.new.origin ≡ self.old.origin }
        ensures history { OnOk result (self.new.history ≡ self.old.history ++ entry ∷ []) }
        ensures answer { IfOk result (λ a. a ≡ answer_after self.old entry) }
        ensures back { IfErr result (λ e. e ≡ entry) }
        ensures unchanged { OnErr result (self.new ≡ record self.old { staged = None; looks = self.new.looks }) }
        ensures staged { self.new.staged ≡ None }
        ensures looks { self.new.looks ≤ self.old.looks + looks_at (world_of self.old) entry }
        ensures refused { IfOk result (λ a. is_some a.refusal ≡ true → ChangesLittle (world_of self.old) entry) }
        ensures sure { changes_state (world_of self.old) entry ≡ true → IsOk result }

        // What each player was sent is what the machine without a world prints.
        ensures sent { (p : ℕ) → IsSentAsMachine self.new.origin self.new.history p }
    {
        if is_taken(&entry) {
            return self.take(entry);
        }
        match self.prepare(entry) {
            Ok(()) => Ok(self.commit()),
            Err(entry) => Err(entry),
        }
    }

    /// What the seat is shown now, as it is kept; `None` exactly where the seat isn't Joined.
    pub fn view(&self, seat: SeatNo) -> Option<&View>
        requires { seat < length self.now.origin.seats }
        ensures { option_copied result ≡ kept_view (world_of self.now) seat }
    {
        if !self.post(seat).book.state().is_joined() {
            return None;
        }
        Some(self.keep.view(seat))
    }

    /// What the seat is shown now, whatever its state. `Memory` is want of memory.
    pub fn copy_view(&self, seat: SeatNo) -> Result<View, Memory>
        requires { seat < length self.now.origin.seats }
        ensures { IfOk result (λ view. view ≡ view_of_lem (world_of self.now).scene seat) }
    {
        if let Some(view) = self.view(seat) {
            return view.copy();
        }
        // The state tells with its count of seats that all but the first are the scene's players.
        let _seats = self.state.seats();
        let scene = self.state.scene();
        let fields = self.keep.fields();
        serve(scene, fields);
        view_of(self.alloc, scene, seat, fields)
    }

    /// The field of the token's eye by the walls of its map, as it is kept; `None` exactly where there is no such token or
    /// it has neither a sight nor a light.
    pub fn field(&self, id: TokenId) -> Option<&CellSet>
        ensures { option_copied result ≡ field_for (world_of self.now).scene id }
    {
        self.keep.fields().get(id)
    }

    /// How many cells the players see, over all maps: a cell counts for each player that sees it. `Memory` is want of memory.
    pub fn seen_total(&self) -> Result<u64, Memory>
        ensures { IfOk result (λ n. n ≡ seen_total_lem (world_of self.now).scene) }
    {
        let scene = self.state.scene();
        let fields = self.keep.fields();
        serve(scene, fields);
        seen_total(self.alloc, scene, fields)
    }

    /// How many looks the eye made.
    pub fn looks(&self) -> u64
        ensures { result ≡ self.now.looks }
    {
        self.eye.looks()
    }

    /// How many pairs of a wall and a cell the eye compared.
    pub fn tested(&self) -> u64 {
        self.eye.tested()
    }

    /// How many seats there are: 1 to 33.
    pub fn seat_count(&self) -> u8
        ensures value { result ≡ length self.now.origin.seats }
        ensures bound { result ≤ 33 }
        ensures opening { IsOpening self.now.origin }
        ensures fits { FitsTogether self.now.origin }
        ensures tables { HasTables self.now.origin.scene }
    {
        self.origin.seats()
    }

    fn post(&self, seat: SeatNo) -> &Post
        requires { seat < length self.now.origin.seats }
        ensures seat { Some result.now.seat ≡ seat_at (world_of self.now) seat }
        ensures mail { result.now.mail ≡ drop result.now.seat.taken (session self.now.origin self.now.history seat) }
    {
        match self.state.post(seat.number()) {
            Some(post) => post,
            None => unreachable!(),
        }
    }

    /// The seat's book; `None` exactly where the campaign has no such seat. It takes no memory.
    pub fn book(&self, seat: SeatNo) -> Option<&SeatBook>
        ensures { option_copied result ≡ option_map (λ s. s.book) (seat_at (world_of self.now) seat) }
    {
        match self.state.post(seat.number()) {
            Some(post) => Some(&post.book),
            None => None,
        }
    }

    /// The message that the last entry addressed to the seat, without its LF; `None` exactly where there was none or the seat
    /// wasn't there. It takes no memory.
    pub fn last_message(&self, seat: SeatNo) -> Option<&LineText>
        ensures { some_to_list (option_copied result) ≡ last_said self.now.origin self.now.history seat }
    {
        let Some(post) = self.state.post(seat.number()) else {
            return None;
        };
        let joined = post.book.state().is_joined();
        heard(&self.said, seat, joined)
    }

    /// The entry at this place of the history; `None` exactly behind its end.
    pub fn entry_at(&self, place: u64) -> Option<&Entry>
        ensures { option_copied result ≡ slice_get self.now.history place }
    {
        self.history.get(place as usize)
    }

    /// The seat's state.
    pub fn state(&self, seat: SeatNo) -> SeatState
        requires { seat < length self.now.origin.seats }
        ensures { Some result ≡ option_map (λ s. s.book.state) (seat_at (world_of self.now) seat) }
    {
        self.post(seat).book.state()
    }

    /// The seat's count of lines.
    pub fn lines(&self, seat: SeatNo) -> u32
        requires { seat < length self.now.origin.seats }
        ensures { Some result ≡ option_map (λ s. s.book.lines) (seat_at (world_of self.now) seat) }
    {
        self.post(seat).book.lines()
    }

    /// How many lines were queued for the seat since its Join; 0 where it is Free.
    pub fn queued(&self, seat: SeatNo) -> u64
        requires { seat < length self.now.origin.seats }
        ensures { Some result ≡ option_map (λ s. s.queued) (seat_at (world_of self.now) seat) }
    {
        self.post(seat).queued
    }

    /// The least seat that is Joined and for which more than 4,194,304 bytes wait, the LF of each line counted; `None` exactly
    /// where there is none. Only the seats are walked, and none of the lines.
    pub fn over(&self) -> Option<SeatNo>
        ensures value { result ≡ over_of self.now.origin self.now.history }
        ensures joined { IfSome result (λ seat. is_joined (standing (seat_at (world_of self.now) seat)) ≡ true) }
        ensures seat { IfSome result (λ seat. seat < length self.now.origin.seats) }
    {
        self.state.over()
    }

    /// Whether a Cut of the seat stands in the history at this place or behind it, before which the seat was Joined with these
    /// pass numbers.
    pub fn cut_since(&self, place: u64, seat: SeatNo, reader: u64, writer: u64) -> bool
        requires { seat < length self.now.origin.seats }
        ensures { result ≡ is_cut_since self.now.origin self.now.history place seat reader writer }
    {
        any_since(&self.cuts, place, seat, reader, writer)
    }

    /// The lines of the seat's session that weren't taken, from the number `first` on, counted from 0
    /// at its Join. Each ends with LF.
    pub fn lines_for(&self, seat: SeatNo, first: u64) -> Result<Vec<LineText>, Memory>
        requires { seat < length self.now.origin.seats }
        ensures { IfOk result (λ v. Some v.items ≡ option_map (λ s. waiting first s.taken (session self.now.origin self.now.history seat))
            (seat_at (world_of self.now) seat)) }
    {
        let post = self.post(seat);
        lines_past(self.alloc, &post.mail, first.saturating_sub(post.taken))
    }

    /// The text of the lines of the seat's session that weren't taken, from the number `first` on, counted from 0
    /// at its Join, and how many they are. Each ends with LF. It is one piece of memory.
    pub fn text_for(&self, seat: SeatNo, first: u64) -> Result<(LineText, u64), Memory>
        requires { seat < length self.now.origin.seats }
        ensures text { IfOk result (λ r. Some r.0 ≡ option_map
            (λ s. flat_map (λ line. line) (waiting first s.taken (session self.now.origin self.now.history seat)))
            (seat_at (world_of self.now) seat)) }
        ensures count { IfOk result (λ r. Some r.1 ≡ option_map
            (λ s. length (waiting first s.taken (session self.now.origin self.now.history seat))) (seat_at (world_of self.now) seat)) }
    {
        let post = self.post(seat);
        text_past(self.alloc, &post.mail, first.saturating_sub(post.taken))
    }

    /// How many bytes the lines of the seat's session have that weren't taken, from the number `first` on, counted from 0 at its
    /// Join, the LF of each counted; `None`, where they are more than can be counted. It takes no memory, and these lines alone are walked.
    pub fn size_for(&self, seat: SeatNo, first: u64) -> Option<usize>
        requires { seat < length self.now.origin.seats }
        ensures size { IfSome result (λ n. Some n ≡ option_map
            (λ s. length (flat_map (λ line. line) (waiting first s.taken (session self.now.origin self.now.history seat))))
            (seat_at (world_of self.now) seat)) }
    {
        let post = self.post(seat);
        size_past(&post.mail, first.saturating_sub(post.taken))
    }

    /// Adds the lines of the seat's session that weren't taken, from the number `first` on, counted from 0 at its Join, to a
    /// text, each behind the tag. The answer is how many they are. Each ends with LF.
    pub fn add_lines_for(
        &self,
        seat: SeatNo,
        first: u64,
        tag: &[u8],
        text: &mut Vec<u8>,
    ) -> Result<u64, Memory>
        requires { seat < length self.now.origin.seats }
        ensures text { OnOk result (Some text.new.items ≡ option_map
            (λ s. text.old.items ++ flat_map (λ line. tag.now ++ line)
            (waiting first s.taken (session self.now.origin self.now.history seat))) (seat_at (world_of self.now) seat)) }
        ensures count { IfOk result (λ n. Some n ≡ option_map (λ s.
            length (waiting first s.taken (session self.now.origin self.now.history seat))) (seat_at (world_of self.now) seat)) }
    {
        let post = self.post(seat);
        add_past(&post.mail, first.saturating_sub(post.taken), tag, text)
    }
}

/// Nothing is staged then. Where nothing was, nothing is written: it has much room.
fn clear_staged(staged: &mut Option<Staged>)
    ensures { staged.new ≡ None }
{
    if staged.is_some() {
        *staged = None;
    }
}

fn is_taken(entry: &Entry) -> bool
    ensures { result ≡ is_taken_lem entry.now }
{
    matches!(entry, Entry::Taken { .. })
}

/// Makes places in the history and in the list of cuts: for an entry, and for those behind it that take no memory.
fn make_places(history: &mut Vec<Entry>, cuts: &mut Vec<SeatCut>) -> Result<(), Memory>
    ensures history { history.new.items ≡ history.old.items }
    ensures cuts { cuts.new.items ≡ cuts.old.items }
    ensures kept { vec_capacity history.old - vec_len history.old ≤ vec_capacity history.new - vec_len history.new }
    ensures kept_cuts { vec_capacity cuts.old - vec_len cuts.old ≤ vec_capacity cuts.new - vec_len cuts.new }
    ensures enough { OnOk result (67 ≤ vec_capacity history.new - vec_len history.new) }
    ensures enough_cuts { OnOk result (33 ≤ vec_capacity cuts.new - vec_len cuts.new) }
{
    if history.reserve(PLACES).is_err() {
        return Err(Memory);
    }
    if cuts.reserve(CUT_PLACES).is_err() {
        return Err(Memory);
    }
    Ok(())
}

/// The lines but for the first `gone`, each with its LF.
fn lines_past(alloc: Global, mail: &Mail, gone: u64) -> Result<Vec<LineText>, Memory>
    ensures { IfOk result (λ v. v.items ≡ map (λ line. line ++ 10 ∷ []) (drop gone mail.now.lines)) }
{
    if gone >= mail.len() as u64 {
        return Ok(Vec::new(alloc));
    }
    mail.lines_from(alloc, gone as usize)
}

/// The text of the lines but for the first `gone`, and how many they are.
fn text_past(alloc: Global, mail: &Mail, gone: u64) -> Result<(LineText, u64), Memory>
    ensures text { IfOk result (λ r. r.0 ≡ text_of (drop gone mail.now.lines)) }
    ensures count { IfOk result (λ r. r.1 ≡ length (drop gone mail.now.lines)) }
{
    let count = mail.len();
    if gone >= count as u64 {
        return Ok((LineText::new(Vec::new(alloc)), 0));
    }
    let text = mail.text_from(alloc, gone as usize)?;
    Ok((text, count as u64 - gone))
}

/// How many bytes the lines but for the first `gone` have, the LF of each counted.
fn size_past(mail: &Mail, gone: u64) -> Option<usize>
    ensures { IfSome result (λ n. n ≡ length (text_of (drop gone mail.now.lines))) }
{
    if gone >= mail.len() as u64 {
        return Some(0);
    }
    mail.size_from(gone as usize)
}

/// Adds the lines but for the first `gone` to the text, each behind the tag and with its LF. The answer is how many they are.
fn add_past(mail: &Mail, gone: u64, tag: &[u8], text: &mut Vec<u8>) -> Result<u64, Memory>
    ensures text { OnOk result (text.new.items ≡ text.old.items ++ tagged_text tag.now (drop gone mail.now.lines)) }
    ensures count { IfOk result (λ n. n ≡ length (drop gone mail.now.lines)) }
{
    let count = mail.len() as u64;
    if gone >= count {
        return Ok(0);
    }
    mail.add_to(gone as usize, tag, text)?;
    Ok(count - gone)
}
