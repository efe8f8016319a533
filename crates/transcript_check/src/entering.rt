//! What an entry is to a player's seat: the items of its trace.
ghost use Rattle.std.specs.Prelude.{◌≡◌, ◌<◌, ◌++◌, ◌∷◌, [], ◌&&◌, ◌||◌, true, length, map, IfOk, OnOk, IsTrue};
ghost use Rattle.std.specs.Option.{option_copied};
ghost use Rattle.command_json.specs.Commands.{command_of};
ghost use Rattle.player_view.specs.View.{view_of};
ghost use Rattle.campaign_core.specs.Said.{last_said};
ghost use Rattle.campaign_law.specs.Law.{world_of};
ghost use Rattle.campaign_law.specs.Outcome.{blank_entry as blank_entry_lem};
ghost use Rattle.campaign_law.specs.Player.{message, view_items};
ghost use Rattle.campaign_law.specs.Seat.{was_joined};
ghost use Rattle.campaign_law.specs.World.{seat_at, some_to_list};
ghost use Rattle.player_machine.specs.Items.{item_of, items_in};
ghost use Rattle.transcript_check.specs.Entering.{asks_full as asks_full_lem, is_join as is_join_lem, is_look_in, others_items, own_at, own_items, own_of as own_of_lem};

use campaign_core::Campaign;
use campaign_law::Entry;
use command_json::{Command, LineFault, read_line};
use names::{LineText, Memory, SeatNo};
use player_machine::TraceItem;
use std::alloc::Global;
use topology::Eye;
use views::{View, same_view};

// ---- before it is entered

/// What of an entry is its own seat's.
#[derive(Drop)]
pub(crate) struct Own {
    /// The entry without pass numbers.
    pub(crate) entry: Entry,
    /// If it is accepted, the seat joins.
    pub(crate) joins: bool,
    /// If it is accepted, the full line is due.
    pub(crate) asks: bool,
}

fn blank_entry(alloc: Global, entry: &Entry) -> Result<Entry, Memory>
    ensures { IfOk result (λ e. e ≡ blank_entry_lem entry.now) }
{
    match entry {
        Entry::Join { seat, key, .. } => Ok(Entry::Join {
            seat: *seat,
            key: LineText::copy(alloc, key.bytes())?,
            reader: 0,
            writer: 0,
        }),
        Entry::Line { seat, bytes } => Ok(Entry::Line {
            seat: *seat,
            bytes: LineText::copy(alloc, bytes.bytes())?,
        }),
        Entry::Leave { seat, drop } => Ok(Entry::Leave {
            seat: *seat,
            drop: *drop,
        }),
        Entry::Taken { seat, count } => Ok(Entry::Taken {
            seat: *seat,
            count: *count,
        }),
        Entry::Cut { seat } => Ok(Entry::Cut { seat: *seat }),
    }
}

fn is_look_line(alloc: Global, bytes: &[u8], gm: bool) -> Result<bool, Memory>
    ensures { IfOk result (λ look. look ≡ is_look_in (command_of bytes.now gm)) }
{
    match read_line(alloc, bytes, gm) {
        Ok(command) => Ok(matches!(command, Command::Look)),
        Err(LineFault::Memory) => Err(Memory),
        Err(_) => Ok(false),
    }
}

/// Whether the entry, if it is accepted, makes the full line due: a Join, or a Line that is a look.
fn asks_full(alloc: Global, entry: &Entry) -> Result<bool, Memory>
    ensures { IfOk result (λ asks. asks ≡ asks_full_lem entry.now) }
{
    match entry {
        Entry::Join { .. } => Ok(true),
        Entry::Line { seat, bytes } => is_look_line(alloc, bytes.bytes(), seat.number() == 0),
        Entry::Leave { .. } | Entry::Taken { .. } | Entry::Cut { .. } => Ok(false),
    }
}

fn is_join(entry: &Entry) -> bool
    ensures { result ≡ is_join_lem entry.now }
{
    matches!(entry, Entry::Join { .. })
}

fn own_of(alloc: Global, entry: &Entry) -> Result<Own, Memory>
    ensures { IfOk result (λ own. own ≡ own_of_lem entry.now) }
{
    Ok(Own {
        entry: blank_entry(alloc, entry)?,
        joins: is_join(entry),
        asks: asks_full(alloc, entry)?,
    })
}

/// What of the entry is the seat's; none, where it is another's.
pub(crate) fn own_part(alloc: Global, seat: SeatNo, entry: &Entry) -> Result<Option<Own>, Memory>
    ensures { IfOk result (λ own. own ≡ own_at seat entry.now) }
{
    if entry.seat().number() == seat.number() {
        Ok(Some(own_of(alloc, entry)?))
    } else {
        Ok(None)
    }
}

/// Whether the seat is Joined; not, where the campaign has no such seat.
pub(crate) fn is_joined<E: Eye + Drop>(campaign: &Campaign<E>, seat: SeatNo) -> bool
    ensures { result ≡ was_joined (seat_at (world_of campaign.now) seat) }
{
    match campaign.book(seat) {
        Some(book) => book.state().is_joined(),
        None => false,
    }
}

// ---- its items

fn push(items: &mut Vec<TraceItem>, item: TraceItem) -> Result<(), Memory>
    ensures { OnOk result (items_in items.new.items ≡ items_in items.old.items ++ item_of item ∷ []) }
{
    match items.push(item) {
        Ok(()) => Ok(()),
        Err(_) => Err(Memory),
    }
}

/// The message, if there is one.
fn add_message(
    items: &mut Vec<TraceItem>,
    alloc: Global,
    line: Option<&LineText>,
) -> Result<(), Memory>
    ensures { OnOk result (items_in items.new.items ≡ items_in items.old.items ++ map message (some_to_list (option_copied line.entry))) }
{
    match line {
        Some(line) => push(
            items,
            TraceItem::Message(LineText::copy(alloc, line.bytes())?),
        ),
        None => Ok(()),
    }
}

/// Whether the seat is Joined and is shown what it was last shown. No view is copied.
fn is_as_shown<E: Eye + Drop>(campaign: &Campaign<E>, seat: SeatNo, last: &View) -> bool
    requires { seat < length campaign.now.origin.seats }
    ensures { IsTrue result → last.now ≡ view_of (world_of campaign.now).scene seat }
{
    match campaign.view(seat) {
        Some(now) => same_view(last, now),
        None => false,
    }
}

/// What the seat is shown now, where it differs from what it was last shown or the full line is due.
fn add_view<E: Eye + Drop>(
    items: &mut Vec<TraceItem>,
    campaign: &Campaign<E>,
    seat: SeatNo,
    full: bool,
    last: &mut View,
) -> Result<(), Memory>
    requires { seat < length campaign.now.origin.seats }
    ensures items { OnOk result (items_in items.new.items ≡ items_in items.old.items
        ++ view_items full last.old (view_of (world_of campaign.now).scene seat)) }
    ensures last { OnOk result (last.new ≡ view_of (world_of campaign.now).scene seat) }
{
    if !full && is_as_shown(campaign, seat, last) {
        return Ok(());
    }
    let now = campaign.copy_view(seat)?;
    if full || !same_view(last, &now) {
        push(items, TraceItem::Seen(now.copy()?))?;
        *last = now;
    }
    Ok(())
}

/// The items of the seat's own entry, which was entered: whether the seat was Joined before, whether the entry was accepted, and the steps of
/// its move.
pub(crate) fn add_own_items<E: Eye + Drop>(
    items: &mut Vec<TraceItem>,
    campaign: &Campaign<E>,
    seat: SeatNo,
    own: Own,
    joined: bool,
    accepted: bool,
    steps: u32,
    last: &mut View,
) -> Result<(), Memory>
    requires there { (joined || (own.joins && accepted)) ≡ true → seat < length campaign.now.origin.seats }
    ensures items { OnOk result (items_in items.new.items ≡ items_in items.old.items
        ++ own_items own joined accepted steps last.old (view_of (world_of campaign.now).scene seat)) }
    ensures last { OnOk result ((joined || (own.joins && accepted)) ≡ true → last.new ≡ view_of (world_of campaign.now).scene seat) }
{
    let Own { entry, joins, asks } = own;
    push(items, TraceItem::Own { entry, steps })?;
    if joined || (joins && accepted) {
        add_view(items, campaign, seat, asks && accepted, last)
    } else {
        Ok(())
    }
}

/// The items of another seat's entry, which was entered: whether the seat was Joined before.
pub(crate) fn add_others_items<E: Eye + Drop>(
    items: &mut Vec<TraceItem>,
    alloc: Global,
    campaign: &Campaign<E>,
    seat: SeatNo,
    joined: bool,
    last: &mut View,
) -> Result<(), Memory>
    requires there { joined ≡ true → seat < length campaign.now.origin.seats }
    ensures items { OnOk result (items_in items.new.items ≡ items_in items.old.items
        ++ others_items joined (last_said campaign.now.origin campaign.now.history seat) last.old
        (view_of (world_of campaign.now).scene seat)) }
    ensures last { OnOk result (joined ≡ true → last.new ≡ view_of (world_of campaign.now).scene seat) }
{
    if joined {
        add_message(items, alloc, campaign.last_message(seat))?;
        add_view(items, campaign, seat, false, last)
    } else {
        Ok(())
    }
}
