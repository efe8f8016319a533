//! The lines that an entry sends, put together behind their seats and written in one piece.
ghost use Rattle.std.specs.Prelude.{◌≡◌, ◌≤◌, ◌<◌, ◌==◌, ◌++◌, ◌∷◌, [], ◌*◌, ◌-◌, length, IfOk, OnOk};
ghost use Rattle.std.specs.Option.{option_to_list};
ghost use Rattle.line_io.specs.Counts.{CountRose};
ghost use Rattle.mails.specs.Texts.{tagged_text};
ghost use Rattle.campaign_law.specs.Law.{IsOpening, world_of};
ghost use Rattle.campaign_law.specs.World.{seat_at};
ghost use Rattle.script_play.specs.Counting.{with_sent};
ghost use Rattle.script_play.specs.Tagged.{tagged_lines};
ghost use Rattle.script_play.specs.Script.{taken_of, takens};
ghost use Rattle.script_play.specs.Sending.{waiting_lines, reply_to, lines_below, sent_below, Sends};
ghost use Rattle.script_play.specs.Played.{played};

use crate::run::Played;
use crate::seat_tag::SeatTag;
use crate::tally::Tally;
use campaign_core::Campaign;
use campaign_law::Entry;
use line_io::{Sink, write_whole};
use mails::add_line;
use names::{LineText, Memory, SeatNo};
use std::alloc::Global;
use topology::Eye;

/// Room for what most entries send, which is made at once.
const TEXT_ROOM: usize = 1_024;

/// Writes the direct reply to the seat that acted and the lines that wait for each seat, in ascending
/// order of seats and in one piece. The answer has a Taken for each seat with waiting lines.
pub fn send_all<O: Sink, E: Eye + Drop>(
    alloc: Global,
    campaign: &Campaign<E>,
    acting: SeatNo,
    reply: &Option<LineText>,
    out: &mut O,
    tally: &mut Tally,
) -> Result<Vec<Entry>, Played>
    ensures few { length campaign.now.origin.seats ≤ 33 }
    ensures takens { IfOk result (λ entries. entries.items ≡ takens (world_of campaign.now)) }
    ensures sends { Sends result (sent_below campaign.now acting reply.now (length campaign.now.origin.seats)) (O.written out.old)
        (O.written out.new) }
    ensures counted { OnOk result (tally.new ≡ with_sent tally.old
        (lines_below campaign.now acting reply.now (length campaign.now.origin.seats))) }
    ensures count { O.faults_of out.old ≤ O.faults_of out.new }
    ensures write_fault { played result ≡ Played.WriteFault → CountRose (O.faults_of out.old) (O.faults_of out.new) }
{
    let seats = campaign.seat_count();
    let mut text = Vec::new(alloc);
    let Ok(entries) = add_all(alloc, campaign, seats, acting, reply, &mut text, tally) else {
        return Err(Played::Memory);
    };
    match write_whole(out, &text) {
        Ok(()) => Ok(entries),
        Err(_) => Err(Played::WriteFault),
    }
}

// Adds what is sent to each seat to the text, in ascending order of seats. The answer has a Taken for each seat with
// waiting lines.
fn add_all<E: Eye + Drop>(
    alloc: Global,
    campaign: &Campaign<E>,
    seats: u8,
    acting: SeatNo,
    reply: &Option<LineText>,
    text: &mut Vec<u8>,
    tally: &mut Tally,
) -> Result<Vec<Entry>, Memory>
    requires seats { seats ≡ length campaign.now.origin.seats }
    requires few { seats ≤ 33 }
    requires opening { IsOpening campaign.now.origin }
    ensures takens { IfOk result (λ entries. entries.items ≡ takens (world_of campaign.now)) }
    ensures text { OnOk result (text.new.items ≡ text.old.items ++ sent_below campaign.now acting reply.now
        (length campaign.now.origin.seats)) }
    ensures counted { OnOk result (tally.new ≡ with_sent tally.old
        (lines_below campaign.now acting reply.now (length campaign.now.origin.seats))) }
{
    make_room(text)?;
    let mut entries = Vec::with_capacity(alloc, usize::from(seats))?;
    for number in 0..seats {
        add_next(campaign, number, acting, reply, text, tally, &mut entries)?;
    }
    Ok(entries)
}

/// The Takens that are due: one for each seat with waiting lines, of all that was queued since its Join, in ascending order of seats.
/// `Memory` is want of memory.
pub fn takens_due<E: Eye + Drop>(
    alloc: Global,
    campaign: &Campaign<E>,
) -> Result<Vec<Entry>, Memory>
    ensures { IfOk result (λ entries. entries.items ≡ takens (world_of campaign.now)) }
{
    let seats = campaign.seat_count();
    let Some(acting) = SeatNo::new(0) else {
        unreachable!();
    };
    let mut text = Vec::new(alloc);
    let mut tally = Tally::new();
    add_all(alloc, campaign, seats, acting, &None, &mut text, &mut tally)
}

fn make_room(text: &mut Vec<u8>) -> Result<(), Memory>
    ensures { text.new.items ≡ text.old.items }
{
    match text.reserve(TEXT_ROOM) {
        Ok(()) => Ok(()),
        Err(_) => Err(Memory),
    }
}

// What is sent to the seat of this number, whose Taken is added where lines wait.
fn add_next<E: Eye + Drop>(
    campaign: &Campaign<E>,
    number: u8,
    acting: SeatNo,
    reply: &Option<LineText>,
    text: &mut Vec<u8>,
    tally: &mut Tally,
    entries: &mut Vec<Entry>,
) -> Result<(), Memory>
    requires there { number < length campaign.now.origin.seats }
    requires known { number ≤ 32 }
    requires opening { IsOpening campaign.now.origin }
    ensures taken { OnOk result (entries.new.items ≡ entries.old.items ++ taken_of number (seat_at (world_of campaign.now) number)) }
    ensures text { OnOk result (text.new.items ≡ text.old.items ++ tagged_lines number
        (reply_to acting number reply.now ++ waiting_lines campaign.now number)) }
    ensures counted { OnOk result (tally.new ≡ with_sent tally.old
        (reply_to acting number reply.now ++ waiting_lines campaign.now number)) }
{
    let Some(seat) = SeatNo::new(number) else {
        unreachable!();
    };
    match add_seat(campaign, seat, acting, reply, text, tally)? {
        Some(taken) => Ok(entries.push(taken)?),
        None => Ok(()),
    }
}

// What is sent to one seat. The answer is the Taken, where lines wait.
fn add_seat<E: Eye + Drop>(
    campaign: &Campaign<E>,
    seat: SeatNo,
    acting: SeatNo,
    reply: &Option<LineText>,
    text: &mut Vec<u8>,
    tally: &mut Tally,
) -> Result<Option<Entry>, Memory>
    requires there { seat < length campaign.now.origin.seats }
    requires opening { IsOpening campaign.now.origin }
    ensures taken { IfOk result (λ entry. option_to_list entry ≡ taken_of seat (seat_at (world_of campaign.now) seat)) }
    ensures text { OnOk result (text.new.items ≡ text.old.items ++ tagged_lines seat
        (reply_to acting seat reply.now ++ waiting_lines campaign.now seat)) }
    ensures counted { OnOk result (tally.new ≡ with_sent tally.old (reply_to acting seat reply.now ++ waiting_lines campaign.now seat)) }
{
    let tag = SeatTag::new(seat);
    add_reply(seat, tag.bytes(), acting, reply, text, tally)?;
    let count = add_waiting(campaign, seat, tag.bytes(), text, tally)?;
    Ok(taken_entry(campaign, seat, count == 0))
}

// The direct reply, where this seat acted.
fn add_reply(
    seat: SeatNo,
    tag: &[u8],
    acting: SeatNo,
    reply: &Option<LineText>,
    text: &mut Vec<u8>,
    tally: &mut Tally,
) -> Result<(), Memory>
    ensures text { OnOk result (text.new.items ≡ text.old.items ++ tagged_text tag.now (reply_to acting seat reply.now)) }
    ensures counted { OnOk result (tally.new ≡ with_sent tally.old (reply_to acting seat reply.now)) }
{
    if acting.number() != seat.number() {
        return Ok(());
    }
    match reply {
        None => Ok(()),
        Some(line) => add_counted(tag, line.bytes(), text, tally),
    }
}

// A line that has no LF yet.
fn add_counted(tag: &[u8], line: &[u8], text: &mut Vec<u8>, tally: &mut Tally) -> Result<(), Memory>
    ensures text { OnOk result (text.new.items ≡ text.old.items ++ tagged_text tag.now (line.now ∷ [])) }
    ensures counted { OnOk result (tally.new ≡ with_sent tally.old (line.now ∷ [])) }
{
    tally.count_sent(1, line.len() as u64 + 1)?;
    add_line(tag, line, text)
}

// The lines that wait. The answer is how many they are.
fn add_waiting<E: Eye + Drop>(
    campaign: &Campaign<E>,
    seat: SeatNo,
    tag: &[u8],
    text: &mut Vec<u8>,
    tally: &mut Tally,
) -> Result<u64, Memory>
    requires { seat < length campaign.now.origin.seats }
    ensures count { IfOk result (λ n. n ≡ length (waiting_lines campaign.now seat)) }
    ensures text { OnOk result (text.new.items ≡ text.old.items ++ tagged_text tag.now (waiting_lines campaign.now seat)) }
    ensures counted { OnOk result (tally.new ≡ with_sent tally.old (waiting_lines campaign.now seat)) }
{
    let before = text.len();
    let count = add_lines(campaign, seat, tag, text)?;
    tally.count_sent(count, without_tags(text.len() - before, count, tag.len()))?;
    Ok(count)
}

// The lines that wait, which aren't counted yet.
fn add_lines<E: Eye + Drop>(
    campaign: &Campaign<E>,
    seat: SeatNo,
    tag: &[u8],
    text: &mut Vec<u8>,
) -> Result<u64, Memory>
    requires { seat < length campaign.now.origin.seats }
    ensures count { IfOk result (λ n. n ≡ length (waiting_lines campaign.now seat)) }
    ensures text { OnOk result (text.new.items ≡ text.old.items ++ tagged_text tag.now (waiting_lines campaign.now seat)) }
{
    campaign.add_lines_for(seat, 0, tag, text)
}

// How many of the bytes of so many lines aren't their tags'.
fn without_tags(bytes: usize, lines: u64, tag: usize) -> u64
    requires { lines * tag ≤ bytes }
    ensures { result ≡ bytes - lines * tag }
{
    bytes as u64 - lines * tag as u64
}

// The Taken, where lines wait.
fn taken_entry<E: Eye + Drop>(
    campaign: &Campaign<E>,
    seat: SeatNo,
    none_wait: bool,
) -> Option<Entry>
    requires there { seat < length campaign.now.origin.seats }
    requires opening { IsOpening campaign.now.origin }
    requires none { none_wait ≡ (length (waiting_lines campaign.now seat) == 0) }
    ensures { option_to_list result ≡ taken_of seat (seat_at (world_of campaign.now) seat) }
{
    if none_wait {
        return None;
    }
    Some(Entry::Taken {
        seat,
        count: campaign.queued(seat),
    })
}
