//! The entry of a script line.
ghost use Rattle.std.specs.Prelude.{◌≡◌, ◌<◌, ◌≤◌, ◌==◌, ◌-◌, drop, length, IfOk, Ok, Some};
ghost use Rattle.command_json.specs.Commands.{command_of};
ghost use Rattle.campaign_law.specs.Law.{world_of};
ghost use Rattle.campaign_law.specs.Seat.{was_joined};
ghost use Rattle.campaign_law.specs.World.{seat_at};
ghost use Rattle.script_play.specs.Script.{entry_of as entry_of_lem, entry_of_line as entry_of_line_lem, joining_key as joining_key_lem, key_for};
ghost use Rattle.campaign_law.specs.Hellos.{hello_part};

use campaign_core::Campaign;
use campaign_law::Entry;
use command_json::{Command, LineFault, read_line};
use line_io::split_script_line;
use names::{LineText, Memory, SeatNo, Text};
use seats::SeatState;
use std::alloc::Global;
use topology::Eye;

/// The entry of a script line: a good `hello` with the number of its own seat, while the seat isn't Joined, is a Join with that number as
/// both pass numbers; every other line is a Line. `None` exactly where the line isn't a seat's number, one space and a command, or the
/// campaign, which has so many seats, has no such seat. `Memory` is want of memory.
#[tactic(auto, using(crate::proofs::EntryLines::seats_of_replay))]
pub fn entry_of_line<E: Eye + Drop>(
    alloc: Global,
    campaign: &Campaign<E>,
    seats: u8,
    line: LineText,
) -> Result<Option<Entry>, Memory>
    requires { seats ≡ length campaign.now.origin.seats }
    ensures { IfOk result (λ entry. entry ≡ entry_of_line_lem (world_of campaign.now) line) }
{
    let Some((seat, command)) = split_script_line(line.bytes()) else {
        return Ok(None);
    };
    if seat.number() >= seats {
        return Ok(None);
    }
    let front = length_before(line.bytes(), command);
    let entry = entry_of(alloc, campaign, seat, line, front)?;
    Ok(Some(entry))
}

// How many bytes of the line stand before the command.
fn length_before(line: &[u8], command: &[u8]) -> usize
    requires { length command.now ≤ length line.now }
    ensures { result ≡ length line.now - length command.now }
{
    line.len() - command.len()
}

// The entry of the command that stands behind so many bytes of the line.
fn entry_of<E: Eye + Drop>(
    alloc: Global,
    campaign: &Campaign<E>,
    seat: SeatNo,
    line: LineText,
    front: usize,
) -> Result<Entry, Memory>
    requires seat { seat < length campaign.now.origin.seats }
    requires front { front ≤ length line }
    ensures { IfOk result (λ entry. entry ≡ entry_of_lem (world_of campaign.now) seat (drop front line)) }
{
    match joining_key(alloc, campaign, seat, &line.bytes()[front..])? {
        Some(key) => Ok(Entry::Join {
            seat,
            key,
            reader: u64::from(seat.number()),
            writer: u64::from(seat.number()),
        }),
        None => Ok(Entry::Line {
            seat,
            bytes: without_front(line, front),
        }),
    }
}

// The line without so many bytes at its front. It takes no memory.
fn without_front(line: LineText, front: usize) -> LineText
    requires { front ≤ length line }
    ensures { result ≡ drop front line }
{
    let mut bytes = line.into_bytes();
    drop(bytes.drain(..front));
    LineText::new(bytes)
}

// The key of a line by which the seat joins.
fn joining_key<E: Eye + Drop>(
    alloc: Global,
    campaign: &Campaign<E>,
    seat: SeatNo,
    bytes: &[u8],
) -> Result<Option<LineText>, Memory>
    requires { seat < length campaign.now.origin.seats }
    ensures { IfOk result (λ key. key ≡ joining_key_lem (world_of campaign.now) seat bytes.now) }
{
    if is_joined(campaign, seat) {
        return Ok(None);
    }
    own_hello(alloc, seat, bytes)
}

fn is_joined<E: Eye + Drop>(campaign: &Campaign<E>, seat: SeatNo) -> bool
    requires { seat < length campaign.now.origin.seats }
    ensures { result ≡ was_joined (seat_at (world_of campaign.now) seat) }
{
    matches!(campaign.state(seat), SeatState::Joined { .. })
}

// The key of a hello that names this seat.
fn own_hello(alloc: Global, seat: SeatNo, bytes: &[u8]) -> Result<Option<LineText>, Memory>
    ensures { IfOk result (λ key. key ≡ key_for seat (hello_part (command_of bytes.now (seat == 0)))) }
{
    match read_line(alloc, bytes, seat.number() == 0) {
        Ok(command) => own_key(alloc, seat, &command),
        Err(LineFault::Memory) => Err(Memory),
        Err(_) => Ok(None),
    }
}

fn own_key(alloc: Global, seat: SeatNo, command: &Command) -> Result<Option<LineText>, Memory>
    ensures { IfOk result (λ key. key ≡ key_for seat (hello_part (Ok command.now))) }
{
    match command {
        Command::Hello { seat: named, key } if named.number() == seat.number() => copied(
            alloc, key,
        ),
        _ => Ok(None),
    }
}

fn copied(alloc: Global, key: &Text) -> Result<Option<LineText>, Memory>
    ensures { IfOk result (λ copy. copy ≡ Some key.now) }
{
    Ok(Some(LineText::copy(alloc, key.text().as_bytes())?))
}
