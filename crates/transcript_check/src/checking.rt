//! Transcripts against the player machine.
ghost use Rattle.std.specs.Prelude.{◌≡◌, ◌≤◌, false, IfOk, IfErr, IfNone, IfSome};
ghost use Rattle.transcript_check.specs.Checks.{Decides, DifferAt, IsFaultOf, IsVerdict};

use crate::fault::CheckFault;
use crate::tracing::trace_in;
use campaign_law::{sent_is_machine, traces_feed};
use names::SeatNo;
use player_machine::printed_bytes;
use std::alloc::Global;
use std::cmp::min;

/// Whether a transcript is what the player machine prints.
#[derive(Clone, Copy, Debug, PartialEq, Eq)]
pub enum Verdict {
    Equal,
    /// So many bytes at the front are equal, and no more.
    Differs { at: u64 },
}

/// The first place at which they differ or one has ended.
fn first_difference(bytes: &[u8], others: &[u8]) -> Option<usize>
    ensures none { IfNone result (bytes.now ≡ others.now) }
    ensures some { IfSome result (DifferAt bytes.now others.now) }
{
    let common = min(bytes.len(), others.len());
    for place in 0..common {
        if bytes[place] != others[place] {
            return Some(place);
        }
    }
    if bytes.len() == others.len() {
        None
    } else {
        Some(common)
    }
}

fn decided(transcript: &[u8], bytes: &[u8]) -> Verdict
    ensures { Decides transcript.now bytes.now result }
{
    match first_difference(transcript, bytes) {
        Some(at) => Verdict::Differs { at: at as u64 },
        None => Verdict::Equal,
    }
}

/// Whether a transcript is what the player machine prints over the player's trace of the history of a script that is played on the campaign
/// of a text: the bytes that the player was sent.
///
/// `Bad` exactly where the campaign text is off the format, with its first breach; else `BadLine` or `TooLarge` exactly where the script
/// stops so; else `Memory` for want of memory. `second` is false.
pub fn check_transcript(
    alloc: Global,
    campaign: &[u8],
    script: &[u8],
    seat: SeatNo,
    transcript: &[u8],
) -> Result<Verdict, CheckFault>
    requires player { 1 ≤ seat }
    ensures verdict { IfOk result (IsVerdict campaign.now script.now seat transcript.now) }
    ensures fault { IfErr result (IsFaultOf false campaign.now script.now) }
{
    let traced = trace_in(alloc, campaign, script, seat, false)?;
    traces_feed();
    sent_is_machine();
    match printed_bytes(alloc, traced.opening, &traced.items) {
        Ok(bytes) => Ok(decided(transcript, &bytes)),
        Err(_) => Err(CheckFault::Memory),
    }
}
