//! What `verify` and `compare` share: a player's seat, and a check that gives no answer.
ghost use Rattle.std.specs.Prelude.{◌≡◌, ◌≤◌};
ghost use Rattle.tabletop.specs.Answered.{ended_by_fault};

use crate::endings::Ended;
use names::SeatNo;
use transcript_check::CheckFault;

/// The seat of this number.
pub(crate) fn seat_of(number: u8) -> SeatNo
    requires { number ≤ 32 }
    ensures { result ≡ number }
{
    match SeatNo::new(number) {
        Some(seat) => seat,
        None => unreachable!(),
    }
}

/// As what a check that gives no answer ends the run.
pub(crate) fn unanswered(fault: CheckFault) -> Ended
    ensures told { result ≡ ended_by_fault fault }
    ensures no_read_fault { result ≡ Ended.ReadFault → ⊥ }
    ensures no_write_fault { result ≡ Ended.WriteFault → ⊥ }
{
    match fault {
        CheckFault::Bad { fault, .. } => Ended::BadCampaign(fault),
        CheckFault::BadLine { line, .. } => Ended::BadLine(line),
        CheckFault::TooLarge { .. } => Ended::TooLarge,
        CheckFault::Memory => Ended::Memory,
    }
}
