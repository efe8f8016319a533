//! The turn in which a session joins.
ghost use Rattle.std.specs.Prelude.{◌≡◌, ◌++◌, ◌∷◌, [], if◌then◌else◌, IfSome, IfNone, None, Some};
ghost use Rattle.campaign_law.specs.Outcome.{refusal_of_join};
ghost use Rattle.session.specs.Joined.{join_entries, Joins, TellsJoin};

use crate::Table;
use crate::hold::{Hold, is_read};
use campaign_law::{Answer, Entry};
use command_rules::Refusal;
use names::{LineText, SeatNo};
use seats::JoinRefusal;
use turn_lock::{Job, Object};

/// What became of a Join.
#[derive(Drop)]
pub(crate) enum Joined {
    /// It was accepted at this place of the history; whether the seat's lines are read.
    Seated {
        place: u64,
        reads: bool,
    },
    /// It was refused for this cause. The line tells it, and has no LF. The history up to the Join is so long.
    Refused {
        refusal: JoinRefusal,
        line: LineText,
        length: u64,
    },
    /// Want of memory. It wasn't entered.
    Memory,
}

/// Enters a Join.
#[derive(Drop)]
pub(crate) struct Joining {
    pub(crate) seat: SeatNo,
    pub(crate) key: Option<LineText>,
    pub(crate) reader: u64,
    pub(crate) writer: u64,
    pub(crate) entered: bool,
    pub(crate) joined: Joined,
}

impl Job<Table> for Joining {
    ghost entries = { λ before after. if after.entered then join_entries before.seat before.key before.reader before.writer else [] };

    ghost ran = { λ origin before found after left. Joins origin
        before.seat before.key before.reader before.writer found after.entered after.joined left };

    fn run(&mut self, campaign: &mut Table) {
        let place = campaign.length();
        let _seats = campaign.seat_count();
        self.entered = false;
        self.joined = Joined::Memory;
        let Some(key) = self.key.take() else {
            return;
        };
        let entry = Entry::Join {
            seat: self.seat,
            key,
            reader: self.reader,
            writer: self.writer,
        };
        let Ok(answer) = campaign.step(entry) else {
            return;
        };
        self.entered = true;
        if let Some((refusal, line)) = refused(answer) {
            self.joined = Joined::Refused {
                refusal,
                line,
                length: campaign.length(),
            };
            return;
        }
        let hold = Hold {
            seat: self.seat,
            place,
            reader: self.reader,
            writer: self.writer,
        };
        self.joined = Joined::Seated {
            place,
            reads: is_read(campaign, &hold),
        };
    }
}

// The cause for which a Join was refused, and the line that tells it.
fn refused(answer: Answer) -> Option<(JoinRefusal, LineText)>
    requires { TellsJoin answer }
    ensures accepted { IfNone result (answer.refusal ≡ None) }
    ensures refused { IfSome result (λ r. (answer.refusal ≡ Some (refusal_of_join r.0)) × (answer.line ≡ Some r.1)) }
{
    let Answer {
        refusal,
        taken: _,
        line,
    } = answer;
    let refusal = refusal?;
    let Some(line) = line else {
        unreachable!();
    };
    match join_refusal(&refusal) {
        Some(refusal) => Some((refusal, line)),
        None => unreachable!(),
    }
}

fn join_refusal(refusal: &Refusal) -> Option<JoinRefusal>
    ensures some { IfSome result (λ r. refusal.now ≡ refusal_of_join r) }
    ensures none { IfNone result ((r : JoinRefusal) → refusal.now ≡ refusal_of_join r → ⊥) }
{
    match refusal {
        Refusal::BadKey => Some(JoinRefusal::BadKey),
        Refusal::SeatTaken => Some(JoinRefusal::SeatTaken),
        Refusal::Spent => Some(JoinRefusal::Spent),
        Refusal::NoHello => Some(JoinRefusal::NoHello),
        _ => None,
    }
}
