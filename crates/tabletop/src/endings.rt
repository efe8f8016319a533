//! How a run of the program ends.
ghost use Rattle.std.specs.Prelude.{◌≡◌};
ghost use Rattle.tabletop.specs.Endings.{IsFixedLine, status_of as status_of_lem, rule_word as rule_word_lem};

use campaign_json::{BadCampaign, Rule};

/// How a run of the program ends, in the order of its statuses.
#[derive(Drop)]
pub enum Ended {
    /// The job was done, and the script was read to its end.
    Done,
    /// The words are none of the program's forms.
    Usage,
    /// The campaign's text is off the format: this is its first breach.
    BadCampaign(BadCampaign),
    /// The desk or the script failed, and counted it.
    ReadFault,
    /// The output failed, and counted it.
    WriteFault,
    /// Want of memory.
    Memory,
    /// The script's line of this number, from 1, is no line of a seat of the campaign.
    BadLine(u64),
    /// The campaign or the script is too large.
    TooLarge,
    /// The door failed, and counted it.
    DoorFault,
    /// The job was done: it found a difference, and printed where.
    Differs,
}

/// The program's status.
pub(crate) fn status_of(ended: &Ended) -> u8
    ensures { result ≡ status_of_lem ended.now }
{
    match ended {
        Ended::Done => 0,
        Ended::Usage => 2,
        Ended::BadCampaign(_) => 3,
        Ended::ReadFault => 4,
        Ended::WriteFault => 5,
        Ended::Memory => 6,
        Ended::BadLine(_) => 7,
        Ended::TooLarge => 8,
        Ended::DoorFault => 9,
        Ended::Differs => 14,
    }
}

/// The last line, where it is the same in each run.
pub(crate) fn fixed_line(ended: &Ended) -> &'static str
    ensures { IsFixedLine ended.now result.now }
{
    match ended {
        Ended::Usage => {
            "tabletop: usage: play FILE [--end], check FILE, drill N LINES, serve FILE PORT COUNT [--end], verify FILE SCRIPT SEAT TRANSCRIPT, compare FILE SCRIPT FILE SCRIPT SEAT\n"
        }
        Ended::ReadFault => "tabletop: read fault\n",
        Ended::Memory => "tabletop: out of memory\n",
        Ended::TooLarge => "tabletop: too large\n",
        Ended::DoorFault => "tabletop: door fault\n",
        Ended::Done
        | Ended::Differs
        | Ended::WriteFault
        | Ended::BadCampaign(_)
        | Ended::BadLine(_) => "",
    }
}

/// The name of a rule of the campaign text.
pub(crate) fn rule_word(rule: Rule) -> &'static str
    ensures { result.now ≡ rule_word_lem rule }
{
    match rule {
        Rule::Json => "json",
        Rule::Missing => "missing",
        Rule::Unknown => "unknown",
        Rule::Kind => "kind",
        Rule::Range => "range",
        Rule::Form => "form",
        Rule::Twice => "twice",
        Rule::Cross => "cross",
    }
}
