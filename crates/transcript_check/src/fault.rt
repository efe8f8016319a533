//! Why a check gives no answer.
use campaign_file::BadCampaign;

/// Why a check gives no answer. `second` tells which pair of a campaign and a script it is about: it is false but for the second one of
/// `compare`.
#[derive(Drop)]
pub enum CheckFault {
    /// The campaign text is off the format: its first breach.
    Bad { second: bool, fault: BadCampaign },
    /// The script's line of this number, from 1, isn't a seat's number, one space and a command of at most 4,096 bytes, or the campaign has
    /// no such seat.
    BadLine { second: bool, line: u64 },
    /// A line of the script has more than 4,112 bytes, or there are more than 1,000,000 lines.
    TooLarge { second: bool },
    /// Want of memory.
    Memory,
}
