//! The formats of the campaign text.
ghost use Rattle.std.specs.Prelude.{◌≡◌};
ghost use Rattle.campaign_json.specs.Kinds.{format_number};

/// The formats of the campaign text. Both are read, and the second is written.
#[derive(Clone, Copy, Debug, PartialEq, Eq)]
pub enum Format {
    /// Format 1: no map has a trail, and no light type is a darkness.
    First,
    /// Format 2: each map says whether it has a trail, and a light type may be a darkness.
    Second,
}

impl Format {
    /// The number that the text gives its format.
    pub fn number(self) -> u8
        ensures { result ≡ format_number self }
    {
        match self {
            Format::First => 1,
            Format::Second => 2,
        }
    }
}
