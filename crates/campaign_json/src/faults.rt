//! Why a text is no campaign.
ghost use Rattle.std.specs.Prelude.{◌≡◌, ◌++◌, [], IfOk, OnOk, string_bytes};
ghost use Rattle.campaign_json.specs.declared.faults.FileFault.TheVariants.{Memory as no_memory};
ghost use Rattle.campaign_json.specs.Reading.{pointer, escaped as escaped_lem, escaped_letter, IsBreach, LiesUnder, LiesIn};
ghost use Rattle.std.specs.Fmt.{decimal};

use names::{Memory, Text};
use std::alloc::Global;

/// The rules of the campaign text. The rules and their order are this project's own.
#[derive(Clone, Copy, Debug, PartialEq, Eq)]
pub enum Rule {
    /// The text is no JSON (RFC 8259) as `serde_json` reads it.
    Json,
    /// A key isn't there.
    Missing,
    /// An object has a key too many.
    Unknown,
    /// A value is of another kind of JSON, or a number that isn't whole.
    Kind,
    /// A number, a length of text or a number of items is off its range, or a macro's dice are off their limits.
    Range,
    /// A text is off its grammar.
    Form,
    /// An item, a name or an id stood before.
    Twice,
    /// A name or a place doesn't fit what was read before.
    Cross,
}

/// The first rule that a text breaks, and where.
#[derive(Drop)]
pub struct BadCampaign {
    /// The path of the value, as a JSON pointer (RFC 6901): empty for the whole text, of the key for a
    /// missing one, of the object for a key too many.
    pub path: Text,
    /// The rule.
    pub rule: Rule,
}

/// Why reading gave no campaign.
#[derive(Drop)]
pub enum FileFault {
    /// The text is no campaign.
    Bad(BadCampaign),
    /// Want of memory.
    Memory,
}

impl From<Memory> for FileFault {
    ghost from_gives = { λ _ fault. fault ≡ no_memory };

    fn from(_memory: Memory) -> FileFault {
        FileFault::Memory
    }
}

/// A breach of the rule by the value itself.
pub fn broken(alloc: Global, rule: Rule) -> FileFault
    ensures { IsBreach (record { path = []; rule = rule }) result }
{
    match Text::copy(alloc, "") {
        Ok(path) => FileFault::Bad(BadCampaign { path, rule }),
        Err(_) => FileFault::Memory,
    }
}

/// A breach of the rule by the part at the token, a key or a place.
pub fn broken_at(alloc: Global, token: &str, rule: Rule) -> FileFault
    ensures { IsBreach (record { path = pointer token.now []; rule = rule }) result }
{
    breach_in(alloc, token, "", rule)
}

/// A breach of the rule at the path within the part at the token.
fn breach_in(alloc: Global, token: &str, path: &str, rule: Rule) -> FileFault
    ensures { IsBreach (record { path = pointer token.now path.now; rule = rule }) result }
{
    let Ok(path) = format!(in alloc; "/{token}{path}") else {
        return FileFault::Memory;
    };
    match Text::new(path) {
        Ok(path) => FileFault::Bad(BadCampaign { path, rule }),
        Err(_) => FileFault::Memory,
    }
}

/// A breach of the rule by the item of a list at the place.
pub fn broken_item(alloc: Global, place: usize, rule: Rule) -> FileFault
    ensures { IsBreach (record { path = pointer (decimal place) []; rule = rule }) result }
{
    match format!(in alloc; "{place}") {
        Ok(token) => broken_at(alloc, token.as_str(), rule),
        Err(_) => FileFault::Memory,
    }
}

impl FileFault {
    /// The fault of a part, as one of the value that has the part at the key.
    pub fn under_key(self, alloc: Global, key: &str) -> FileFault
        ensures { LiesUnder key.now self result }
    {
        match self {
            FileFault::Bad(bad) => breach_in(alloc, key, bad.path.text(), bad.rule),
            FileFault::Memory => FileFault::Memory,
        }
    }

    /// The fault of an item, as one of the list that has the item at the place.
    pub fn under_place(self, alloc: Global, place: usize) -> FileFault
        ensures { LiesUnder (decimal place) self result }
    {
        match format!(in alloc; "{place}") {
            Ok(token) => self.under_key(alloc, token.as_str()),
            Err(_) => FileFault::Memory,
        }
    }

    /// The fault of an item of the list at the key, as one of the value that has the list.
    pub fn under_item(self, alloc: Global, key: &str, place: usize) -> FileFault
        ensures { LiesIn key.now (decimal place) self result }
    {
        match format!(in alloc; "{place}") {
            Ok(token) => self.under_both(alloc, key, token.as_str()),
            Err(_) => FileFault::Memory,
        }
    }

    /// The fault of a member of the object at the key, as one of the value that has the object.
    pub fn under_member(self, alloc: Global, key: &str, name: &str) -> FileFault
        ensures { LiesIn key.now (escaped_lem name.now) self result }
    {
        match escaped(alloc, name) {
            Ok(token) => self.under_both(alloc, key, token.as_str()),
            Err(Memory) => FileFault::Memory,
        }
    }

    fn under_both(self, alloc: Global, key: &str, token: &str) -> FileFault
        ensures { LiesIn key.now token.now self result }
    {
        match self {
            FileFault::Bad(bad) => breach_within(alloc, key, token, bad.path.text(), bad.rule),
            FileFault::Memory => FileFault::Memory,
        }
    }
}

/// A breach of the rule at the path within the part at the token of the part at the key.
fn breach_within(alloc: Global, key: &str, token: &str, path: &str, rule: Rule) -> FileFault
    ensures { IsBreach (record { path = pointer key.now (pointer token.now path.now); rule = rule }) result }
{
    match format!(in alloc; "/{token}{path}") {
        Ok(inner) => breach_in(alloc, key, inner.as_str(), rule),
        Err(_) => FileFault::Memory,
    }
}

/// A key as a token of a JSON pointer.
fn escaped(alloc: Global, key: &str) -> Result<String, Memory>
    ensures { IfOk result (λ token. string_bytes token ≡ escaped_lem key.now) }
{
    let mut token = String::new(alloc);
    for letter in key.chars() {
        push_escaped(&mut token, letter)?;
    }
    Ok(token)
}

fn push_escaped(token: &mut String, letter: char) -> Result<(), Memory>
    ensures { OnOk result (string_bytes token.new ≡ string_bytes token.old ++ escaped_letter letter) }
{
    let pushed = match letter {
        '~' => token.push_str("~0"),
        '/' => token.push_str("~1"),
        _ => token.push(letter),
    };
    match pushed {
        Ok(()) => Ok(()),
        Err(_) => Err(Memory),
    }
}
