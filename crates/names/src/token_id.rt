//! Ids of tokens.
ghost use Rattle.std.specs.Prelude.{◌≡◌, ◌≢◌, ℕ, List, IfOk, OnErr, Some, refl};
ghost use Rattle.std.specs.Result.{result_ok};
ghost use Rattle.std.proofs.Common.{rules};
ghost use Rattle.std.specs.Cmp.{partial_order_from_own_ties};
ghost use Rattle.std.specs.Cmp.Rules.{comparing};
ghost use Rattle.std.specs.Ordering.{as_partial_cmp};
ghost use Rattle.std.specs.List.{position};
ghost use Rattle.names.specs.declared.token_id.TokenId.{TokenId};
ghost use Rattle.names.specs.TokenId.{id_cmp, id_eq, id_of, id_of_parts, id_text, is_colon, maker_of, IsTokenId};

use crate::memory::Memory;
use crate::seat_no::SeatNo;
use crate::tags::{BadTag, Tag};
use crate::texts::Text;
use std::alloc::Global;
use std::cmp::Ordering;

/// A token's id: the seat that made it, and a tag that this seat never used before. Ids are
/// ordered by maker, then tag.
#[derive(Clone, Copy, Debug)]
pub struct TokenId {
    pub maker: SeatNo,
    pub tag: Tag,
}

impl TokenId {
    /// The id whose text is these bytes: the maker in decimal without leading zeros, a colon, the
    /// tag. `BadTag` exactly where no id has this text.
    #[tactic(auto, using(crate::proofs::IdTexts::text_of_read, crate::proofs::IdTexts::none_read))]
    pub fn read(bytes: &[u8]) -> Result<TokenId, BadTag>
        ensures value { result_ok result ≡ id_of bytes.now }
        ensures text { IfOk result (λ id. id_text id ≡ bytes.now) }
        ensures valid { IfOk result IsTokenId }
        ensures bad { OnErr result ((id : TokenId) → IsTokenId id → id_text id ≢ bytes.now) }
    {
        id_of(bytes).ok_or(BadTag)
    }

    /// The id's text, or `Memory` for want of memory.
    #[tactic(auto, unfolding(crate::specs::TokenId::id_text))]
    pub fn text(&self, alloc: Global) -> Result<Text, Memory>
        ensures { IfOk result (λ text. text ≡ id_text self.now) }
    {
        let text = format!(in alloc; "{}:{}", self.maker.number(), self.tag)?;
        Text::new(text)
    }
}

impl PartialEq for TokenId {
    ghost eq = { id_eq };

    ghost laws = { Prim.search (comparing, rules) };

    fn eq(&self, other: &TokenId) -> bool {
        self.maker == other.maker && self.tag == other.tag
    }
}

impl Eq for TokenId {
    ghost laws = { Prim.search (comparing, rules) };
}

impl PartialOrd for TokenId {
    ghost partial_cmp = { as_partial_cmp id_cmp };

    ghost laws = { partial_order_from_own_ties (Prim.search (comparing, rules)) (Prim.search (comparing, rules)) };

    fn partial_cmp(&self, other: &TokenId) -> Option<Ordering> {
        Some(self.cmp(other))
    }
}

impl Ord for TokenId {
    ghost cmp = { id_cmp };

    ghost total = { Prim.search (comparing, rules) };

    ghost matches_partial_cmp = { Prim.search (comparing, rules) };

    ghost matches_eq = { Prim.search (comparing, rules) };

    fn cmp(&self, other: &TokenId) -> Ordering {
        self.maker.cmp(&other.maker).then(self.tag.cmp(&other.tag))
    }
}

/// The id whose text these bytes are.
#[tactic(auto, using(crate::proofs::IdTexts::split_some, crate::proofs::IdTexts::split_none))]
fn id_of(bytes: &[u8]) -> Option<TokenId>
    ensures { result ≡ id_of bytes.now }
{
    match colon_place(bytes) {
        Some(place) => id_of_parts(&bytes[..place], &bytes[place + 1..]),
        None => None,
    }
}

/// Where the first colon is.
fn colon_place(bytes: &[u8]) -> Option<usize>
    ensures { result ≡ position is_colon bytes.now }
{
    bytes.iter().position(|byte| *byte == b':')
}

#[tactic(auto, unfolding(crate::specs::TokenId::id_of_parts))]
fn id_of_parts(maker: &[u8], tag: &[u8]) -> Option<TokenId>
    ensures { result ≡ id_of_parts maker.now tag.now }
{
    let Ok(tag) = Tag::read(tag) else {
        return None;
    };
    match maker_of(maker) {
        Some(maker) => Some(TokenId { maker, tag }),
        None => None,
    }
}

/// The seat's number that these bytes write in decimal.
#[tactic(auto, unfolding(crate::specs::TokenId::maker_of))]
fn maker_of(digits: &[u8]) -> Option<SeatNo>
    ensures { result ≡ maker_of digits.now }
{
    match digits {
        [ones @ b'0'..=b'9'] => SeatNo::new(*ones - b'0'),
        [tens @ b'1'..=b'9', ones @ b'0'..=b'9'] => {
            SeatNo::new(10 * (*tens - b'0') + (*ones - b'0'))
        }
        _ => None,
    }
}
