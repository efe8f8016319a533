//! Tags: short names of maps, types, macros, properties and tokens.
ghost use Rattle.std.specs.Prelude.{◌≡◌, ◌==◌, ◌≤◌, ◌↔◌, ℕ, length, List, Some, false, true, IfOk, IsErr, IsOk, IsTrue, refl};
ghost use Rattle.std.specs.Result.{result_ok};
ghost use Rattle.std.specs.List.{list_all};
ghost use Rattle.std.specs.Ordering.{nat_cmp};
ghost use Rattle.std.specs.Cmp.{partial_equiv_from_equiv};
ghost use Rattle.std.specs.Cmp.Lexicographic.{pointwise, slice_cmp, nat_list_eq_equiv, nat_list_cmp_total, texts_po, texts_ties};
ghost use Rattle.names.specs.Tag.{is_tag as is_tag_lem, is_tag_byte as is_tag_byte_lem, padded as padded_lem, tag_of};

use std::cmp::Ordering;
use std::fmt;
use std::marker::Model;

/// How many bytes a tag has at most.
const LIMIT: usize = 24;

/// The bytes are no tag.
#[derive(Clone, Copy, Debug, PartialEq, Eq)]
pub struct BadTag;

/// A short name: 1 to 24 bytes of `a` to `z`, `0` to `9` and `_`. Tags are ordered by their bytes.
#[derive(Clone, Copy)]
pub struct Tag {
    // the bytes, and then zeros
    cells: [u8; 24],
    size: usize,
}

impl Model for Tag {
    ghost use Rattle.std.specs.Prelude.{◌≡◌, ◌≤◌, ℕ, List, true, length, take};
    ghost use Rattle.names.specs.Tag.{is_tag, padded};

    ghost Value = { List ℕ };

    ghost view = { λ t. take t.size t.cells };

    ghost invariant = { λ t. (is_tag (take t.size t.cells) ≡ true) × (length (take t.size t.cells) ≡ t.size)
        × (padded (take t.size t.cells) ≡ t.cells) };

    ghost inverse = { λ bytes. record { cells = padded bytes; size = length bytes } };

    ghost inverse_ok = { λ t h i. record { cells = h.2 i; size = h.1 i } };
}

impl Tag {
    /// The tag of these bytes; `BadTag` exactly where they are no tag.
    #[tactic(auto, unfolding(crate::specs::Tag::tag_of))]
    pub fn read(bytes: &[u8]) -> Result<Tag, BadTag>
        ensures value { result_ok result ≡ tag_of bytes.now }
        ensures ok { IfOk result (λ tag. tag ≡ bytes.now) }
        ensures good { IsOk result ↔ IsTrue (is_tag_lem bytes.now) }
        ensures bad { IsErr result ↔ (is_tag_lem bytes.now ≡ false) }
    {
        if !is_tag(bytes) {
            return Err(BadTag);
        }
        Ok(Tag {
            cells: padded(bytes),
            size: bytes.len(),
        })
    }

    /// The bytes.
    pub fn bytes(&self) -> &[u8]
        ensures value { result.now ≡ self.now }
        ensures grammar { IsTrue (is_tag_lem self.now) }
    {
        &self.cells[..self.size]
    }

    /// The bytes as a text: they are ASCII.
    #[tactic(auto, using(crate::proofs::TagBytes::tag_is_utf8))]
    pub fn text(&self) -> &str
        ensures { result.now ≡ self.now }
    {
        match str::from_utf8(self.bytes()) {
            Ok(text) => text,
            Err(_) => unreachable!(),
        }
    }
}

/// Whether the bytes are a tag.
#[tactic(auto, unfolding(crate::specs::Tag::is_tag))]
fn is_tag(bytes: &[u8]) -> bool
    ensures value { result ≡ is_tag_lem bytes.now }
    ensures limit { IsTrue result → length bytes.now ≤ 24 }
{
    1 <= bytes.len() && bytes.len() <= LIMIT && are_tag_bytes(bytes)
}

fn are_tag_bytes(bytes: &[u8]) -> bool
    ensures { result ≡ list_all is_tag_byte_lem bytes.now }
{
    bytes.iter().all(|byte| is_tag_byte(*byte))
}

fn is_tag_byte(byte: u8) -> bool
    ensures { result ≡ is_tag_byte_lem byte }
{
    byte.is_ascii_lowercase() || byte.is_ascii_digit() || byte == b'_'
}

/// The bytes, and then zeros.
fn padded(bytes: &[u8]) -> [u8; 24]
    requires { length bytes.now ≤ 24 }
    ensures { result ≡ padded_lem bytes.now }
{
    let mut cells = [0; 24];
    cells[..bytes.len()].copy_from_slice(bytes);
    cells
}

impl fmt::Debug for Tag {
    fn fmt<W: fmt::Write>(&self, f: &mut fmt::Formatter<W>) -> fmt::Result {
        f.write_str(self.text())
    }
}

impl fmt::Display for Tag {
    ghost output = { λ t. Some t };

    fn fmt<W: fmt::Write>(&self, f: &mut fmt::Formatter<W>) -> fmt::Result {
        f.write_str(self.text())
    }
}

impl PartialEq for Tag {
    ghost eq = { pointwise ◌==◌ };

    ghost laws = { partial_equiv_from_equiv nat_list_eq_equiv };

    fn eq(&self, other: &Tag) -> bool {
        self.bytes() == other.bytes()
    }
}

impl Eq for Tag {
    ghost laws = { nat_list_eq_equiv };
}

impl PartialOrd for Tag {
    ghost partial_cmp = { λ s t. Some (slice_cmp nat_cmp s t) };

    ghost laws = { texts_po };

    fn partial_cmp(&self, other: &Tag) -> Option<Ordering> {
        Some(self.cmp(other))
    }
}

impl Ord for Tag {
    ghost cmp = { slice_cmp nat_cmp };

    ghost total = { nat_list_cmp_total };

    ghost matches_partial_cmp = { λ s t. refl };

    ghost matches_eq = { texts_ties };

    fn cmp(&self, other: &Tag) -> Ordering {
        self.bytes().cmp(&other.bytes())
    }
}
