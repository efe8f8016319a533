//! The tags that a drill names.
ghost use Rattle.std.specs.Prelude.{◌≡◌, ◌<◌, codes, IsTrue, IfOk};
ghost use Rattle.names.specs.Tag.{is_tag};
ghost use Rattle.drill.specs.Numbered.{tag_at};

use names::{Memory, Tag};
use std::alloc::Global;

/// The tag of these bytes, which are one.
fn tag(bytes: &[u8]) -> Tag
    requires { IsTrue (is_tag bytes.now) }
    ensures { result ≡ bytes.now }
{
    match Tag::read(bytes) {
        Ok(tag) => tag,
        Err(_) => unreachable!(),
    }
}

/// The map's name.
#[tactic(auto, unfolding(names::specs::Tag::is_tag))]
pub(crate) fn map_name() -> Tag
    ensures { result ≡ codes "drill" }
{
    tag(b"drill")
}

/// The light type.
#[tactic(auto, unfolding(names::specs::Tag::is_tag))]
pub(crate) fn torch() -> Tag
    ensures { result ≡ codes "torch" }
{
    tag(b"torch")
}

/// A sight type, by which one sees in the dark.
#[tactic(auto, unfolding(names::specs::Tag::is_tag))]
pub(crate) fn dark() -> Tag
    ensures { result ≡ codes "dark" }
{
    tag(b"dark")
}

/// A sight type.
#[tactic(auto, unfolding(names::specs::Tag::is_tag))]
pub(crate) fn human() -> Tag
    ensures { result ≡ codes "human" }
{
    tag(b"human")
}

/// The name of a token's property.
#[tactic(auto, unfolding(names::specs::Tag::is_tag))]
pub(crate) fn hit_points() -> Tag
    ensures { result ≡ codes "hp" }
{
    tag(b"hp")
}

/// The tag of the token of that number.
#[tactic(auto, using(crate::proofs::TagLemmas::tag_is_tag))]
pub(crate) fn tag_of(alloc: Global, number: u32) -> Result<Tag, Memory>
    requires { number < 40 }
    ensures { IfOk result (λ tag. tag ≡ tag_at number) }
{
    let Ok(text) = format!(in alloc; "t{number}") else {
        return Err(Memory);
    };
    match Tag::read(text.as_bytes()) {
        Ok(tag) => Ok(tag),
        Err(_) => unreachable!(),
    }
}
