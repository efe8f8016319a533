//! The line of an object.
ghost use Rattle.std.specs.Prelude.{◌≡◌, ◌∷◌, IfOk, OnOk, map};
ghost use Rattle.json.specs.Token.{key as key_token};
ghost use Rattle.json.specs.Print.{print};
ghost use Rattle.serde_json.specs.Written.{compact_text};
ghost use Rattle.json_fields.specs.Lines.{IsOneLine};
ghost use Rattle.json_lines.specs.Added.{Adds};
ghost use Rattle.json_lines.specs.Objects.{plain_data, object_data};
ghost use Rattle.json_lines.specs.Tokens.{value_tokens};

use json::Writer;
use names::{LineText, Memory};
use std::alloc::{AllocError, Global};

/// Room for most lines, which is made at once.
const LINE_ROOM: usize = 128;

/// What a member may be.
#[derive(Clone, Copy, Debug, PartialEq, Eq, Drop)]
pub enum Plain<'t> {
    /// A text.
    Text(&'t str),
    /// A whole number.
    Whole(u64),
}

/// The compact JSON (RFC 8259) of the object with these members, in this order. `Memory` for want of memory.
#[tactic(auto, using(crate::proofs::Printed::object_text, crate::proofs::Printed::object_is_one_line))]
pub fn object_line(alloc: Global, members: &[(&str, Plain<'_>)]) -> Result<LineText, Memory>
    ensures text { IfOk result (λ line. line ≡ compact_text (object_data (map (λ member. (member.0.now, member.1)) members.now))) }
    ensures one_line { IfOk result (λ line. IsOneLine line) }
{
    let bytes = object_bytes(alloc, members)?;
    Ok(LineText::new(bytes))
}

fn object_bytes(alloc: Global, members: &[(&str, Plain<'_>)]) -> Result<Vec<u8>, AllocError>
    ensures { IfOk result (λ bytes. bytes.items ≡ print (value_tokens
        (object_data (map (λ member. (member.0.now, member.1)) members.now)))) }
{
    let mut writer = Writer::new(Vec::with_capacity(alloc, LINE_ROOM)?);
    writer.begin_object()?;
    for member in members {
        put_member(&mut writer, member.0, &member.1)?;
    }
    writer.end_object()?;
    Ok(writer.into_inner())
}

fn put_member(writer: &mut Writer, key: &str, value: &Plain<'_>) -> Result<(), AllocError>
    ensures { OnOk result (Adds writer.old writer.new (key_token key.now ∷ value_tokens (plain_data value.now))) }
{
    writer.key(key)?;
    match value {
        Plain::Text(text) => writer.string(text),
        Plain::Whole(number) => writer.u64(*number),
    }
}
