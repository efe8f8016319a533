//! The lines that tell a view and a change.
ghost use Rattle.std.specs.Prelude.{◌≡◌, IfOk};
ghost use Rattle.json.specs.Print.{print};
ghost use Rattle.serde_json.specs.Data.{object, member, no_members};
ghost use Rattle.serde_json.specs.Written.{compact_text};
ghost use Rattle.json_fields.specs.Lines.{IsOneLine};
ghost use Rattle.json_lines.specs.Tokens.{value_tokens};
ghost use Rattle.view_lines.specs.Lines.{full_line as full_text, change_line as change_text};

use crate::parts::Part;
use json::Writer;
use names::{LineText, Memory};
use std::alloc::{AllocError, Global};
use views::{Change, View};

/// Room for most change lines, which is made at once.
const LINE_ROOM: usize = 512;

fn line_bytes<P: Part>(alloc: Global, key: &str, part: &P) -> Result<Vec<u8>, AllocError>
    ensures { IfOk result (λ bytes. bytes.items ≡ print (value_tokens (object (member key.now (P.data_of part.now) no_members)))) }
{
    let mut writer = Writer::new(Vec::with_capacity(alloc, LINE_ROOM)?);
    writer.begin_object()?;
    writer.key(key)?;
    part.put(&mut writer, alloc)?;
    writer.end_object()?;
    Ok(writer.into_inner())
}

/// The line of an object with this one member.
#[tactic(auto, using(crate::proofs::Texts::member_text, crate::proofs::Texts::member_is_one_line))]
fn line_of<P: Part>(alloc: Global, key: &str, part: &P) -> Result<LineText, Memory>
    ensures text { IfOk result (λ line. line ≡ compact_text (object (member key.now (P.data_of part.now) no_members))) }
    ensures one_line { IfOk result (λ line. IsOneLine line) }
{
    let bytes = line_bytes(alloc, key, part)?;
    Ok(LineText::new(bytes))
}

/// The line that tells the whole view.
#[tactic(auto, unfolding(crate::specs::Lines::full_line))]
pub fn full_line(alloc: Global, seen: &View) -> Result<LineText, Memory>
    ensures text { IfOk result (λ line. line ≡ full_text seen.now) }
    ensures one_line { IfOk result (λ line. IsOneLine line) }
{
    line_of(alloc, "full", seen)
}

/// The line that tells the change.
#[tactic(auto, unfolding(crate::specs::Lines::change_line))]
pub fn change_line(alloc: Global, change: &Change) -> Result<LineText, Memory>
    ensures text { IfOk result (λ line. line ≡ change_text change.now) }
    ensures one_line { IfOk result (λ line. IsOneLine line) }
{
    line_of(alloc, "change", change)
}
