//! From a value to a line.
ghost use Rattle.std.specs.Prelude.{◌≡◌, ◌≤◌, false, Some, IfOk};
ghost use Rattle.serde_json.specs.Data.{depth};
ghost use Rattle.serde_json.specs.View.{view};
ghost use Rattle.serde_json.specs.Written.{compact_text, has_float};
ghost use Rattle.json_fields.specs.Lines.{IsOneLine};
ghost use Rattle.json_fields.specs.Values.{value_of};

use names::{LineText, Memory};
use serde_json::Value;
use std::alloc::Global;

/// The value as compact JSON, with each object's keys in the order of their bytes. A value nested at most 127 deep is
/// read back from its line.
#[tactic(auto, using(crate::proofs::Printed::one_line_printed, crate::proofs::Reading::value_of_some))]
pub fn compact_line(alloc: Global, value: &Value) -> Result<LineText, Memory>
    ensures text { IfOk result (λ line. has_float (view value.now) ≡ false
        → line ≡ compact_text (view value.now)) }
    ensures one_line { IfOk result (λ line. IsOneLine line) }
    ensures reads_back { IfOk result (λ line. depth (view value.now) ≤ 127
        → value_of line ≡ Some (view value.now)) }
{
    let bytes = value.to_vec(alloc)?;
    Ok(LineText::new(bytes))
}
