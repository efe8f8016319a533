//! From bytes to a value.
ghost use Rattle.std.specs.Prelude.{◌≡◌, Some, None, Err, IfOk};
ghost use Rattle.serde_json.specs.View.{view};
ghost use Rattle.json_fields.specs.Order.{HasRisingKeys};
ghost use Rattle.json_fields.specs.Values.{value_of};

use serde_json::Value;
use std::alloc::Global;

/// Why there is no value.
#[derive(Clone, Copy, Debug, PartialEq, Eq, Drop)]
pub enum ReadFault {
    /// The bytes aren't UTF-8, or aren't JSON as `serde_json` reads it.
    NotJson,
    /// Want of memory.
    Memory,
}

/// The value that the bytes are: JSON (RFC 8259), nested at most 127 deep, as `serde_json` reads it. The keys of each
/// object rise in the order of their bytes.
#[tactic(auto, using(crate::proofs::Reading::value_of_some, crate::proofs::Reading::value_of_none, crate::proofs::Rising::rising_keys))]
pub fn read_value(alloc: Global, bytes: &[u8]) -> Result<Value, ReadFault>
    ensures ok { IfOk result (λ v. value_of bytes.now ≡ Some (view v)) }
    ensures rising_keys { IfOk result (λ v. HasRisingKeys (view v)) }
    ensures not_json { result ≡ Err ReadFault.NotJson → value_of bytes.now ≡ None }
{
    match Value::from_slice(alloc, bytes) {
        Ok(value) => Ok(value),
        Err(fault) => {
            if fault.is_memory() {
                return Err(ReadFault::Memory);
            }
            Err(ReadFault::NotJson)
        }
    }
}
