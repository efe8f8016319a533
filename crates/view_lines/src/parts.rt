//! What lines are made of.
ghost use Rattle.std.specs.Prelude.{map, OnOk};
ghost use Rattle.serde_json.specs.Data.{Data};
ghost use Rattle.json_lines.specs.Added.{Adds};
ghost use Rattle.json_lines.specs.Tokens.{value_tokens};
ghost use Rattle.view_lines.specs.Lines.{list_data};
ghost use Rattle.view_lines.specs.Tokens.{list_tokens};

use json::Writer;
use std::alloc::{AllocError, Global};

/// What is written as one value.
pub(crate) trait Part: Sized {
    /// The value.
    ghost data_of: { Self → Data };

    /// Writes it behind what stands there.
    fn put(&self, writer: &mut Writer, alloc: Global) -> Result<(), AllocError>
        ensures { OnOk result (Adds writer.old writer.new (value_tokens (data_of self.now))) };
}

/// Writes the list of the parts.
pub(crate) fn put_list<P: Part>(
    writer: &mut Writer,
    alloc: Global,
    parts: &[P],
) -> Result<(), AllocError>
    ensures { OnOk result (Adds writer.old writer.new (value_tokens (list_data (map P.data_of parts.now)))) }
{
    writer.begin_array()?;
    for part in parts {
        part.put(writer, alloc)?;
    }
    writer.end_array()
}

/// Writes the member with the list of the parts, where there are any.
pub(crate) fn put_list_member<P: Part>(
    writer: &mut Writer,
    alloc: Global,
    key: &str,
    parts: &[P],
) -> Result<(), AllocError>
    ensures { OnOk result (Adds writer.old writer.new (list_tokens key.now (map P.data_of parts.now))) }
{
    if parts.is_empty() {
        return Ok(());
    }
    writer.key(key)?;
    put_list(writer, alloc, parts)
}
