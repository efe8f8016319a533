//! Light types and sight types: an object with each name and its value.
ghost use Rattle.std.specs.Prelude.{◌≡◌, IfOk, OnOk};
ghost use Rattle.std.specs.List.{fold};
ghost use Rattle.serde_json.specs.Data.{no_members};
ghost use Rattle.json_lines.specs.Added.{Adds};
ghost use Rattle.json_lines.specs.Tokens.{value_tokens};
ghost use Rattle.view_lines.specs.Entries.{members_in};
ghost use Rattle.view_lines.specs.Lines.{radius_data, wholes_data, put_named, named_data};
ghost use Rattle.view_lines.specs.Tokens.{types_tokens};

use crate::parts::Part;
use json::Writer;
use names::Tag;
use std::alloc::{AllocError, Global};
use std::collections::BTreeMap;

/// A light type's radius.
impl Part for i64 {
    ghost data_of = { radius_data };

    fn put(&self, writer: &mut Writer, _alloc: Global) -> Result<(), AllocError> {
        writer.i64(*self)
    }
}

/// A sight type's range, night range and multiplier.
impl Part for [u8; 3] {
    ghost data_of = { wholes_data };

    fn put(&self, writer: &mut Writer, _alloc: Global) -> Result<(), AllocError> {
        writer.begin_array()?;
        for number in self {
            writer.u64(u64::from(*number))?;
        }
        writer.end_array()
    }
}

/// The types in the order of their names, of those with one name the last.
#[tactic(auto, using(crate::proofs::InOrder::inserted))]
fn by_name<V: Part + Copy + Drop>(
    alloc: Global,
    types: &[(Tag, V)],
) -> Result<BTreeMap<Tag, V>, AllocError>
    ensures { IfOk result (λ map. members_in V.data_of map.entries ≡ fold (put_named V.data_of) no_members types.now) }
{
    let mut map = BTreeMap::new(alloc);
    for (name, value) in types {
        map.insert(*name, *value)?;
    }
    Ok(map)
}

/// Writes the types.
pub(crate) fn put_types<V: Part + Copy + Drop>(
    writer: &mut Writer,
    alloc: Global,
    types: &[(Tag, V)],
) -> Result<(), AllocError>
    ensures { OnOk result (Adds writer.old writer.new (value_tokens (named_data V.data_of types.now))) }
{
    let map = by_name(alloc, types)?;
    writer.begin_object()?;
    for (name, value) in map.iter() {
        writer.key(name.text())?;
        value.put(writer, alloc)?;
    }
    writer.end_object()
}

/// Writes the member with the types, where there are any.
pub(crate) fn put_types_member<V: Part + Copy + Drop>(
    writer: &mut Writer,
    alloc: Global,
    key: &str,
    types: &[(Tag, V)],
) -> Result<(), AllocError>
    ensures { OnOk result (Adds writer.old writer.new (types_tokens key.now V.data_of types.now)) }
{
    if types.is_empty() {
        return Ok(());
    }
    writer.key(key)?;
    put_types(writer, alloc, types)
}
