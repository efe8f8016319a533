//! The small parts.
ghost use Rattle.std.specs.Prelude.{◌∷◌, [], decimal, OnOk};
ghost use Rattle.json.specs.Token.{key as key_token, string as string_token, number as number_token};
ghost use Rattle.serde_json.specs.Data.{boolean, string};
ghost use Rattle.names.specs.TokenId.{id_text};
ghost use Rattle.json_lines.specs.Added.{Adds};
ghost use Rattle.json_lines.specs.Tokens.{value_tokens};
ghost use Rattle.view_lines.specs.Lines.{whole, text_or_null, cell_data, prop_data};
ghost use Rattle.view_lines.specs.Tokens.{some_tokens};

use crate::parts::Part;
use cells::Cell;
use json::Writer;
use names::{SeatNo, Tag, Text, TokenId};
use std::alloc::{AllocError, Global};

/// A name as a text.
impl Part for Tag {
    ghost data_of = { string };

    fn put(&self, writer: &mut Writer, _alloc: Global) -> Result<(), AllocError> {
        writer.string(self.text())
    }
}

/// An id as its text.
impl Part for TokenId {
    ghost data_of = { λ id. string (id_text id) };

    fn put(&self, writer: &mut Writer, alloc: Global) -> Result<(), AllocError> {
        match self.text(alloc) {
            Ok(text) => writer.string(text.text()),
            Err(_) => Err(AllocError),
        }
    }
}

/// A seat as its number.
impl Part for SeatNo {
    ghost data_of = { whole };

    fn put(&self, writer: &mut Writer, _alloc: Global) -> Result<(), AllocError> {
        writer.u64(u64::from(self.number()))
    }
}

/// A property as a pair of its name and its value.
impl Part for (Tag, Text) {
    ghost data_of = { prop_data };

    fn put(&self, writer: &mut Writer, _alloc: Global) -> Result<(), AllocError> {
        writer.begin_array()?;
        writer.string(self.0.text())?;
        writer.string(self.1.text())?;
        writer.end_array()
    }
}

/// A cell as a pair of its column and its row.
impl Part for Cell {
    ghost data_of = { cell_data };

    fn put(&self, writer: &mut Writer, _alloc: Global) -> Result<(), AllocError> {
        writer.begin_array()?;
        writer.u64(u64::from(self.x))?;
        writer.u64(u64::from(self.y))?;
        writer.end_array()
    }
}

/// Writes a member that is a text.
pub(crate) fn put_text(writer: &mut Writer, key: &str, text: &str) -> Result<(), AllocError>
    ensures { OnOk result (Adds writer.old writer.new (key_token key.now ∷ string_token text.now ∷ [])) }
{
    writer.key(key)?;
    writer.string(text)
}

/// Writes a member that is a whole number.
pub(crate) fn put_whole(writer: &mut Writer, key: &str, whole: u8) -> Result<(), AllocError>
    ensures { OnOk result (Adds writer.old writer.new (key_token key.now ∷ number_token (decimal whole) ∷ [])) }
{
    writer.key(key)?;
    writer.u64(u64::from(whole))
}

/// Writes a member that is true or false, where there is one.
pub(crate) fn put_flag(writer: &mut Writer, key: &str, flag: Option<bool>) -> Result<(), AllocError>
    ensures { OnOk result (Adds writer.old writer.new (some_tokens key.now boolean flag)) }
{
    let Some(flag) = flag else {
        return Ok(());
    };
    writer.key(key)?;
    writer.boolean(flag)
}

/// Writes the name as a text, or null.
pub(crate) fn put_text_or_null(writer: &mut Writer, name: Option<Tag>) -> Result<(), AllocError>
    ensures { OnOk result (Adds writer.old writer.new (value_tokens (text_or_null name))) }
{
    match name {
        None => writer.null(),
        Some(name) => writer.string(name.text()),
    }
}
