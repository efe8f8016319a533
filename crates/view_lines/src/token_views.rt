//! Tokens as a seat sees them.
ghost use Rattle.std.specs.Prelude.{codes, OnOk};
ghost use Rattle.serde_json.specs.Data.{boolean};
ghost use Rattle.json_lines.specs.Added.{Adds};
ghost use Rattle.view_lines.specs.Lines.{wholes_data, text_or_null, props_data, token_data};
ghost use Rattle.view_lines.specs.Tokens.{some_tokens};

use crate::parts::{Part, put_list};
use crate::values::{put_text, put_text_or_null, put_whole};
use json::Writer;
use std::alloc::{AllocError, Global};
use views::{GmPart, OwnedPart, TokenView};

fn put_light(writer: &mut Writer, owned: &Option<OwnedPart>) -> Result<(), AllocError>
    ensures { OnOk result (Adds writer.old writer.new (some_tokens (codes "light") (λ part. text_or_null part.light) owned.now)) }
{
    let Some(part) = owned else {
        return Ok(());
    };
    writer.key("light")?;
    put_text_or_null(writer, part.light)
}

fn put_own(writer: &mut Writer, alloc: Global, owned: &Option<OwnedPart>) -> Result<(), AllocError>
    ensures { OnOk result (Adds writer.old writer.new (some_tokens (codes "own") (λ part. props_data part.own) owned.now)) }
{
    let Some(part) = owned else {
        return Ok(());
    };
    writer.key("own")?;
    put_list(writer, alloc, part.own.items())
}

fn put_sight(writer: &mut Writer, owned: &Option<OwnedPart>) -> Result<(), AllocError>
    ensures { OnOk result (Adds writer.old writer.new (some_tokens (codes "sight") (λ part. text_or_null part.sight) owned.now)) }
{
    let Some(part) = owned else {
        return Ok(());
    };
    writer.key("sight")?;
    put_text_or_null(writer, part.sight)
}

fn put_owners(writer: &mut Writer, alloc: Global, gm: &Option<GmPart>) -> Result<(), AllocError>
    ensures { OnOk result (Adds writer.old writer.new (some_tokens (codes "owners") (λ part. wholes_data part.owners) gm.now)) }
{
    let Some(part) = gm else {
        return Ok(());
    };
    writer.key("owners")?;
    put_list(writer, alloc, part.owners.items())
}

fn put_secret(writer: &mut Writer, alloc: Global, gm: &Option<GmPart>) -> Result<(), AllocError>
    ensures { OnOk result (Adds writer.old writer.new (some_tokens (codes "secret") (λ part. props_data part.secret) gm.now)) }
{
    let Some(part) = gm else {
        return Ok(());
    };
    writer.key("secret")?;
    put_list(writer, alloc, part.secret.items())
}

fn put_visible(writer: &mut Writer, gm: &Option<GmPart>) -> Result<(), AllocError>
    ensures { OnOk result (Adds writer.old writer.new (some_tokens (codes "visible") (λ part. boolean part.visible) gm.now)) }
{
    let Some(part) = gm else {
        return Ok(());
    };
    writer.key("visible")?;
    writer.boolean(part.visible)
}

impl Part for TokenView {
    ghost data_of = { token_data };

    fn put(&self, writer: &mut Writer, alloc: Global) -> Result<(), AllocError> {
        writer.begin_object()?;
        writer.key("cell")?;
        self.cell.put(writer, alloc)?;
        writer.key("id")?;
        self.id.put(writer, alloc)?;
        put_text(writer, "layer", self.layer.word())?;
        put_light(writer, &self.owned)?;
        put_text(writer, "map", self.map.text())?;
        put_text(writer, "name", self.name.text())?;
        put_own(writer, alloc, &self.owned)?;
        put_owners(writer, alloc, &self.whole)?;
        writer.key("props")?;
        put_list(writer, alloc, self.props.items())?;
        put_secret(writer, alloc, &self.whole)?;
        put_sight(writer, &self.owned)?;
        put_whole(writer, "size", self.size)?;
        put_visible(writer, &self.whole)?;
        writer.end_object()
    }
}
