//! Changes.
ghost use Rattle.std.specs.Prelude.{◌≡◌, codes, IfOk, OnOk};
ghost use Rattle.json_lines.specs.Added.{Adds};
ghost use Rattle.view_lines.specs.Lines.{mode_data, terrain_data, lettered as lettered_cells, map_change_data, change_data};
ghost use Rattle.view_lines.specs.Tokens.{list_tokens, some_tokens};

use crate::fights::put_new_fight;
use crate::ground::put_terrain_list;
use crate::parts::{Part, put_list_member};
use crate::runs::put_run_list;
use crate::types::put_types_member;
use crate::values::{put_flag, put_text};
use cells::CellSet;
use json::Writer;
use names::Mode;
use std::alloc::{AllocError, Global};
use views::{Change, MapChange, lettered};

/// The cells that have a letter in the change.
fn lettered_in(alloc: Global, change: &MapChange) -> Result<CellSet, AllocError>
    ensures { IfOk result (λ cells. cells ≡ lettered_cells change.now) }
{
    match lettered(alloc, change.dark.size(), change.letters.items()) {
        Ok(cells) => Ok(cells),
        Err(_) => Err(AllocError),
    }
}

/// The member with the terrain that is new, where there is any.
fn put_ground(writer: &mut Writer, alloc: Global, change: &MapChange) -> Result<(), AllocError>
    ensures { OnOk result (Adds writer.old writer.new (list_tokens (codes "ground")
        (terrain_data (lettered_cells change.now) change.now.letters))) }
{
    if change.letters.items().is_empty() {
        return Ok(());
    }
    let cells = lettered_in(alloc, change)?;
    put_terrain_list(writer, alloc, "ground", &cells, change.letters.items())
}

fn put_mode(writer: &mut Writer, mode: Option<Mode>) -> Result<(), AllocError>
    ensures { OnOk result (Adds writer.old writer.new (some_tokens (codes "mode") mode_data mode)) }
{
    let Some(mode) = mode else {
        return Ok(());
    };
    put_text(writer, "mode", mode.word())
}

impl Part for MapChange {
    ghost data_of = { map_change_data };

    fn put(&self, writer: &mut Writer, alloc: Global) -> Result<(), AllocError> {
        writer.begin_object()?;
        put_run_list(writer, "dark", &self.dark)?;
        put_ground(writer, alloc, self)?;
        put_run_list(writer, "hidden", &self.hidden)?;
        put_run_list(writer, "lit", &self.lit)?;
        put_mode(writer, self.mode)?;
        put_text(writer, "name", self.name.text())?;
        put_flag(writer, "shown", self.shown)?;
        writer.end_object()
    }
}

impl Part for Change {
    ghost data_of = { change_data };

    fn put(&self, writer: &mut Writer, alloc: Global) -> Result<(), AllocError> {
        writer.begin_object()?;
        put_list_member(writer, alloc, "changed", self.changed.items())?;
        put_new_fight(writer, alloc, &self.fight)?;
        put_list_member(writer, alloc, "gone", self.gone.items())?;
        put_types_member(writer, alloc, "lights", self.lights.items())?;
        put_list_member(writer, alloc, "maps", self.maps.items())?;
        put_types_member(writer, alloc, "sights", self.sights.items())?;
        put_list_member(writer, alloc, "tokens", self.tokens.items())?;
        put_list_member(writer, alloc, "unmapped", self.unmapped.items())?;
        writer.end_object()
    }
}
