//! Terrain: the maximal runs of a set of cells, each with its letters.
ghost use Rattle.std.specs.Prelude.{◌≡◌, true, OnOk};
ghost use Rattle.json_lines.specs.Added.{Adds};
ghost use Rattle.json_lines.specs.Tokens.{value_tokens};
ghost use Rattle.view_lines.specs.Lines.{list_data, terrain_run_data, terrain_data};
ghost use Rattle.view_lines.specs.Rows.{are_by_rows as are_by_rows_test};
ghost use Rattle.view_lines.specs.Tokens.{list_tokens};

use crate::rows::{are_by_rows, fill_letters, from_row, to_row};
use cells::{Cell, CellSet, Run};
use json::Writer;
use std::alloc::{AllocError, Global};

/// The text is one that is free for use, so that not each run takes memory for its own.
fn put_terrain_run(
    writer: &mut Writer,
    text: &mut String,
    letters: &[(Cell, u8)],
    run: Run,
) -> Result<(), AllocError>
    ensures { OnOk result (Adds writer.old writer.new (value_tokens (terrain_run_data letters.now run))) }
{
    fill_letters(text, letters, run)?;
    writer.begin_array()?;
    writer.u64(u64::from(run.y))?;
    writer.u64(u64::from(run.x0))?;
    writer.string(text.as_str())?;
    writer.end_array()
}

/// Of letters by rows, which are gone through beside the runs.
fn put_terrain_by_rows(
    writer: &mut Writer,
    alloc: Global,
    cells: &CellSet,
    letters: &[(Cell, u8)],
) -> Result<(), AllocError>
    requires { are_by_rows_test letters.now ≡ true }
    ensures { OnOk result (Adds writer.old writer.new (value_tokens (list_data (terrain_data cells.now letters.now)))) }
{
    let mut text = String::new(alloc);
    writer.begin_array()?;
    let mut left = letters;
    for run in cells.runs() {
        left = from_row(left, run.y);
        put_terrain_run(writer, &mut text, to_row(left, run.y), run)?;
    }
    writer.end_array()
}

/// Of any letters.
fn put_terrain_searched(
    writer: &mut Writer,
    alloc: Global,
    cells: &CellSet,
    letters: &[(Cell, u8)],
) -> Result<(), AllocError>
    ensures { OnOk result (Adds writer.old writer.new (value_tokens (list_data (terrain_data cells.now letters.now)))) }
{
    let mut text = String::new(alloc);
    writer.begin_array()?;
    for run in cells.runs() {
        put_terrain_run(writer, &mut text, letters, run)?;
    }
    writer.end_array()
}

/// The maximal runs of the set, each with its letters.
pub(crate) fn put_terrain(
    writer: &mut Writer,
    alloc: Global,
    cells: &CellSet,
    letters: &[(Cell, u8)],
) -> Result<(), AllocError>
    ensures { OnOk result (Adds writer.old writer.new (value_tokens (list_data (terrain_data cells.now letters.now)))) }
{
    if are_by_rows(letters) {
        return put_terrain_by_rows(writer, alloc, cells, letters);
    }
    put_terrain_searched(writer, alloc, cells, letters)
}

/// The member with the same, where the set has cells.
pub(crate) fn put_terrain_list(
    writer: &mut Writer,
    alloc: Global,
    key: &str,
    cells: &CellSet,
    letters: &[(Cell, u8)],
) -> Result<(), AllocError>
    ensures { OnOk result (Adds writer.old writer.new (list_tokens key.now (terrain_data cells.now letters.now))) }
{
    let mut runs = cells.runs();
    let Some(_) = runs.next() else {
        return Ok(());
    };
    writer.key(key)?;
    put_terrain(writer, alloc, cells, letters)
}
