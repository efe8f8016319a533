//! Sets of cells: their maximal runs.
ghost use Rattle.std.specs.Prelude.{map, OnOk};
ghost use Rattle.serde_json.specs.View.{items_of};
ghost use Rattle.json_lines.specs.Added.{Adds};
ghost use Rattle.json_lines.specs.Tokens.{value_tokens, items_tokens};
ghost use Rattle.view_lines.specs.Lines.{list_data, run_data, runs_data};
ghost use Rattle.view_lines.specs.Tokens.{list_tokens};

use cells::{CellSet, Run, Runs};
use json::Writer;
use std::alloc::AllocError;

fn put_run(writer: &mut Writer, run: Run) -> Result<(), AllocError>
    ensures { OnOk result (Adds writer.old writer.new (value_tokens (run_data run))) }
{
    writer.begin_array()?;
    writer.u64(u64::from(run.y))?;
    writer.u64(u64::from(run.x0))?;
    writer.u64(u64::from(run.x1))?;
    writer.end_array()
}

/// Writes the runs to the end of their list.
fn end_runs(writer: &mut Writer, runs: Runs<'_>) -> Result<(), AllocError>
    ensures { OnOk result (Adds writer.old writer.new (items_tokens (items_of (map run_data runs.entry)))) }
{
    for run in runs {
        put_run(writer, run)?;
    }
    writer.end_array()
}

/// The maximal runs of the set.
pub(crate) fn put_runs(writer: &mut Writer, cells: &CellSet) -> Result<(), AllocError>
    ensures { OnOk result (Adds writer.old writer.new (value_tokens (list_data (runs_data cells.now)))) }
{
    writer.begin_array()?;
    end_runs(writer, cells.runs())
}

/// The member with the maximal runs of the set, where it has cells.
pub(crate) fn put_run_list(
    writer: &mut Writer,
    key: &str,
    cells: &CellSet,
) -> Result<(), AllocError>
    ensures { OnOk result (Adds writer.old writer.new (list_tokens key.now (runs_data cells.now))) }
{
    let mut runs = cells.runs();
    let Some(first) = runs.next() else {
        return Ok(());
    };
    writer.key(key)?;
    writer.begin_array()?;
    put_run(writer, first)?;
    end_runs(writer, runs)
}
