//! The letters of cells, which stand by rows.
ghost use Rattle.std.specs.Prelude.{◌≡◌, true, take, drop, length, unwrap_or, nat_le, nat_lt, string_bytes, OnOk, IsTrue};
ghost use Rattle.std.specs.List.{position};
ghost use Rattle.view_lines.specs.Lines.{is_of_run as is_of_run_test, letters_of_run as letters_of_run_list};
ghost use Rattle.view_lines.specs.Rows.{are_by_rows};

use cells::{Cell, Run};
use std::alloc::AllocError;

fn is_of_run(run: Run, cell: Cell, letter: u8) -> bool
    ensures { result ≡ is_of_run_test run (cell, letter) }
{
    cell.y == run.y && run.x0 <= cell.x && cell.x <= run.x1
}

/// Makes the text the letters of the run's cells, in order.
pub(crate) fn fill_letters(
    text: &mut String,
    letters: &[(Cell, u8)],
    run: Run,
) -> Result<(), AllocError>
    ensures { OnOk result (string_bytes text.new ≡ letters_of_run_list letters.now run) }
{
    text.clear();
    for (cell, letter) in letters {
        if is_of_run(run, *cell, *letter) {
            text.push(char::from(*letter))?;
        }
    }
    Ok(())
}

/// Whether the letters stand by rows.
pub(crate) fn are_by_rows(letters: &[(Cell, u8)]) -> bool
    ensures { IsTrue result → are_by_rows letters.now ≡ true }
{
    for i in 1..letters.len() {
        if letters[i].0.y < letters[i - 1].0.y {
            return false;
        }
    }
    true
}

/// Where the first letter stands that is not above row `y`.
fn row_start(letters: &[(Cell, u8)], y: u8) -> Option<usize>
    ensures { result ≡ position (λ letter. nat_le y letter.0.y) letters.now }
{
    letters.iter().position(|letter| y <= letter.0.y)
}

/// Where the first letter stands that is below row `y`.
fn row_end(letters: &[(Cell, u8)], y: u8) -> Option<usize>
    ensures { result ≡ position (λ letter. nat_lt y letter.0.y) letters.now }
{
    letters.iter().position(|letter| y < letter.0.y)
}

/// What is left of the letters from row `y` on.
pub(crate) fn from_row(letters: &[(Cell, u8)], y: u8) -> &[(Cell, u8)]
    ensures { result.now ≡ drop (unwrap_or (position (λ letter. nat_le y letter.0.y) letters.now) (length letters.now)) letters.now }
{
    let place = row_start(letters, y).unwrap_or(letters.len());
    &letters[place..]
}

/// The letters before the first one that is of a row behind row `y`.
pub(crate) fn to_row(letters: &[(Cell, u8)], y: u8) -> &[(Cell, u8)]
    ensures { result.now ≡ take (unwrap_or (position (λ letter. nat_lt y letter.0.y) letters.now) (length letters.now)) letters.now }
{
    let place = row_end(letters, y).unwrap_or(letters.len());
    &letters[..place]
}
