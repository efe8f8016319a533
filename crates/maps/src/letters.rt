//! The letters of the cells of a map.
ghost use Rattle.std.specs.Prelude.{◌≡◌, ◌*◌, length, IfOk, replicate};
ghost use Rattle.names.specs.Letters.{blank};
ghost use Rattle.cells.specs.Rects.{is_in};
ghost use Rattle.maps.specs.Letters.{with_rect};

use cells::{Rect, Size};
use names::Memory;
use std::alloc::{AllocError, Global};

/// The letter of a new map's cells.
const BLANK: u8 = b'.';

/// The letters of a new map.
pub(crate) fn blank_letters(alloc: Global, size: Size) -> Result<Vec<u8>, Memory>
    ensures { IfOk result (λ letters. letters.items ≡ replicate (size.h * size.w) blank) }
{
    let count = usize::from(size.h()) * usize::from(size.w());
    Ok(copies_of_blank(alloc, count)?)
}

fn copies_of_blank(alloc: Global, count: usize) -> Result<Vec<u8>, AllocError>
    ensures { IfOk result (λ letters. letters.items ≡ replicate count blank) }
{
    Ok(vec![in alloc; BLANK; count]?)
}

/// Gives each cell of the rectangle the letter. Only the rectangle's rows are gone through.
pub(crate) fn set_letters(letters: &mut [u8], size: Size, rect: Rect, letter: u8)
    requires { length letters.old ≡ size.h * size.w }
    ensures { letters.new ≡ with_rect size rect letter letters.old }
{
    let width = usize::from(size.w());
    let top = usize::from(rect.y);
    let end = letters.len().min((top + usize::from(rect.h)) * width);
    for place in top * width..end {
        if is_in(rect, place % width, place / width) {
            letters[place] = letter;
        }
    }
}

fn is_in(rect: Rect, x: usize, y: usize) -> bool
    ensures { result ≡ is_in rect x y }
{
    let left = usize::from(rect.x);
    let top = usize::from(rect.y);
    left <= x && x < left + usize::from(rect.w) && top <= y && y < top + usize::from(rect.h)
}
