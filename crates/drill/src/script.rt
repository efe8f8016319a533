//! The script of a drill.
ghost use Rattle.std.specs.Prelude.{◌≡◌, ◌++◌, ◌<◌, ◌≤◌, false, IfOk, OnOk};
ghost use Rattle.std.specs.List.{flat_map, range_with_len};
ghost use Rattle.serde_json.specs.View.{view};
ghost use Rattle.serde_json.specs.Written.{has_float};
ghost use Rattle.drill.specs.Script.{drill_script, first_course, hello as hello_data, hellos_text, script_line};

use crate::commands::hello;
use crate::course::Course;
use json_fields::compact_line;
use names::{LineText, Memory};
use serde_json::Value;
use std::alloc::{AllocError, Global};

/// Writes a line: the seat, a space, the command and the line's end.
fn push_line(
    text: &mut Vec<u8>,
    alloc: Global,
    seat: u32,
    command: &Value,
) -> Result<(), AllocError>
    requires { has_float (view command.now) ≡ false }
    ensures { OnOk result (text.new.items ≡ text.old.items ++ script_line seat (view command.now)) }
{
    let start = format!(in alloc; "{seat} ")?;
    text.extend_from_slice(start.as_bytes())?;
    let Ok(line) = compact_line(alloc, command) else {
        return Err(AllocError);
    };
    text.extend_from_slice(line.bytes())?;
    text.push(b'\n')?;
    Ok(())
}

/// The hellos of the seats 0 to 4.
#[tactic(auto, using(crate::proofs::Lines::hellos_more, crate::proofs::Lines::hello_exact))]
fn hellos(alloc: Global) -> Result<Vec<u8>, AllocError>
    ensures { IfOk result (λ text. text.items ≡ hellos_text 5) }
{
    let mut text = Vec::new(alloc);
    for seat in 0..5u8 {
        let command = hello(alloc, seat)?;
        push_line(&mut text, alloc, u32::from(seat), &command)?;
    }
    Ok(text)
}

fn script_bytes(alloc: Global, mut course: Course, lines: u32) -> Result<Vec<u8>, AllocError>
    requires start { course ≡ first_course course.number }
    requires least { 5 ≤ lines }
    requires most { lines ≤ 10000 }
    ensures { IfOk result (λ text. text.items ≡ drill_script course.number lines) }
{
    let mut text = hellos(alloc)?;
    for _line in 5..lines {
        let (seat, command) = course.line(alloc)?;
        push_line(&mut text, alloc, seat, &command)?;
    }
    Ok(text)
}

/// The script of so many lines, 5 to 10,000, from the start of its course.
pub(crate) fn script(alloc: Global, course: Course, lines: u32) -> Result<LineText, Memory>
    requires start { course ≡ first_course course.number }
    requires least { 5 ≤ lines }
    requires most { lines ≤ 10000 }
    ensures { IfOk result (λ text. text ≡ drill_script course.number lines) }
{
    let bytes = script_bytes(alloc, course, lines)?;
    Ok(LineText::new(bytes))
}
