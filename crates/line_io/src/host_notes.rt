//! What the host is told of connections on standard error, a line each: never a key, and nothing that was said.
ghost use Rattle.std.specs.Prelude.{◌≡◌};

use std::io::Eprint;

// Where standard error takes nothing, the host isn't told.
pub(crate) fn tell<R: Eprint>(rt: &R, number: u64, words: &str) {
    let _told = eprintln!(rt; "connection {number} {words}");
}

/// Tells that who sent a hello sat down, where these bytes begin with the reply that says so.
pub(crate) fn tell_seat<R: Eprint>(rt: &R, number: u64, bytes: &[u8]) {
    if let Some(digits) = seat_of(bytes)
        && let Ok(seat) = str::from_utf8(digits)
    {
        let _told = eprintln!(rt; "connection {number} sat down at seat {seat}");
    }
}

// The digits of the seat in `{"n":1,"ok":"hello","seat":2,"seats":3}`.
fn seat_of(bytes: &[u8]) -> Option<&[u8]> {
    let mut parts = bytes.split(|byte| *byte == b',');
    parts.next()?;
    if parts.next()? != b"\"ok\":\"hello\"".as_slice() {
        return None;
    }
    parts.next()?.strip_prefix(b"\"seat\":")
}
