//! A campaign as a history that gives copies of its entries.
ghost use Rattle.std.specs.Prelude.{◌≡◌, IfOk};

use crate::chronicle::Chronicle;
use campaign_core::Campaign;
use campaign_law::Entry;
use names::{LineText, Memory};
use std::alloc::Global;
use topology::Eye;

impl<E: Eye + Drop> Chronicle for Campaign<E> {
    fn entry(&self, alloc: Global, place: u64) -> Result<Entry, Memory> {
        match self.entry_at(place) {
            Some(entry) => copy_of(alloc, entry),
            None => unreachable!(),
        }
    }
}

// A copy of an entry.
fn copy_of(alloc: Global, entry: &Entry) -> Result<Entry, Memory>
    ensures { IfOk result (λ copy. copy ≡ entry.now) }
{
    match entry {
        Entry::Join {
            seat,
            key,
            reader,
            writer,
        } => Ok(Entry::Join {
            seat: *seat,
            key: LineText::copy(alloc, key.bytes())?,
            reader: *reader,
            writer: *writer,
        }),
        Entry::Line { seat, bytes } => Ok(Entry::Line {
            seat: *seat,
            bytes: LineText::copy(alloc, bytes.bytes())?,
        }),
        Entry::Leave { seat, drop } => Ok(Entry::Leave {
            seat: *seat,
            drop: *drop,
        }),
        Entry::Taken { seat, count } => Ok(Entry::Taken {
            seat: *seat,
            count: *count,
        }),
        Entry::Cut { seat } => Ok(Entry::Cut { seat: *seat }),
    }
}
