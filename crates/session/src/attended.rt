//! An input that is attended to: what waits for its session is written before more of it is waited for.
ghost use Rattle.std.specs.Prelude.{◌≡◌, ◌≤◌};

use crate::Table;
use crate::hold::Hold;
use crate::pace::Pace;
use crate::pen::Pen;
use crate::start::Start;
use line_io::{Failed, Outlet, Source};
use std::sync::{Mutex, Wait};
use turn_lock::Hall;

/// The input of a session, whose reading half writes what waits for the seat before each read, unless the writing half is at it.
pub(crate) struct Attended<'a, 'b, S: Start, R, I, O: Outlet> {
    pub(crate) rt: &'b R,
    pub(crate) hall: &'b Hall<Table>,
    pub(crate) hold: &'b Hold,
    pub(crate) pace: &'b Pace,
    pub(crate) pen: &'b Mutex<Pen<'a, S, O>>,
    pub(crate) input: &'a mut I,
    pub(crate) ghost name: { input.ghost_name ≡ S.begun.input_name },
    pub(crate) ghost begun: { (hall.now ≡ S.begun.hall) × (hold.now ≡ S.begun.hold) },
}

impl<'a, 'b, S: Start, R, I, O: Outlet> Attended<'a, 'b, S, R, I, O> {
    pub(crate) fn new(
        rt: &'b R,
        hall: &'b Hall<Table>,
        hold: &'b Hold,
        pace: &'b Pace,
        pen: &'b Mutex<Pen<'a, S, O>>,
        input: &'a mut I,
    ) -> Attended<'a, 'b, S, R, I, O>
        requires name { input.ghost_name ≡ S.begun.input_name }
        requires begun { (hall.now ≡ S.begun.hall) × (hold.now ≡ S.begun.hold) }
        ensures name { result.input.ghost_name ≡ input.entry.ghost_name }
        ensures input { result.input.now ≡ input.old }
    {
        Attended {
            rt,
            hall,
            hold,
            pace,
            pen,
            input,
        }
    }

    // Writes what waits for the seat. Where the writing half is at it, it looks once more.
    fn attend(&self)
    where
        R: Wait,
    {
        match self.pen.try_lock() {
            Some(mut pen) => {
                pen.write_on(self.rt, self.hall, self.hold, self.pace);
                self.pace.attended();
            }
            None => self.pace.look(),
        }
    }
}

impl<'a, 'b, S: Start, R: Wait, I: Source, O: Outlet> Source for Attended<'a, 'b, S, R, I, O> {
    ghost faults_of = { λ a. I.faults_of a.input.now };

    ghost left = { λ a. I.left a.input.now };

    fn read(&mut self, piece: &mut [u8]) -> Result<usize, Failed> {
        self.attend();
        self.input.read(piece)
    }

    fn close(&mut self) {
        self.input.close();
    }

    fn faults(&self) -> u64 {
        self.input.faults()
    }
}
