//! A session that waits to be served.
ghost use Rattle.std.proofs.Props.{props};
ghost use Rattle.std.specs.Arc.{arc_value};
ghost use Rattle.turn_lock.specs.Pass.{IsPassOf};
ghost use Rattle.campaign_law.specs.Law.{IsOpening};

use session::Table;
use std::alloc::Global;
use std::sync::Arc;
use turn_lock::{Hall, Pass};

/// A session that is to be served, on two passes of its hall.
#[derive(Drop)]
pub struct Sitting<R, I, O> {
    pub rt: R,
    pub alloc: Global,
    pub hall: Arc<Hall<Table>>,
    pub reader: Pass<Table>,
    pub writer: Pass<Table>,
    pub input: I,
    pub output: O,
    // Its passes are its hall's, and the hall was opened with a campaign.
    pub ghost reader_is: { IsPassOf (arc_value hall) reader },
    pub ghost writer_is: { IsPassOf (arc_value hall) writer },
    pub ghost opening: { IsOpening (arc_value hall).origin } by { Prim.hlevel props },
}
