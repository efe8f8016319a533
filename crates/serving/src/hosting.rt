//! Serves the campaign of a text.
ghost use Rattle.std.specs.Prelude.{◌≡◌, ◌≤◌, ◌<◌, ◌⊎◌, [], IfSome};
ghost use Rattle.line_io.specs.Counts.{CountRose};
ghost use Rattle.campaign_law.specs.Law.{IsOpening};
ghost use Rattle.campaign_core.specs.Opening.{world_of_text, IsOpenFault};
ghost use Rattle.turn_lock.specs.Pass.{IsPassOf, IsUsherOf, first_pass};
ghost use Rattle.std.specs.Arc.{arc_value};
ghost use Rattle.serving.specs.Outside.{as_told};
ghost use Rattle.serving.specs.Endings.{EndsWith};
ghost use Rattle.serving.specs.Hosted.{Hosts, HostsOn};

use crate::endings::print_end;
use crate::runs::SessionSource;
use crate::serving_hall::{Served, serve_hall};
use crate::sittings::Sitting;
use campaign_core::{Campaign, OpenFault};
use campaign_json::BadCampaign;
use line_io::{Door, Outlet, Sink, Spawner, Work};
use names::LineText;
use session::Table;
use sight_sweep::SweepEye;
use std::alloc::Global;
use std::sync::{Arc, Wait};
use std::thread::Threads;
use turn_lock::{Hall, Pass, Usher};

/// How serving the campaign of a text ended.
#[derive(Drop)]
pub enum Hosted {
    /// Its text is off the format: this is its first breach.
    Bad(BadCampaign),
    /// Want of memory, before the door was opened.
    Memory,
    /// The door couldn't be opened at the port, and counted it.
    Closed,
    /// Connections were taken, and so it ended.
    Served(Served),
}

/// Opens the campaign of the text in a hall of its own, and the door at the port, and serves the hall. With `end`, and where all
/// was done, it then prints the campaign's text and LF.
pub fn host<
    R: Threads + Wait + Sync + Clone + Drop,
    O: Sink,
    L: Door,
    P: Spawner<Sitting<R, L::In, L::Out>>,
>(
    rt: &R,
    alloc: Global,
    text: &LineText,
    port: u16,
    count: u32,
    end: bool,
    out: &mut O,
    door: &mut L,
    spawner: &mut P,
) -> Hosted
where
    L::In: SessionSource<L::Out> + Drop,
    L::Out: Outlet + Drop,
    P::Task: Drop,
    requires count { (1 ≤ count) × (count ≤ 1024) }
    requires fit { P.fit spawner.old }
    ensures hosts { Hosts ⟦<Sitting<R, L::In, L::Out> as Work>⟧.done L.Out.written result text.now count end
        (as_told (L.coming door.old) (L.ended door.old) (P.started spawner.old) (P.faults_of spawner.old)
        (O.written out.old) (O.faults_of out.old))
        (as_told (L.coming door.new) (L.ended door.new) (P.started spawner.new) (P.faults_of spawner.new)
        (O.written out.new) (O.faults_of out.new)) }
    ensures write_fault { result ≡ Hosted.Served Served.WriteFault → CountRose (O.faults_of out.old) (O.faults_of out.new) }
    ensures door_fault { (result ≡ Hosted.Closed) ⊎ (result ≡ Hosted.Served Served.DoorFault)
        → CountRose (L.faults_of door.old) (L.faults_of door.new) }
    ensures out_count { O.faults_of out.old ≤ O.faults_of out.new }
    ensures door_count { L.faults_of door.old ≤ L.faults_of door.new }
{
    let campaign = match Campaign::open(alloc, text.bytes(), SweepEye::new(alloc)) {
        Ok(campaign) => campaign,
        Err(OpenFault::Bad(breach)) => return Hosted::Bad(breach),
        Err(OpenFault::Memory) => return Hosted::Memory,
    };
    host_campaign(rt, alloc, campaign, port, count, end, out, door, spawner)
}

// A hall for the campaign, with its usher and its first pass. `None` is want of memory.
fn open_hall(
    alloc: Global,
    campaign: Table,
) -> Option<(Arc<Hall<Table>>, Usher<Table>, Pass<Table>)>
    requires { campaign.history ≡ [] }
    ensures origin { IfSome result (λ opened. (arc_value opened.0).origin ≡ campaign.origin) }
    ensures usher { IfSome result (λ opened. IsUsherOf (arc_value opened.0) opened.1 × (opened.1.count ≡ 1)) }
    ensures pass { IfSome result (λ opened. opened.2 ≡ first_pass (arc_value opened.0) []) }
{
    let Ok((hall, usher, pass)) = Hall::open(alloc, campaign) else {
        return None;
    };
    match Arc::new(alloc, hall) {
        Ok(hall) => Some((hall, usher, pass)),
        Err(_) => None,
    }
}

// Opens a hall for a campaign that has just been opened, and the door at the port, and serves the hall.
fn host_campaign<
    R: Threads + Wait + Sync + Clone + Drop,
    O: Sink,
    L: Door,
    P: Spawner<Sitting<R, L::In, L::Out>>,
>(
    rt: &R,
    alloc: Global,
    campaign: Table,
    port: u16,
    count: u32,
    end: bool,
    out: &mut O,
    door: &mut L,
    spawner: &mut P,
) -> Hosted
where
    L::In: SessionSource<L::Out> + Drop,
    L::Out: Outlet + Drop,
    P::Task: Drop,
    requires opening { IsOpening campaign.origin }
    requires history { campaign.history ≡ [] }
    requires count { (1 ≤ count) × (count ≤ 1024) }
    requires fit { P.fit spawner.old }
    ensures hosts { HostsOn ⟦<Sitting<R, L::In, L::Out> as Work>⟧.done L.Out.written result campaign.origin count end
        (as_told (L.coming door.old) (L.ended door.old) (P.started spawner.old) (P.faults_of spawner.old)
        (O.written out.old) (O.faults_of out.old))
        (as_told (L.coming door.new) (L.ended door.new) (P.started spawner.new) (P.faults_of spawner.new)
        (O.written out.new) (O.faults_of out.new)) }
    ensures write_fault { result ≡ Hosted.Served Served.WriteFault → CountRose (O.faults_of out.old) (O.faults_of out.new) }
    ensures door_fault { (result ≡ Hosted.Closed) ⊎ (result ≡ Hosted.Served Served.DoorFault)
        → CountRose (L.faults_of door.old) (L.faults_of door.new) }
    ensures out_count { O.faults_of out.old ≤ O.faults_of out.new }
    ensures door_count { L.faults_of door.old ≤ L.faults_of door.new }
{
    let Some((hall, mut usher, pass)) = open_hall(alloc, campaign) else {
        return Hosted::Memory;
    };
    if door.open(port).is_err() {
        return Hosted::Closed;
    }
    let (pass, served) = serve_hall(
        rt, alloc, &hall, &mut usher, pass, count, out, door, spawner,
    );
    Hosted::Served(ended(rt, &hall, pass, end, served, out))
}

// With `end`, and where all was done: prints the campaign's text.
fn ended<R: Wait, O: Sink>(
    rt: &R,
    hall: &Hall<Table>,
    pass: Pass<Table>,
    end: bool,
    served: Served,
    out: &mut O,
) -> Served
    requires { IsPassOf hall.now pass }
    ensures ends { EndsWith end served result hall.now.origin pass (O.written out.old) (O.written out.new) }
    ensures count { O.faults_of out.old ≤ O.faults_of out.new }
    ensures write_fault { result ≡ Served.WriteFault
        → (served ≡ Served.WriteFault) ⊎ CountRose (O.faults_of out.old) (O.faults_of out.new) }
    ensures door_fault { result ≡ Served.DoorFault → served ≡ Served.DoorFault }
{
    if end && served == Served::Done {
        return print_end(rt, hall, pass, out);
    }
    served
}
