//! A player that takes none of its lines: what waits for it, how many bytes that may be, and the cut.

use super::campaigns::THREE_SEATS;
use super::text_of;
use crate::look_tests::{join, opened, seat, step};
use campaign_core::{Campaign, Entry};
use names::SeatNo;
use sight_sweep::SweepEye;
use std::alloc::Global;
use std::process::Abort;

// The game master says the line so often.
fn say(rt: &impl Abort, alloc: Global, campaign: &mut Campaign<SweepEye>, line: &str, times: u32) {
    for _ in 0..times {
        let entry = Entry::Line {
            seat: seat(rt, 0),
            bytes: text_of(rt, alloc, line),
        };
        let answer = step(rt, campaign, entry);
        assert!(rt; answer.refusal.is_none());
    }
}

// How many bytes wait for the seat.
fn waiting(rt: &impl Abort, campaign: &Campaign<SweepEye>, seat: SeatNo) -> usize {
    assert!(rt; seat.number() < campaign.seat_count());
    let (text, _) = campaign.text_for(seat, 0).ok().expect(rt, "memory");
    let size = text.bytes().len();
    assert!(rt; campaign.size_for(seat, 0) == Some(size));
    size
}

// So many bytes wait for the seat, and too many for this one.
fn waits(
    rt: &impl Abort,
    campaign: &Campaign<SweepEye>,
    seat: SeatNo,
    bytes: usize,
    over: Option<SeatNo>,
) {
    assert_eq!(rt; waiting(rt, campaign, seat), bytes);
    assert!(rt; campaign.over() == over);
}

// A message of 1,000 bytes to the first player.
fn long_message(rt: &impl Abort, alloc: Global) -> String {
    format!(in alloc; r#"{{"do":"say","text":"{:x<1000}","to":1}}"#, "").expect(rt, "memory")
}

// It is in nobody's hands, and was cut.
fn is_cut(rt: &impl Abort, campaign: &Campaign<SweepEye>, seat: SeatNo) {
    assert!(rt; seat.number() < campaign.seat_count());
    assert!(rt; campaign.state(seat).is_free() && campaign.over() == None);
    assert!(rt; campaign.cut_since(0, seat, 1, 2));
}

// From this number on so many lines wait for the seat, and this is the first of them.
fn waits_from(
    rt: &impl Abort,
    campaign: &Campaign<SweepEye>,
    seat: SeatNo,
    number: u64,
    count: usize,
    first: &[u8],
) {
    assert!(rt; seat.number() < campaign.seat_count());
    let lines = campaign.lines_for(seat, number).ok().expect(rt, "memory");
    assert_eq!(rt; lines.len(), count);
    let line = lines.first().expect(rt, "a line");
    assert_eq!(rt; line.bytes(), first);
}

#[test]
fn lines_wait_from_a_number_on(rt: HostRuntime) {
    let mut campaign = opened(&rt, rt.alloc(), THREE_SEATS.as_bytes());
    join(&rt, rt.alloc(), &mut campaign, 1, b"a");
    let player = seat(&rt, 1);
    let hello = b"{\"n\":1,\"ok\":\"hello\",\"seat\":1,\"seats\":3}\n";
    waits_from(&rt, &campaign, player, 0, 2, hello);
    let full = b"{\"full\":{\"lights\":{},\"maps\":[],\"sights\":{},\"tokens\":[]}}\n";
    waits_from(&rt, &campaign, player, 1, 1, full);
}

#[test]
fn who_takes_nothing_is_cut(rt: HostRuntime) {
    let mut campaign = opened(&rt, rt.alloc(), THREE_SEATS.as_bytes());
    join(&rt, rt.alloc(), &mut campaign, 0, b"g");
    join(&rt, rt.alloc(), &mut campaign, 1, b"a");
    let player = seat(&rt, 1);
    waits(&rt, &campaign, player, 97, None);
    let message = long_message(&rt, rt.alloc());
    say(&rt, rt.alloc(), &mut campaign, &message, 4_079);
    waits(&rt, &campaign, player, 4_193_309, None);
    say(&rt, rt.alloc(), &mut campaign, &message, 1);
    waits(&rt, &campaign, player, 4_194_337, Some(player));
    let _answer = step(&rt, &mut campaign, Entry::Cut { seat: player });
    is_cut(&rt, &campaign, player);
}
