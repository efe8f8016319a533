//! How often the eye is asked at each line.

use crate::tests::campaigns::CAVE;
use campaign_core::{Answer, Campaign, Entry};
use names::{LineText, SeatNo};
use sight_sweep::SweepEye;
use std::alloc::Global;
use std::process::Abort;

pub(crate) fn seat(rt: &impl Abort, number: u8) -> SeatNo {
    SeatNo::new(number).expect(rt, "a seat")
}

pub(crate) fn opened(rt: &impl Abort, alloc: Global, text: &[u8]) -> Campaign<SweepEye> {
    let campaign = Campaign::open(alloc, text, SweepEye::new(alloc));
    campaign.ok().expect(rt, "a campaign")
}

pub(crate) fn step(rt: &impl Abort, campaign: &mut Campaign<SweepEye>, entry: Entry) -> Answer {
    campaign.step(entry).ok().expect(rt, "memory")
}

pub(crate) fn join(
    rt: &impl Abort,
    alloc: Global,
    campaign: &mut Campaign<SweepEye>,
    number: u8,
    key: &[u8],
) {
    let entry = Entry::Join {
        seat: seat(rt, number),
        key: LineText::copy(alloc, key).expect(rt, "memory"),
        reader: 1,
        writer: 2,
    };
    let _answer = step(rt, campaign, entry);
}

// A line, and how many looks are made at it at most.
#[derive(Clone, Copy)]
struct Asked<'a> {
    seat: u8,
    line: &'a str,
    refused: bool,
    looks: u64,
}

static LINES: [Asked<'static>; 8] = [
    Asked {
        seat: 1,
        line: r#"{"do":"say","text":"hi"}"#,
        refused: false,
        looks: 0,
    },
    Asked {
        seat: 0,
        line: r#"{"do":"show","map":"cave","on":true}"#,
        refused: false,
        looks: 0,
    },
    Asked {
        seat: 1,
        line: r#"{"do":"setprop","token":"1:ann","class":"public","name":"hp","value":"10"}"#,
        refused: false,
        looks: 0,
    },
    Asked {
        seat: 0,
        line: r#"{"do":"expose","seat":1,"map":"cave","rect":[1,0,2,3]}"#,
        refused: false,
        looks: 0,
    },
    Asked {
        seat: 1,
        line: r#"{"do":"move","token":"1:ann","path":[[2,2]]}"#,
        refused: true,
        looks: 0,
    },
    Asked {
        seat: 1,
        line: r#"{"do":"move","token":"1:ann","path":[[0,1]]}"#,
        refused: false,
        looks: 1,
    },
    Asked {
        seat: 0,
        line: r#"{"do":"unwall","map":"cave","kind":"vbl","a":[2,0],"b":[2,4]}"#,
        refused: false,
        looks: 1,
    },
    Asked {
        seat: 0,
        line: r#"{"do":"wall","map":"cave","kind":"mbl","a":[2,0],"b":[2,4]}"#,
        refused: false,
        looks: 0,
    },
];

fn ask(rt: &impl Abort, alloc: Global, campaign: &mut Campaign<SweepEye>, asked: &Asked<'_>) {
    let before = campaign.looks();
    let entry = Entry::Line {
        seat: seat(rt, asked.seat),
        bytes: LineText::copy(alloc, asked.line.as_bytes()).expect(rt, "memory"),
    };
    let answer = step(rt, campaign, entry);
    let made = campaign.looks().saturating_sub(before);
    assert!(rt; answer.refusal.is_some() == asked.refused && made <= asked.looks);
}

// Both seats join, which asks nothing.
fn join_both(rt: &impl Abort, alloc: Global, campaign: &mut Campaign<SweepEye>) {
    assert!(rt; campaign.looks() == 1);
    join(rt, alloc, campaign, 0, b"g");
    join(rt, alloc, campaign, 1, b"a");
    assert!(rt; campaign.looks() == 1);
}

#[test]
fn looks(rt: HostRuntime) {
    let mut campaign = opened(&rt, rt.alloc(), CAVE.as_bytes());
    join_both(&rt, rt.alloc(), &mut campaign);
    for asked in &LINES {
        ask(&rt, rt.alloc(), &mut campaign, asked);
    }
}
