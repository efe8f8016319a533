//! Runs of which an outside call fails.

use super::campaigns::THREE_SEATS;
use super::{PLAIN, Run};

pub(super) static STOPS: [Run<'static>; 7] = [
    Run {
        name: "a desk that fails",
        campaign: THREE_SEATS,
        script: "",
        desk_fails: &[0],
        status: 4,
        output: "tabletop: read fault\n",
        ..PLAIN
    },
    Run {
        name: "a script whose first read fails",
        campaign: THREE_SEATS,
        script: r#"1 {"do":"hello","seat":1,"key":"a"}
1 {"do":"look"}
"#,
        script_fails: &[0],
        status: 4,
        output: "tabletop: read fault\n",
        ..PLAIN
    },
    Run {
        name: "an output whose second write fails",
        campaign: THREE_SEATS,
        script: r#"1 {"do":"hello","seat":1,"key":"a"}
1 {"do":"look"}
"#,
        out_fails: &[1],
        status: 5,
        output: r#"1 {"n":1,"ok":"hello","seat":1,"seats":3}
1 {"full":{"lights":{},"maps":[],"sights":{},"tokens":[]}}
"#,
        ..PLAIN
    },
    Run {
        name: "an output that takes one byte at once",
        campaign: THREE_SEATS,
        script: r#"1 {"do":"hello","seat":1,"key":"a"}
"#,
        takes: 1,
        output: r#"1 {"n":1,"ok":"hello","seat":1,"seats":3}
1 {"full":{"lights":{},"maps":[],"sights":{},"tokens":[]}}
"#,
        ..PLAIN
    },
    Run {
        name: "an output that takes nothing",
        campaign: THREE_SEATS,
        script: r#"1 {"do":"hello","seat":1,"key":"a"}
"#,
        takes: 0,
        status: 5,
        output: "",
        ..PLAIN
    },
    Run {
        name: "an output whose first write fails",
        campaign: THREE_SEATS,
        script: r#"1 {"do":"hello","seat":1,"key":"a"}
1 {"do":"look"}
"#,
        out_fails: &[0],
        status: 5,
        output: "",
        ..PLAIN
    },
    Run {
        name: "an output that fails at the last line",
        campaign: THREE_SEATS,
        script: "9 {}\n",
        out_fails: &[0],
        status: 7,
        output: "",
        ..PLAIN
    },
];
