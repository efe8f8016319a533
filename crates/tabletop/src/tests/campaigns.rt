//! Campaigns of the runs, each with seeds of zeros.

/// The game master and one player.
pub(super) const TWO_SEATS: &str =
    r#"{"format":2,"lights":{},"maps":[],"seats":[{"drawn":0,"fog":{},"key":"g","macros":{},"seed":"0000000000000000000000000000000000000000000000000000000000000000","tags":[]},{"drawn":0,"fog":{},"key":"a","macros":{},"seed":"0000000000000000000000000000000000000000000000000000000000000000","tags":[]}],"sights":{},"tokens":[]}"#;

/// The game master and two players.
pub(super) const THREE_SEATS: &str =
    r#"{"format":2,"lights":{},"maps":[],"seats":[{"drawn":0,"fog":{},"key":"g","macros":{},"seed":"0000000000000000000000000000000000000000000000000000000000000000","tags":[]},{"drawn":0,"fog":{},"key":"a","macros":{},"seed":"0000000000000000000000000000000000000000000000000000000000000000","tags":[]},{"drawn":0,"fog":{},"key":"b","macros":{},"seed":"0000000000000000000000000000000000000000000000000000000000000000","tags":[]}],"sights":{},"tokens":[]}"#;

/// The game master and one player, whose token stands in a cave that a wall cuts in two.
pub(crate) const CAVE: &str =
    r#"{"format":1,"lights":{},"maps":[{"h":3,"mbl":[],"mode":"day","name":"cave","rows":["...","...","..."],"shown":true,"vbl":[[2,0,2,4]],"w":3}],"seats":[{"drawn":0,"fog":{},"key":"g","macros":{},"seed":"0000000000000000000000000000000000000000000000000000000000000000","tags":[]},{"drawn":0,"fog":{},"key":"a","macros":{},"seed":"0000000000000000000000000000000000000000000000000000000000000000","tags":["ann"]}],"sights":{"human":[10,0,2]},"tokens":[{"cell":[0,0],"id":"1:ann","layer":"token","light":null,"map":"cave","name":"Ann","own":[],"owners":[1],"props":[],"secret":[],"sight":"human","size":1,"visible":true}]}"#;
