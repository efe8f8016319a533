//! The laws of what is shown, each carried by a function that does nothing.
ghost use Rattle.player_view.specs.Laws.{AskedAlike, ShownFightsAlike, TestsTell};

/// What a player's rules ask of the scene is what they ask of its view.
pub fn asked_alike()
    ensures { AskedAlike }
{}

/// The tests that compute what is seen and shown hold exactly where the relations do.
pub fn tests_tell()
    ensures { TestsTell }
{}

/// What a player sees of a fight tells nothing of the entries of tokens that it isn't shown.
pub fn fights_are_shown()
    ensures { ShownFightsAlike }
{}
