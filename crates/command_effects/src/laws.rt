//! The law of scenes that follow each other, carried by a function that does nothing.
ghost use Rattle.command_effects.specs.Follows.{ScenesFollow};

/// No allowed command takes a map, changes a map's size or takes a type.
pub fn scenes_follow()
    ensures { ScenesFollow }
{}
