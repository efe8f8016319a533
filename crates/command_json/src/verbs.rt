//! The words that name commands.
ghost use Rattle.std.specs.Prelude.{◌≡◌, codes};
ghost use Rattle.serde_json.specs.View.{view};
ghost use Rattle.json_fields.specs.Fields.{word_in};
ghost use Rattle.command_json.specs.Verbs.{name_of, verbs, gm_verbs};

use crate::command::Command;
use json_fields::fields::word;
use serde_json::Value;

/// A command that every seat may give.
#[derive(Clone, Copy)]
pub(crate) enum Verb {
    Hello,
    Bye,
    Look,
    Say,
    Roll,
    Macro,
    Setmacro,
    Move,
    Setprop,
    Light,
    Make,
    Remove,
    Init,
    Uninit,
}

/// A command that the game master alone may give.
#[derive(Clone, Copy)]
pub(crate) enum GmVerb {
    Map,
    Mode,
    Show,
    Trail,
    Terrain,
    Wall,
    Unwall,
    Lighttype,
    Sighttype,
    Token,
    Own,
    Layer,
    Visible,
    Sight,
    Place,
    Secret,
    Expose,
    Hide,
    Turn,
    Endfight,
    Dump,
}

pub(crate) fn read_verb(value: &Value) -> Option<Verb>
    ensures { result ≡ word_in (codes "do") verbs (view value.now) }
{
    let table = [
        ("hello", Verb::Hello),
        ("bye", Verb::Bye),
        ("look", Verb::Look),
        ("say", Verb::Say),
        ("roll", Verb::Roll),
        ("macro", Verb::Macro),
        ("setmacro", Verb::Setmacro),
        ("move", Verb::Move),
        ("setprop", Verb::Setprop),
        ("light", Verb::Light),
        ("make", Verb::Make),
        ("remove", Verb::Remove),
        ("init", Verb::Init),
        ("uninit", Verb::Uninit),
    ];
    word(value, "do", &table)
}

pub(crate) fn read_gm_verb(value: &Value) -> Option<GmVerb>
    ensures { result ≡ word_in (codes "do") gm_verbs (view value.now) }
{
    let table = [
        ("map", GmVerb::Map),
        ("mode", GmVerb::Mode),
        ("show", GmVerb::Show),
        ("trail", GmVerb::Trail),
        ("terrain", GmVerb::Terrain),
        ("wall", GmVerb::Wall),
        ("unwall", GmVerb::Unwall),
        ("lighttype", GmVerb::Lighttype),
        ("sighttype", GmVerb::Sighttype),
        ("token", GmVerb::Token),
        ("own", GmVerb::Own),
        ("layer", GmVerb::Layer),
        ("visible", GmVerb::Visible),
        ("sight", GmVerb::Sight),
        ("place", GmVerb::Place),
        ("secret", GmVerb::Secret),
        ("expose", GmVerb::Expose),
        ("hide", GmVerb::Hide),
        ("turn", GmVerb::Turn),
        ("endfight", GmVerb::Endfight),
        ("dump", GmVerb::Dump),
    ];
    word(value, "do", &table)
}

impl Command {
    /// The word that names the command; where the command is accepted, the reply has it as `ok`.
    pub fn name(&self) -> &'static str
        ensures { result.now ≡ name_of self.now }
    {
        match self {
            Command::Hello { .. } => "hello",
            Command::Bye => "bye",
            Command::Look => "look",
            Command::Say { .. } => "say",
            Command::Roll { .. } => "roll",
            Command::Macro { .. } => "macro",
            Command::Setmacro { .. } => "setmacro",
            Command::Move { .. } => "move",
            Command::Setprop { .. } => "setprop",
            Command::Light { .. } => "light",
            Command::Make { .. } => "make",
            Command::Remove { .. } => "remove",
            Command::Map { .. } => "map",
            Command::Mode { .. } => "mode",
            Command::Show { .. } => "show",
            Command::Trail { .. } => "trail",
            Command::Terrain { .. } => "terrain",
            Command::Wall { .. } => "wall",
            Command::Unwall { .. } => "unwall",
            Command::Lighttype { .. } => "lighttype",
            Command::Sighttype { .. } => "sighttype",
            Command::Token { .. } => "token",
            Command::Own { .. } => "own",
            Command::Layer { .. } => "layer",
            Command::Visible { .. } => "visible",
            Command::Sight { .. } => "sight",
            Command::Place { .. } => "place",
            Command::Secret { .. } => "secret",
            Command::Expose { .. } => "expose",
            Command::Hide { .. } => "hide",
            Command::Init { .. } => "init",
            Command::Uninit { .. } => "uninit",
            Command::Turn => "turn",
            Command::Endfight => "endfight",
            Command::Dump => "dump",
        }
    }
}
