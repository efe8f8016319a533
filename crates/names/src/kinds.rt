//! The small enumerations of maps, tokens, properties and walls, and the words by which commands
//! and campaign texts name their values.
ghost use Rattle.std.specs.Prelude.{◌≡◌, ◌≢◌, IfSome, IfNone, Some};
ghost use Rattle.names.specs.declared.kinds.Layer.{Layer};
ghost use Rattle.names.specs.declared.kinds.Mode.{Mode};
ghost use Rattle.names.specs.declared.kinds.PropClass.{PropClass};
ghost use Rattle.names.specs.declared.kinds.PropClass.TheVariants.{Secret};
ghost use Rattle.names.specs.declared.kinds.WallKind.{WallKind};
ghost use Rattle.names.specs.Words.{class_of, class_word, layer_of, layer_word, mode_of, mode_word, wall_of, wall_word};

/// How a map is lit, which says what a token with a sight sees of it.
#[derive(Clone, Copy, Debug, PartialEq, Eq)]
pub enum Mode {
    /// All cells are seen.
    Off,
    /// Cells that are clear and in range are seen.
    Day,
    /// Of the cells that day shows, those that are near or lit are seen.
    Night,
}

impl Mode {
    /// The word: `off`, `day` or `night`.
    #[tactic(auto, unfolding(crate::specs::Words::mode_word, crate::specs::Words::mode_of))]
    pub fn word(self) -> &'static str
        ensures value { result.now ≡ mode_word self }
        ensures back { mode_of result.now ≡ Some self }
    {
        match self {
            Mode::Off => "off",
            Mode::Day => "day",
            Mode::Night => "night",
        }
    }

    /// The value of this word; `None` exactly where no value has it.
    #[tactic(auto, unfolding(crate::specs::Words::mode_word, crate::specs::Words::mode_of))]
    pub fn read(word: &str) -> Option<Mode>
        ensures value { result ≡ mode_of word.now }
        ensures some { IfSome result (λ value. mode_word value ≡ word.now) }
        ensures none { IfNone result ((value : Mode) → mode_word value ≢ word.now) }
    {
        match word {
            "off" => Some(Mode::Off),
            "day" => Some(Mode::Day),
            "night" => Some(Mode::Night),
            _ => None,
        }
    }
}

/// The layer of a token.
#[derive(Clone, Copy, Debug, PartialEq, Eq)]
pub enum Layer {
    /// Shown on seen cells.
    Token,
    /// Shown to the game master alone.
    Hidden,
    /// Shown on exposed cells.
    Object,
    /// Shown on exposed cells, below all else.
    Background,
}

impl Layer {
    /// The word: `token`, `hidden`, `object` or `background`.
    #[tactic(auto, unfolding(crate::specs::Words::layer_word, crate::specs::Words::layer_of))]
    pub fn word(self) -> &'static str
        ensures value { result.now ≡ layer_word self }
        ensures back { layer_of result.now ≡ Some self }
    {
        match self {
            Layer::Token => "token",
            Layer::Hidden => "hidden",
            Layer::Object => "object",
            Layer::Background => "background",
        }
    }

    /// The value of this word; `None` exactly where no value has it.
    #[tactic(auto, unfolding(crate::specs::Words::layer_word, crate::specs::Words::layer_of))]
    pub fn read(word: &str) -> Option<Layer>
        ensures value { result ≡ layer_of word.now }
        ensures some { IfSome result (λ value. layer_word value ≡ word.now) }
        ensures none { IfNone result ((value : Layer) → layer_word value ≢ word.now) }
    {
        match word {
            "token" => Some(Layer::Token),
            "hidden" => Some(Layer::Hidden),
            "object" => Some(Layer::Object),
            "background" => Some(Layer::Background),
            _ => None,
        }
    }
}

/// What a wall blocks.
#[derive(Clone, Copy, Debug, PartialEq, Eq)]
pub enum WallKind {
    /// Sight and light (vision blocking layer).
    Vbl,
    /// Movement (movement blocking layer).
    Mbl,
}

impl WallKind {
    /// The word: `vbl` or `mbl`.
    #[tactic(auto, unfolding(crate::specs::Words::wall_word, crate::specs::Words::wall_of))]
    pub fn word(self) -> &'static str
        ensures value { result.now ≡ wall_word self }
        ensures back { wall_of result.now ≡ Some self }
    {
        match self {
            WallKind::Vbl => "vbl",
            WallKind::Mbl => "mbl",
        }
    }

    /// The value of this word; `None` exactly where no value has it.
    #[tactic(auto, unfolding(crate::specs::Words::wall_word, crate::specs::Words::wall_of))]
    pub fn read(word: &str) -> Option<WallKind>
        ensures value { result ≡ wall_of word.now }
        ensures some { IfSome result (λ value. wall_word value ≡ word.now) }
        ensures none { IfNone result ((value : WallKind) → wall_word value ≢ word.now) }
    {
        match word {
            "vbl" => Some(WallKind::Vbl),
            "mbl" => Some(WallKind::Mbl),
            _ => None,
        }
    }
}

/// The class of a token's property, which says who reads it. Each class has names of its own.
#[derive(Clone, Copy, Debug, PartialEq, Eq)]
pub enum PropClass {
    /// Whoever is shown the token.
    Public,
    /// The token's owners and the game master.
    Own,
    /// The game master.
    Secret,
}

impl PropClass {
    /// The word: `public`, `own` or `secret`.
    #[tactic(auto, unfolding(crate::specs::Words::class_word, crate::specs::Words::class_of))]
    pub fn word(self) -> &'static str
        ensures value { result.now ≡ class_word self }
        ensures back { self ≢ Secret → class_of result.now ≡ Some self }
    {
        match self {
            PropClass::Public => "public",
            PropClass::Own => "own",
            PropClass::Secret => "secret",
        }
    }

    /// The class that a command names by this word, `public` or `own`; `None` exactly where it is
    /// neither of these. No command names the class `Secret` by a word.
    #[tactic(auto, unfolding(crate::specs::Words::class_word, crate::specs::Words::class_of))]
    pub fn read(word: &str) -> Option<PropClass>
        ensures value { result ≡ class_of word.now }
        ensures some { IfSome result (λ value. class_word value ≡ word.now) }
        ensures never_secret { result ≢ Some Secret }
        ensures none { IfNone result ((value : PropClass) → value ≢ Secret → class_word value ≢ word.now) }
    {
        match word {
            "public" => Some(PropClass::Public),
            "own" => Some(PropClass::Own),
            _ => None,
        }
    }
}
