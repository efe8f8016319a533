//! Why a macro's run stops.

ghost use Rattle.std.specs.Prelude.{◌≡◌};

/// What is wrong with a value.
#[derive(Clone, Copy, Debug, PartialEq, Eq)]
pub enum FaultKind {
    /// A name that wasn't set.
    NoName,
    /// No readable property, whatever the cause.
    NoProp,
    /// No token of that id that the runner may change.
    NotYours,
    /// A text in place of a number, or one that spells no number.
    NotNumber,
    /// A number in place of a text.
    NotText,
    /// The divisor is 0.
    DivZero,
    /// A property name that is no tag.
    BadName,
    /// A property value of more than 200 bytes.
    LongValue,
    /// A text value of more than 4,000 bytes.
    LongText,
    /// All pieces so far have more than 16,000 bytes.
    LongOutput,
    /// A count off 0 to 1,000.
    BadCount,
    /// No argument of that number.
    BadArg,
    /// A whisper to a number that isn't a seat.
    NoSeat,
}

/// Why a run stops.
#[derive(Clone, Copy, Debug, PartialEq, Eq)]
pub enum MacroStop {
    /// The 10,001st unit would be used.
    Budget,
    /// A fault of the node, operator, option or piece that begins at the byte `at` of the macro's text.
    Fault { kind: FaultKind, at: u32 },
    /// A number leaves 64 bits with sign.
    Overflow,
    /// Want of memory.
    Memory,
}

/// A stop by a fault.
pub(crate) fn fault(kind: FaultKind, at: u32) -> MacroStop
    ensures { result ≡ MacroStop.Fault kind at }
{
    MacroStop::Fault { kind, at }
}
