//! The functions that a macro may call, by name.

ghost use Rattle.std.specs.Prelude.{◌≡◌, ℕ};
ghost use Rattle.macro_grammar.specs.Grammar.{arity};
ghost use Rattle.macro_grammar.specs.Readers.{function_of};

use crate::words::Function;

impl Function {
    /// How many arguments it takes.
    pub fn arity(self) -> usize
        ensures { result ≡ arity self }
    {
        match self {
            Function::Argc => 0,
            Function::Arg | Function::Abs | Function::Len | Function::Num => 1,
            Function::Prop
            | Function::Own
            | Function::Secret
            | Function::Has
            | Function::Min
            | Function::Max => 2,
            Function::SetProp | Function::SetOwn => 3,
        }
    }
}

/// The function of a name.
#[tactic(auto, unfolding(crate::specs::Readers::function_of))]
pub fn function_of(name: &[u8]) -> Option<Function>
    ensures { result ≡ function_of name.now }
{
    match name {
        b"prop" => Some(Function::Prop),
        b"own" => Some(Function::Own),
        b"secret" => Some(Function::Secret),
        b"has" => Some(Function::Has),
        b"setprop" => Some(Function::SetProp),
        b"setown" => Some(Function::SetOwn),
        b"arg" => Some(Function::Arg),
        b"argc" => Some(Function::Argc),
        b"min" => Some(Function::Min),
        b"max" => Some(Function::Max),
        b"abs" => Some(Function::Abs),
        b"len" => Some(Function::Len),
        b"num" => Some(Function::Num),
        _ => None,
    }
}
