//! The words of macros.

/// Operators between two values, from the weakest to the strongest.
#[derive(Clone, Copy, Debug, PartialEq, Eq)]
pub enum Operator {
    Or,
    And,
    Equal,
    NotEqual,
    LessOrEqual,
    GreaterOrEqual,
    Less,
    Greater,
    Add,
    Subtract,
    Multiply,
    Divide,
    Remainder,
}

/// The functions that a macro may call.
#[derive(Clone, Copy, Debug, PartialEq, Eq)]
pub enum Function {
    Prop,
    Own,
    Secret,
    Has,
    SetProp,
    SetOwn,
    Arg,
    Argc,
    Min,
    Max,
    Abs,
    Len,
    Num,
}
