//! What macros are made of.

use dice_parse::Group;
use macro_grammar::{Function, Operator};
use names::Text;

/// The arguments of a call, as indices of nodes.
#[derive(Clone, Copy, Debug, PartialEq, Eq)]
pub enum Arguments {
    Nothing,
    One(usize),
    Two(usize, usize),
    Three(usize, usize, usize),
}

/// A node of an expression. The nodes of a macro stand in one list, and a node names its parts by their indices there.
/// `at` is the node's first byte in the text, or the operator's of a binary one.
#[derive(Drop)]
pub enum Node {
    Number {
        at: u32,
        value: u64,
    },
    Dice {
        at: u32,
        group: Group,
    },
    Quoted {
        at: u32,
        text: Text,
    },
    Name {
        at: u32,
        name: Vec<u8>,
    },
    Call {
        at: u32,
        function: Function,
        arguments: Arguments,
    },
    Negated {
        at: u32,
        of: usize,
    },
    Inverted {
        at: u32,
        of: usize,
    },
    Binary {
        at: u32,
        operator: Operator,
        left: usize,
        right: usize,
    },
    Assigned {
        at: u32,
        name: Vec<u8>,
        value: usize,
    },
}

/// Whom a roll is for. `at` is the first byte of its word.
#[derive(Clone, Copy, Debug, PartialEq, Eq)]
pub enum Address {
    /// `r`: those that the macro is run to.
    Receivers { at: u32 },
    /// `h`: nobody.
    Hidden { at: u32 },
    /// `g`: the master of the game.
    Master { at: u32 },
    /// `s`: the one that runs the macro.
    Runner { at: u32 },
    /// `gs`: the master and the runner.
    Both { at: u32 },
    /// `w(..)`: the seat that is the value of a node.
    Whisper { at: u32, seat: usize },
}

/// What a roll's statements hang on. `at` is the first byte of its word.
#[derive(Clone, Copy, Debug, PartialEq, Eq)]
pub enum Branch {
    /// `if(..)`: the first statement counts where the node's value isn't 0, else the second.
    If { at: u32, condition: usize },
    /// `count(..)`: the statement is evaluated so many times.
    Count { at: u32, times: usize },
}

/// The options of a roll, in the order in which they stand.
#[derive(Clone, Copy, Debug, PartialEq, Eq)]
pub enum Options {
    Addressed(Address),
    Branched(Branch),
    AddressFirst(Address, Branch),
    BranchFirst(Branch, Address),
}

/// A piece of a macro. `at` is its first byte.
#[derive(Drop)]
pub enum Piece {
    /// Plain text with its escapes undone, as long as no roll comes.
    Plain {
        at: u32,
        text: Text,
    },
    /// A roll: its options, the node of its statement, and that of the second one where there is one.
    Roll {
        at: u32,
        options: Options,
        first: usize,
        second: Option<usize>,
    },
}
