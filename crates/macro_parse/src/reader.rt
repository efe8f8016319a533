//! A macro's text as it is read.

ghost use Rattle.std.specs.Prelude.{◌≡◌, ◌≤◌, ◌<◌, IfOk, IfErr, OnOk, length, nat_eq};
ghost use Rattle.macro_parse.specs.Flat.{Kept, place};
ghost use Rattle.macro_grammar.specs.Readers.{is_letter};
ghost use Rattle.macro_parse.specs.Levels.{HeadIs};
ghost use Rattle.macro_parse.specs.Found.{Expects};

use crate::nodes::Node;
use names::Text;
use reading::Cursor;

/// Why reading stops.
#[derive(Clone, Copy, Debug, PartialEq, Eq)]
pub(crate) enum Stop {
    /// The text leaves the grammar where the cursor stands.
    Off,
    /// Want of memory.
    Memory,
}

/// What is left of a text of `end` bytes, and the nodes read so far.
#[derive(Drop)]
pub(crate) struct Reader<'a> {
    pub(crate) end: u32,
    pub(crate) cursor: Cursor<'a>,
    pub(crate) nodes: Vec<Node>,
}

impl Reader<'_> {
    /// The place of the next byte.
    pub(crate) fn at(&self) -> u32
        requires { length self.now.cursor.rest.now ≤ self.now.end }
        ensures { result ≡ place self.now.end self.now.cursor.rest.now }
    {
        self.end - self.cursor.rest.len() as u32
    }

    /// Whether the next byte is the wanted one.
    pub(crate) fn next_is(&self, wanted: u8) -> bool
        ensures { HeadIs (nat_eq wanted) self.now.cursor.rest.now result }
    {
        match self.cursor.rest.split_first() {
            None => false,
            Some((first, _)) => *first == wanted,
        }
    }

    /// Whether the next byte is a letter from a to z.
    pub(crate) fn next_is_letter(&self) -> bool
        ensures { HeadIs is_letter self.now.cursor.rest.now result }
    {
        match self.cursor.rest.split_first() {
            None => false,
            Some((first, _)) => first.is_ascii_lowercase(),
        }
    }
}

/// The bytes as a text. What stands between ASCII bytes of a text is UTF-8 again, so that only memory can want.
pub(crate) fn text_of(bytes: Vec<u8>) -> Result<Text, Stop>
    ensures text { IfOk result (λ text. text ≡ bytes.items) }
    ensures memory { IfErr result (λ stop. stop ≡ Stop.Memory) }
{
    let Ok(text) = String::from_utf8(bytes) else {
        return Err(Stop::Memory);
    };
    match Text::new(text) {
        Ok(text) => Ok(text),
        Err(_) => Err(Stop::Memory),
    }
}

/// Puts a node behind the others, and says where.
pub(crate) fn keep(nodes: &mut Vec<Node>, node: Node) -> Result<usize, Stop>
    ensures kept { IfOk result (λ i. Kept nodes.old.items nodes.new.items i node) }
    ensures memory { IfErr result (λ stop. stop ≡ Stop.Memory) }
{
    let place = nodes.len();
    match nodes.push(node) {
        Ok(()) => Ok(place),
        Err(_) => Err(Stop::Memory),
    }
}

/// Takes the wanted byte, which has to come next.
pub(crate) fn expect(cursor: &mut Cursor<'_>, wanted: u8) -> Result<(), Stop>
    ensures value { Expects wanted result cursor.old.rest.now cursor.new.rest.now }
    ensures shorter { OnOk result (length cursor.new.rest.now < length cursor.old.rest.now) }
    ensures shrinks { length cursor.new.rest.now ≤ length cursor.old.rest.now }
{
    if cursor.takes(wanted) {
        Ok(())
    } else {
        Err(Stop::Off)
    }
}
