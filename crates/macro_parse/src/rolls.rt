//! Rolls: their options, and the statements behind them.

ghost use Rattle.std.specs.Prelude.{◌≡◌, ◌≤◌, ◌<◌, ◌-◌, ℕ, OnOk, List, [], ◌∷◌, length};
ghost use Rattle.macro_parse.specs.declared.nodes.Node.{Node};
ghost use Rattle.macro_grammar.specs.Tree.{Tree, Options as TheOptions};
ghost use Rattle.macro_grammar.specs.Grammar.{has_if};
ghost use Rattle.macro_grammar.specs.Readers.{is_branch_letter, address_word_at, branch_word_at, first_word_at, between_at, options_at, roll_end, roll_at};
ghost use Rattle.macro_grammar.specs.Limits.{AddressFits, BranchFits, FirstFits, OptionsFit, PieceFits};
ghost use Rattle.macro_parse.specs.Flat.{Shows, Finds, place};
ghost use Rattle.macro_parse.specs.FlatPieces.{ShowsAddress, ShowsBranch, ShowsFirst, ShowsOptions, ShowsPiece, Adds, AddsRoll};
ghost use Rattle.macro_parse.specs.Levels.{HeadIs};
ghost use Rattle.macro_parse.specs.Found.{Spells};

use crate::atoms::blanks;
use crate::nodes::{Address, Branch, Node, Options, Piece};
use crate::reader::{Reader, Stop, expect};
use reading::Cursor;

/// The option that stands first.
#[derive(Clone, Copy, Debug, PartialEq, Eq)]
pub(crate) enum First {
    ForWhom(Address),
    OnWhat(Branch),
}

fn spell_if(cursor: &mut Cursor<'_>) -> Result<(), Stop>
    ensures value { Spells (105 ∷ (102 ∷ [])) result cursor.old.rest.now cursor.new.rest.now }
    ensures shrinks { length cursor.new.rest.now ≤ length cursor.old.rest.now }
{
    expect(cursor, b'i')?;
    expect(cursor, b'f')
}

fn spell_count(cursor: &mut Cursor<'_>) -> Result<(), Stop>
    ensures value { Spells (99 ∷ (111 ∷ (117 ∷ (110 ∷ (116 ∷ []))))) result cursor.old.rest.now cursor.new.rest.now }
    ensures shrinks { length cursor.new.rest.now ≤ length cursor.old.rest.now }
{
    expect(cursor, b'c')?;
    expect(cursor, b'o')?;
    expect(cursor, b'u')?;
    expect(cursor, b'n')?;
    expect(cursor, b't')
}

/// Whether a second statement may stand.
fn has_if(options: Options) -> bool
    ensures { (nodes : List Node) (o : TheOptions) → ShowsOptions nodes options o → result ≡ has_if o }
{
    match options {
        Options::Addressed(_) => false,
        Options::Branched(branch)
        | Options::AddressFirst(_, branch)
        | Options::BranchFirst(branch, _) => matches!(branch, Branch::If { .. }),
    }
}

impl Reader<'_> {
    /// Whom a roll is for.
    fn address(&mut self, depth: u32) -> Result<Address, Stop>
        requires nests { 0 < depth }
        requires place { length self.old.cursor.rest.now ≤ self.old.end }
        ensures value { Finds (Adds ShowsAddress AddressFits self.old.nodes.items self.new.nodes.items)
            (λ turns. address_word_at (depth - 1) turns
            (place self.old.end self.old.cursor.rest.now)) result self.old.cursor.rest.now self.new.cursor.rest.now }
        ensures end { self.new.end ≡ self.old.end }
        ensures shrinks { length self.new.cursor.rest.now ≤ length self.old.cursor.rest.now }
    {
        let at = self.at();
        let Some((first, rest)) = self.cursor.rest.split_first() else {
            return Err(Stop::Off);
        };
        match *first {
            b'r' => {
                self.cursor.rest = rest;
                Ok(Address::Receivers { at })
            }
            b'h' => {
                self.cursor.rest = rest;
                Ok(Address::Hidden { at })
            }
            b's' => {
                self.cursor.rest = rest;
                Ok(Address::Runner { at })
            }
            b'g' => {
                self.cursor.rest = rest;
                if self.cursor.takes(b's') {
                    return Ok(Address::Both { at });
                }
                Ok(Address::Master { at })
            }
            b'w' => {
                self.cursor.rest = rest;
                let seat = self.group(depth)?;
                Ok(Address::Whisper { at, seat })
            }
            _ => Err(Stop::Off),
        }
    }

    /// What a roll's statements hang on.
    fn branch(&mut self, depth: u32) -> Result<Branch, Stop>
        requires nests { 0 < depth }
        requires place { length self.old.cursor.rest.now ≤ self.old.end }
        ensures value { Finds (Adds ShowsBranch BranchFits self.old.nodes.items self.new.nodes.items)
            (λ turns. branch_word_at (depth - 1) turns
            (place self.old.end self.old.cursor.rest.now)) result self.old.cursor.rest.now self.new.cursor.rest.now }
        ensures end { self.new.end ≡ self.old.end }
        ensures shrinks { length self.new.cursor.rest.now ≤ length self.old.cursor.rest.now }
    {
        let at = self.at();
        if self.next_is(b'i') {
            spell_if(&mut self.cursor)?;
            let condition = self.group(depth)?;
            return Ok(Branch::If { at, condition });
        }
        spell_count(&mut self.cursor)?;
        let times = self.group(depth)?;
        Ok(Branch::Count { at, times })
    }

    /// Whether the next byte is the first one of a branch.
    fn next_is_branch(&self) -> bool
        ensures { HeadIs is_branch_letter self.now.cursor.rest.now result }
    {
        match self.cursor.rest.split_first() {
            None => false,
            Some((first, _)) => *first == b'i' || *first == b'c',
        }
    }

    /// Either, by its first letter.
    fn first(&mut self, depth: u32) -> Result<First, Stop>
        requires nests { 0 < depth }
        requires place { length self.old.cursor.rest.now ≤ self.old.end }
        ensures value { Finds (Adds ShowsFirst FirstFits self.old.nodes.items self.new.nodes.items)
            (λ turns. first_word_at (depth - 1) turns
            (place self.old.end self.old.cursor.rest.now)) result self.old.cursor.rest.now self.new.cursor.rest.now }
        ensures end { self.new.end ≡ self.old.end }
        ensures shrinks { length self.new.cursor.rest.now ≤ length self.old.cursor.rest.now }
    {
        if self.next_is_branch() {
            let branch = self.branch(depth)?;
            return Ok(First::OnWhat(branch));
        }
        let address = self.address(depth)?;
        Ok(First::ForWhom(address))
    }

    fn first_between_blanks(&mut self, depth: u32) -> Result<First, Stop>
        requires nests { 0 < depth }
        requires place { length self.old.cursor.rest.now ≤ self.old.end }
        ensures value { Finds (Adds ShowsFirst FirstFits self.old.nodes.items self.new.nodes.items)
            (λ turns. between_at (first_word_at (depth - 1) turns)
            (place self.old.end self.old.cursor.rest.now)) result self.old.cursor.rest.now self.new.cursor.rest.now }
        ensures end { self.new.end ≡ self.old.end }
        ensures shrinks { length self.new.cursor.rest.now ≤ length self.old.cursor.rest.now }
    {
        blanks(&mut self.cursor);
        let word = self.first(depth)?;
        blanks(&mut self.cursor);
        Ok(word)
    }

    fn address_between_blanks(&mut self, depth: u32) -> Result<Address, Stop>
        requires nests { 0 < depth }
        requires place { length self.old.cursor.rest.now ≤ self.old.end }
        ensures value { Finds (Adds ShowsAddress AddressFits self.old.nodes.items self.new.nodes.items)
            (λ turns. between_at (address_word_at (depth - 1) turns)
            (place self.old.end self.old.cursor.rest.now)) result self.old.cursor.rest.now self.new.cursor.rest.now }
        ensures end { self.new.end ≡ self.old.end }
        ensures shrinks { length self.new.cursor.rest.now ≤ length self.old.cursor.rest.now }
    {
        blanks(&mut self.cursor);
        let word = self.address(depth)?;
        blanks(&mut self.cursor);
        Ok(word)
    }

    fn branch_between_blanks(&mut self, depth: u32) -> Result<Branch, Stop>
        requires nests { 0 < depth }
        requires place { length self.old.cursor.rest.now ≤ self.old.end }
        ensures value { Finds (Adds ShowsBranch BranchFits self.old.nodes.items self.new.nodes.items)
            (λ turns. between_at (branch_word_at (depth - 1) turns)
            (place self.old.end self.old.cursor.rest.now)) result self.old.cursor.rest.now self.new.cursor.rest.now }
        ensures end { self.new.end ≡ self.old.end }
        ensures shrinks { length self.new.cursor.rest.now ≤ length self.old.cursor.rest.now }
    {
        blanks(&mut self.cursor);
        let word = self.branch(depth)?;
        blanks(&mut self.cursor);
        Ok(word)
    }

    /// One option, or one of either kind.
    fn options(&mut self, depth: u32) -> Result<Options, Stop>
        requires nests { 0 < depth }
        requires place { length self.old.cursor.rest.now ≤ self.old.end }
        ensures value { Finds (Adds ShowsOptions OptionsFit self.old.nodes.items self.new.nodes.items)
            (λ turns. options_at (depth - 1) turns
            (place self.old.end self.old.cursor.rest.now)) result self.old.cursor.rest.now self.new.cursor.rest.now }
        ensures end { self.new.end ≡ self.old.end }
        ensures shrinks { length self.new.cursor.rest.now ≤ length self.old.cursor.rest.now }
    {
        match self.first_between_blanks(depth)? {
            First::ForWhom(address) => {
                if !self.cursor.takes(b',') {
                    return Ok(Options::Addressed(address));
                }
                let branch = self.branch_between_blanks(depth)?;
                Ok(Options::AddressFirst(address, branch))
            }
            First::OnWhat(branch) => {
                if !self.cursor.takes(b',') {
                    return Ok(Options::Branched(branch));
                }
                let address = self.address_between_blanks(depth)?;
                Ok(Options::BranchFirst(branch, address))
            }
        }
    }

    /// What stands behind a roll's first statement.
    fn roll_end(
        &mut self,
        depth: u32,
        at: u32,
        options: Options,
        first: usize,
    ) -> Result<Piece, Stop>
        requires nests { 0 < depth }
        requires place { length self.old.cursor.rest.now ≤ self.old.end }
        ensures value { (o : TheOptions) (x : Tree) → ShowsOptions self.old.nodes.items options o → Shows self.old.nodes.items first x
            → Finds (AddsRoll o x self.old.nodes.items self.new.nodes.items)
            (λ turns. roll_end (depth - 1) turns at o
            (place self.old.end self.old.cursor.rest.now) x) result self.old.cursor.rest.now self.new.cursor.rest.now }
        ensures end { self.new.end ≡ self.old.end }
        ensures shrinks { length self.new.cursor.rest.now ≤ length self.old.cursor.rest.now }
    {
        if has_if(options) && self.next_is(b';') {
            expect(&mut self.cursor, b';')?;
            let second = self.statement(depth)?;
            expect(&mut self.cursor, b']')?;
            return Ok(Piece::Roll {
                at,
                options,
                first,
                second: Some(second),
            });
        }
        expect(&mut self.cursor, b']')?;
        Ok(Piece::Roll {
            at,
            options,
            first,
            second: None,
        })
    }

    /// A roll in which so many may nest.
    pub(crate) fn roll(&mut self, depth: u32) -> Result<Piece, Stop>
        requires nests { 0 < depth }
        requires place { length self.old.cursor.rest.now ≤ self.old.end }
        ensures value { Finds (Adds ShowsPiece PieceFits self.old.nodes.items self.new.nodes.items)
            (λ turns. roll_at (depth - 1) turns
            (place self.old.end self.old.cursor.rest.now)) result self.old.cursor.rest.now self.new.cursor.rest.now }
        ensures end { self.new.end ≡ self.old.end }
        ensures shorter { OnOk result (length self.new.cursor.rest.now < length self.old.cursor.rest.now) }
        ensures shrinks { length self.new.cursor.rest.now ≤ length self.old.cursor.rest.now }
    {
        let at = self.at();
        expect(&mut self.cursor, b'[')?;
        let options = self.options(depth)?;
        expect(&mut self.cursor, b':')?;
        let first = self.statement(depth)?;
        self.roll_end(depth, at, options, first)
    }
}
