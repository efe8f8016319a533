//! Fights as a seat sees them.
ghost use Rattle.std.specs.Prelude.{codes, OnOk};
ghost use Rattle.json_lines.specs.Added.{Adds};
ghost use Rattle.json_lines.specs.Tokens.{value_tokens};
ghost use Rattle.view_lines.specs.Lines.{entry_data, id_or_null, fight_data, fight_or_null};
ghost use Rattle.view_lines.specs.Tokens.{some_tokens};

use crate::parts::{Part, put_list};
use json::Writer;
use names::TokenId;
use std::alloc::{AllocError, Global};
use views::FightView;

/// An entry as a pair of its token's id and its value.
impl Part for (TokenId, i16) {
    ghost data_of = { entry_data };

    fn put(&self, writer: &mut Writer, alloc: Global) -> Result<(), AllocError> {
        writer.begin_array()?;
        self.0.put(writer, alloc)?;
        writer.i64(i64::from(self.1))?;
        writer.end_array()
    }
}

fn put_turn(writer: &mut Writer, alloc: Global, turn: Option<TokenId>) -> Result<(), AllocError>
    ensures { OnOk result (Adds writer.old writer.new (value_tokens (id_or_null turn))) }
{
    match turn {
        None => writer.null(),
        Some(id) => id.put(writer, alloc),
    }
}

impl Part for FightView {
    ghost data_of = { fight_data };

    fn put(&self, writer: &mut Writer, alloc: Global) -> Result<(), AllocError> {
        writer.begin_object()?;
        writer.key("list")?;
        put_list(writer, alloc, self.list.items())?;
        writer.key("round")?;
        writer.u64(u64::from(self.round))?;
        writer.key("turn")?;
        put_turn(writer, alloc, self.turn)?;
        writer.end_object()
    }
}

/// Writes the member with the part, where there is one.
pub(crate) fn put_fight(
    writer: &mut Writer,
    alloc: Global,
    fight: &Option<FightView>,
) -> Result<(), AllocError>
    ensures { OnOk result (Adds writer.old writer.new (some_tokens (codes "fight") fight_data fight.now)) }
{
    let Some(fight) = fight else {
        return Ok(());
    };
    writer.key("fight")?;
    fight.put(writer, alloc)
}

fn put_fight_or_null(
    writer: &mut Writer,
    alloc: Global,
    fight: &Option<FightView>,
) -> Result<(), AllocError>
    ensures { OnOk result (Adds writer.old writer.new (value_tokens (fight_or_null fight.now))) }
{
    match fight {
        None => writer.null(),
        Some(fight) => fight.put(writer, alloc),
    }
}

/// Writes the member with the part that is new, or with null, where the part differs.
pub(crate) fn put_new_fight(
    writer: &mut Writer,
    alloc: Global,
    fight: &Option<Option<FightView>>,
) -> Result<(), AllocError>
    ensures { OnOk result (Adds writer.old writer.new (some_tokens (codes "fight") fight_or_null fight.now)) }
{
    let Some(fight) = fight else {
        return Ok(());
    };
    writer.key("fight")?;
    put_fight_or_null(writer, alloc, fight)
}
