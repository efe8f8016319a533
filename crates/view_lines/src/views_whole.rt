//! Whole views.
ghost use Rattle.view_lines.specs.Lines.{view_data};

use crate::fights::put_fight;
use crate::parts::{Part, put_list};
use crate::types::put_types;
use json::Writer;
use std::alloc::{AllocError, Global};
use views::View;

impl Part for View {
    ghost data_of = { view_data };

    fn put(&self, writer: &mut Writer, alloc: Global) -> Result<(), AllocError> {
        writer.begin_object()?;
        put_fight(writer, alloc, &self.fight)?;
        writer.key("lights")?;
        put_types(writer, alloc, self.lights.items())?;
        writer.key("maps")?;
        put_list(writer, alloc, self.maps.items())?;
        writer.key("sights")?;
        put_types(writer, alloc, self.sights.items())?;
        writer.key("tokens")?;
        put_list(writer, alloc, self.tokens.items())?;
        writer.end_object()
    }
}
