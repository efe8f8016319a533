//! Maps as a seat sees them.
ghost use Rattle.view_lines.specs.Lines.{map_data};

use crate::ground::put_terrain;
use crate::parts::Part;
use crate::runs::put_runs;
use crate::values::{put_flag, put_text, put_whole};
use json::Writer;
use std::alloc::{AllocError, Global};
use views::MapView;

impl Part for MapView {
    ghost data_of = { map_data };

    fn put(&self, writer: &mut Writer, alloc: Global) -> Result<(), AllocError> {
        writer.begin_object()?;
        writer.key("ground")?;
        put_terrain(writer, alloc, &self.exposed, self.letters.items())?;
        put_whole(writer, "h", self.size.h())?;
        put_text(writer, "mode", self.mode.word())?;
        put_text(writer, "name", self.name.text())?;
        writer.key("seen")?;
        put_runs(writer, &self.seen)?;
        put_flag(writer, "shown", self.shown)?;
        put_whole(writer, "w", self.size.w())?;
        writer.end_object()
    }
}
