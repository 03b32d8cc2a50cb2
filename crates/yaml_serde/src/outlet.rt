//! The destination of a document's bytes.
ghost use Rattle.std.specs.Prelude.{◌≡◌};
ghost use Rattle.yaml_serde.specs.Outlets.{HandsOn};

use crate::error::{Cause, Error};
use std::alloc::Global;
use std::io;
use std::io::Write;
use yaml_writer::Writer;

/// Whether the bytes of a document are handed on.
#[derive(Drop)]
pub(crate) enum Handing {
    /// They stay with the writer, and the sink gets none.
    Kept,
    /// They go to the sink as they are flushed.
    Open,
    /// The sink failed.
    Failed(io::Error),
}

/// The destination of a document's bytes.
#[derive(Drop)]
pub(crate) struct Outlet<'a, W> {
    pub(crate) sink: &'a mut W,
    pub(crate) handing: Handing,
}

/// Hands on the flushed bytes. An error is that of the sink, which the outlet then holds.
pub(crate) fn hand_on<W: Write>(
    writer: &mut Writer<Global>,
    outlet: &mut Outlet<'_, W>,
) -> Result<(), Error>
    ensures hands { HandsOn W.contents outlet.old.handing outlet.old writer.old result outlet.new writer.new }
    ensures same { outlet.new.sink.ghost_name ≡ outlet.old.sink.ghost_name }
{
    match &outlet.handing {
        Handing::Kept => return Ok(()),
        Handing::Failed(error) => return Err(Error::from(Cause::Sink(*error))),
        Handing::Open => {}
    }
    match writer.send(outlet.sink) {
        Ok(()) => Ok(()),
        Err(error) => {
            outlet.handing = Handing::Failed(error);
            Err(Error::from(Cause::Sink(error)))
        }
    }
}
