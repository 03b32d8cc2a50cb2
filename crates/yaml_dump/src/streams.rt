//! Opens and closes streams as a whole.

ghost use Rattle.std.specs.Prelude.{◌≡◌, true, false, None, [], ◌∷◌, ◌++◌, IsSome, OnOk, is_ok};
ghost use Rattle.yaml_base.specs.Event.{stream_start, stream_end};
ghost use Rattle.yaml_dump.specs.Dumps.{Closes, ReadsGraphs};
ghost use Rattle.yaml_dump.specs.GraphTrees.{ReadsTrees};
ghost use Rattle.yaml_emitter.specs.Emits.{Emits};

use std::alloc::Allocator;
use yaml_base::{YAML_ANY_ENCODING, YAML_STREAM_END_EVENT, YAML_STREAM_START_EVENT, yaml_error_t};
use yaml_emitter::{yaml_emitter_emit, yaml_emitter_t};

/// Opens the stream: emits its start. An output must be set, and the stream not be opened. The encoding is the emitter's, or UTF-8 if none is set.
///
/// # Errors
///
/// Those of `yaml_emitter_emit`; the stream is then not opened.
pub fn yaml_emitter_open<A: Allocator + Copy>(
    emitter: &mut yaml_emitter_t<A>,
) -> Result<(), yaml_error_t>
    requires output { emitter.old.has_output ≡ true }
    requires not_opened { emitter.old.opened ≡ false }
    ensures emits { Emits (record emitter.old { opened = is_ok result }) (stream_start None ∷ []) result emitter.new }
    ensures kept { IsSome emitter.old.error
        → emitter.new ≡ record emitter.old { events = emitter.old.events ++ stream_start None ∷ []; started = true } }
    ensures output { emitter.new.has_output ≡ true }
{
    let start = YAML_STREAM_START_EVENT {
        encoding: YAML_ANY_ENCODING,
    };
    if let Err(error) = yaml_emitter_emit(emitter, start) {
        return Err(error);
    }
    emitter.mark_opened();
    Ok(())
}

/// Closes a stream that was opened: emits its end. If it is closed already, nothing is done, and no memory is needed.
///
/// If documents were dumped in canonical mode, the canonical reader finds in the output contents that unfold their graphs,
/// document by document, with each document's version and directives. In every mode, so does the reader of whole streams, for
/// which a node without a tag has that of its kind; if portable mode is off, two kinds of streams are excepted
/// (`streams_read_back` of `yaml_emitter`).
///
/// # Errors
///
/// Those of `yaml_emitter_emit`; the stream is then not closed.
pub fn yaml_emitter_close<A: Allocator + Copy>(
    emitter: &mut yaml_emitter_t<A>,
) -> Result<(), yaml_error_t>
    requires opened { emitter.old.opened ≡ true }
    ensures closes { Closes emitter.old result emitter.new }
    ensures kept { emitter.old.closed ≡ false → IsSome emitter.old.error
        → emitter.new ≡ record emitter.old { events = emitter.old.events ++ stream_end ∷ []; started = true } }
    ensures graphs { emitter.old.closed ≡ false → OnOk result (ReadsGraphs emitter.new) }
    ensures trees { emitter.old.closed ≡ false → OnOk result (ReadsTrees emitter.new) }
{
    if emitter.is_closed() {
        return Ok(());
    }
    // A law: an output is set once the stream is opened.
    let _ = emitter.is_opened();
    if let Err(error) = yaml_emitter_emit(emitter, YAML_STREAM_END_EVENT) {
        return Err(error);
    }
    emitter.mark_closed();
    // A law: the consequences of the events that were given.
    emitter.promised();
    Ok(())
}
