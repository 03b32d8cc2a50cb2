//! A whole run: reads a script, emits its events, and writes the output.
ghost use Rattle.std.specs.Prelude.{◌≡◌, None, true, [], map, IfSome};
ghost use Rattle.yaml_base.specs.scripts.Script as notation;
ghost use Rattle.yaml_tool.specs.Runs.{RunsTo, FlushesLast, AnswersScript, WritesNothing, ReadsAll};
ghost use Rattle.yaml_tool.specs.Scripts.{seen_numbered};

use crate::answers::run_answer_t;
use crate::parts::read_script_from;
use crate::scripts::NumberedEvent;
use std::alloc::Allocator;
use std::io::{Read, Write};
use yaml_base::write_to_sink;
use yaml_emitter::{yaml_emitter_emit, yaml_emitter_flush, yaml_emitter_t};

/// Reads a script to its end, emits its events, and writes the output, even if an event was refused.
///
/// After a bad line nothing is written. If the writer fails, it has a prefix of the output, which may be empty.
pub fn run<A: Allocator + Copy, R: Read, W: Write>(
    alloc: A,
    reader: &mut R,
    writer: &mut W,
) -> run_answer_t
    ensures reported { IfSome (R.remaining reader.old) (λ left.
        AnswersScript (notation.script_of left) result (W.contents writer.old) (W.contents writer.new)) }
    ensures unwritten { WritesNothing result (W.contents writer.old) (W.contents writer.new) }
    ensures read { ReadsAll result (R.remaining reader.new) }
{
    let script = match read_script_from(alloc, reader) {
        Ok(script) => script,
        Err(answer) => return answer,
    };
    let Ok(mut emitter) = yaml_emitter_t::with_settings(alloc, script.settings) else {
        return run_answer_t::NoMemory;
    };
    let answer = emit_all(&mut emitter, script.events);
    let written = write_to_sink(writer, emitter.output());
    drop(emitter);
    match written {
        Ok(()) => answer,
        Err(_) => run_answer_t::WriteFailed,
    }
}

/// Emits events in order up to the first error, and flushes after the last one.
fn emit_all<A: Allocator + Copy>(
    emitter: &mut yaml_emitter_t<A>,
    events: Vec<NumberedEvent<A>, A>,
) -> run_answer_t
    requires output { emitter.old.has_output ≡ true }
    requires no_error { emitter.old.error ≡ None }
    requires nothing { emitter.old.page.output ≡ [] }
    ensures runs { emitter.old.events ≡ [] → RunsTo emitter.old.given (map seen_numbered events.items) result emitter.new }
    ensures taken { emitter.new.page.taken ≡ emitter.old.page.taken }
{
    emitter.promised();
    let mut last = None;
    for numbered in events {
        let line = numbered.line;
        let answer = yaml_emitter_emit(emitter, numbered.event);
        emitter.promised();
        if let Err(error) = answer {
            return run_answer_t::Refused(line, error);
        }
        last = Some(line);
    }
    let answer = flush_last(emitter, last);
    emitter.promised();
    answer
}

/// Flushes after the last event, which is of this line. If there was no event, nothing is to flush.
fn flush_last<A: Allocator + Copy>(
    emitter: &mut yaml_emitter_t<A>,
    last: Option<u64>,
) -> run_answer_t
    requires output { emitter.old.has_output ≡ true }
    ensures flushed { FlushesLast last emitter.old result emitter.new }
    ensures taken { emitter.new.page.taken ≡ emitter.old.page.taken }
{
    let Some(line) = last else {
        return run_answer_t::Done;
    };
    match yaml_emitter_flush(emitter) {
        Ok(()) => run_answer_t::Done,
        Err(error) => run_answer_t::Refused(line, error),
    }
}
