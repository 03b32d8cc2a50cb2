//! Emitters from outside, step by step: outputs that are taken, deep collections, growths that are refused.
ghost use Rattle.std.specs.Prelude.{◌≡◌, false};

mod borrowed;
pub(super) mod depth;
mod early;
mod memory;
pub(super) mod steps;
mod taking;

use crate::tests::equal;
use std::alloc::{Allocator, Global};
use std::process::Abort;
use yaml_base::{
    YAML_ANY_BREAK, YAML_ANY_ENCODING, YAML_STREAM_END_EVENT, yaml_error_t, yaml_event_t,
};
use yaml_emitter::{
    Quotes, Settings, yaml_emitter_emit, yaml_emitter_flush, yaml_emitter_initialize,
    yaml_emitter_set_break, yaml_emitter_set_canonical, yaml_emitter_set_encoding,
    yaml_emitter_set_indent, yaml_emitter_set_indented_sequences, yaml_emitter_set_line_breaks_1_2,
    yaml_emitter_set_literal_blanks, yaml_emitter_set_output_string, yaml_emitter_set_portable,
    yaml_emitter_set_quotes, yaml_emitter_set_unicode, yaml_emitter_set_width, yaml_emitter_t,
};
use yaml_test_allocator::Refusing;

pub(super) type Answer = Result<(), yaml_error_t>;

/// An output with room, and the width that counts if none is set.
pub(super) const UNSET: Settings = Settings {
    encoding: YAML_ANY_ENCODING,
    canonical: false,
    unicode: false,
    quotes: Quotes::Single,
    indent: None,
    width: Some(80),
    line_break: YAML_ANY_BREAK,
    line_breaks_1_2: false,
    portable: false,
    indented_sequences: false,
    literal_blanks: false,
    limit: usize::MAX,
};

// Settings that are on or off.
fn set_flags<A: Allocator>(emitter: &mut yaml_emitter_t<A>, settings: &Settings)
    requires { emitter.old.started ≡ false }
    ensures { emitter.new.started ≡ false }
{
    yaml_emitter_set_canonical(emitter, settings.canonical);
    yaml_emitter_set_unicode(emitter, settings.unicode);
    yaml_emitter_set_line_breaks_1_2(emitter, settings.line_breaks_1_2);
    yaml_emitter_set_portable(emitter, settings.portable);
    yaml_emitter_set_indented_sequences(emitter, settings.indented_sequences);
    yaml_emitter_set_literal_blanks(emitter, settings.literal_blanks);
}

// How lines begin and end, and the quotes.
fn set_lines<A: Allocator>(emitter: &mut yaml_emitter_t<A>, settings: &Settings)
    requires { emitter.old.started ≡ false }
{
    yaml_emitter_set_quotes(emitter, settings.quotes);
    yaml_emitter_set_break(emitter, settings.line_break);
    match (settings.indent, settings.width) {
        (None, None) => {}
        (Some(indent), None) => yaml_emitter_set_indent(emitter, indent),
        (None, Some(width)) => yaml_emitter_set_width(emitter, width),
        (Some(indent), Some(width)) => {
            yaml_emitter_set_indent(emitter, indent);
            yaml_emitter_set_width(emitter, width);
        }
    }
}

/// Makes an emitter before its stream, each setting made by a call of its own.
pub(super) fn new_emitter<A: Allocator + Copy>(
    alloc: A,
    settings: &Settings,
) -> Result<yaml_emitter_t<A>, yaml_error_t> {
    let mut emitter = yaml_emitter_initialize(alloc)?;
    yaml_emitter_set_output_string(&mut emitter, settings.limit);
    yaml_emitter_set_encoding(&mut emitter, settings.encoding);
    set_flags(&mut emitter, settings);
    set_lines(&mut emitter, settings);
    Ok(emitter)
}

/// Makes an emitter before its stream, for which there is memory.
pub(super) fn made<A: Allocator + Copy>(
    rt: &impl Abort,
    alloc: A,
    settings: &Settings,
) -> yaml_emitter_t<A> {
    new_emitter(alloc, settings).expect(rt, "no memory")
}

/// Emits an event: an output is set.
pub(super) fn give<A: Allocator + Copy>(
    rt: &impl Abort,
    emitter: &mut yaml_emitter_t<A>,
    next: yaml_event_t<A>,
) -> Answer {
    assert!(rt; emitter.has_output());
    yaml_emitter_emit(emitter, next)
}

/// Flushes, if the encoding is known.
pub(super) fn flush_if_known<A: Allocator + Copy>(
    rt: &impl Abort,
    emitter: &mut yaml_emitter_t<A>,
) -> Answer {
    assert!(rt; emitter.has_output());
    if emitter.encoding_known() {
        return yaml_emitter_flush(emitter);
    }
    Ok(())
}

// A call answers the error, which is kept; nothing waits, and no more than so many bytes were flushed.
fn check_stopped<A: Allocator>(
    rt: &impl Abort,
    emitter: &yaml_emitter_t<A>,
    answer: Answer,
    (error, length): (yaml_error_t, usize),
) {
    let got = (
        answer,
        emitter.error(),
        emitter.held(),
        emitter.output().len(),
    );
    equal(rt, &got, &(Err(error), Some(error), 0, length));
}

/// Checks that after an error each call answers it, an event and a flush; nothing waits, and nothing more is flushed.
pub(super) fn check_failed<A: Allocator + Copy>(
    rt: &impl Abort,
    emitter: &mut yaml_emitter_t<A>,
    error: yaml_error_t,
) {
    let length = emitter.output().len();
    check_stopped(rt, emitter, Err(error), (error, length));
    let answer = give(rt, emitter, YAML_STREAM_END_EVENT);
    check_stopped(rt, emitter, answer, (error, length));
    if emitter.encoding_known() {
        let answer = flush_if_known(rt, emitter);
        check_stopped(rt, emitter, answer, (error, length));
    }
}

/// Checks that a call answers so; the call in which a growth was refused, and each after it, that there is no memory.
pub(super) fn check_answer(
    rt: &impl Abort,
    heap: &Refusing<Global>,
    answer: Answer,
    wanted: Answer,
) {
    let wanted = match heap.left() {
        0 => Err(yaml_error_t::Memory),
        _ => wanted,
    };
    equal(rt, &answer, &wanted);
}

/// Checks, after an allocation failed, that the flushed bytes are a prefix of the whole, and that each call returns the error.
pub(super) fn check_out_of_memory<A: Allocator + Copy>(
    rt: &impl Abort,
    emitter: &mut yaml_emitter_t<A>,
    whole: &[u8],
) {
    let begins = whole.starts_with(emitter.output());
    equal(rt, &begins, &true);
    check_failed(rt, emitter, yaml_error_t::Memory);
}
