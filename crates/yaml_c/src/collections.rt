//! Collections in an emitter that a C program keeps.
ghost use Rattle.std.specs.Prelude.{◌≡◌, true};
ghost use Rattle.yaml_base.specs.Seen.{seen_event};
ghost use Rattle.yaml_writer.specs.Writing.{end_event};
ghost use Rattle.yaml_c.specs.EventRecords.{collection_style_numbered};
ghost use Rattle.yaml_c.specs.Kept.{Changes, IsOpenEmitter};
ghost use Rattle.yaml_c.specs.Values.{GaveEnd, GaveMapping, GaveSequence, GaveStart, Tells};

use crate::handle::EmitterHandle;
use crate::kept::Kept;
use crate::place::after_node;
use crate::results::CallResult;
use crate::styles::{mapping_style, sequence_style};
use crate::values::{ValueGiving, lasting_error, open, tell_value};
use std::alloc::Global;
use yaml_emitter::{
    CollectionKind, YAML_MAPPING_END_EVENT, YAML_MAPPING_START_EVENT, YAML_SEQUENCE_END_EVENT,
    YAML_SEQUENCE_START_EVENT, yaml_emitter_emit, yaml_event_t,
};

/// Begins a sequence: its items follow, and then its end. See the header.
#[unsafe(no_mangle)]
pub extern "C" fn yaml_c_emitter_begin_sequence(
    alloc: Global,
    emitter: &mut EmitterHandle,
    style: u32,
    report: &mut CallResult,
) -> i32
    requires is_open { IsOpenEmitter emitter.old.state }
    ensures { Changes (Tells (GaveSequence (collection_style_numbered style)) result report.new) emitter.old.state emitter.new.state }
{
    let mut boxed = emitter.take(alloc);
    let status = begin_sequence(alloc, &mut *boxed, style, report);
    boxed.promised();
    emitter.put(boxed);
    status
}

/// Begins a mapping: its keys and values follow in turn, and then its end. See the header.
#[unsafe(no_mangle)]
pub extern "C" fn yaml_c_emitter_begin_mapping(
    alloc: Global,
    emitter: &mut EmitterHandle,
    style: u32,
    report: &mut CallResult,
) -> i32
    requires is_open { IsOpenEmitter emitter.old.state }
    ensures { Changes (Tells (GaveMapping (collection_style_numbered style)) result report.new) emitter.old.state emitter.new.state }
{
    let mut boxed = emitter.take(alloc);
    let status = begin_mapping(alloc, &mut *boxed, style, report);
    boxed.promised();
    emitter.put(boxed);
    status
}

/// Ends the innermost collection. See the header.
#[unsafe(no_mangle)]
pub extern "C" fn yaml_c_emitter_end(
    alloc: Global,
    emitter: &mut EmitterHandle,
    report: &mut CallResult,
) -> i32
    requires is_open { IsOpenEmitter emitter.old.state }
    ensures { Changes (Tells GaveEnd result report.new) emitter.old.state emitter.new.state }
{
    let mut boxed = emitter.take(alloc);
    let status = end(&mut *boxed, report);
    boxed.promised();
    emitter.put(boxed);
    status
}

fn begin_sequence(alloc: Global, kept: &mut Kept, style: u32, report: &mut CallResult) -> i32
    requires output { kept.old.emitter.has_output ≡ true }
    ensures gave { Tells (GaveSequence (collection_style_numbered style)) result report.new kept.old kept.new }
    ensures output { kept.new.emitter.has_output ≡ true }
{
    let giving = give_sequence(alloc, kept, style);
    tell_value(giving, report)
}

fn begin_mapping(alloc: Global, kept: &mut Kept, style: u32, report: &mut CallResult) -> i32
    requires output { kept.old.emitter.has_output ≡ true }
    ensures gave { Tells (GaveMapping (collection_style_numbered style)) result report.new kept.old kept.new }
    ensures output { kept.new.emitter.has_output ≡ true }
{
    let giving = give_mapping(alloc, kept, style);
    tell_value(giving, report)
}

fn end(kept: &mut Kept, report: &mut CallResult) -> i32
    requires output { kept.old.emitter.has_output ≡ true }
    ensures gave { Tells GaveEnd result report.new kept.old kept.new }
    ensures output { kept.new.emitter.has_output ≡ true }
{
    let giving = give_end(kept);
    tell_value(giving, report)
}

/// Gives a kept emitter the start of a sequence, if the style has a reading.
fn give_sequence(alloc: Global, kept: &mut Kept, style: u32) -> ValueGiving
    requires output { kept.old.emitter.has_output ≡ true }
    ensures gave { GaveSequence (collection_style_numbered style) result kept.old kept.new }
    ensures output { kept.new.emitter.has_output ≡ true }
{
    let Some(style) = sequence_style(style) else {
        return ValueGiving::Unreadable;
    };
    let start = YAML_SEQUENCE_START_EVENT {
        anchor: None,
        tag: None,
        implicit: true,
        style,
    };
    give_start(alloc, kept, CollectionKind::Sequence, start)
}

/// Gives a kept emitter the start of a mapping, if the style has a reading.
fn give_mapping(alloc: Global, kept: &mut Kept, style: u32) -> ValueGiving
    requires output { kept.old.emitter.has_output ≡ true }
    ensures gave { GaveMapping (collection_style_numbered style) result kept.old kept.new }
    ensures output { kept.new.emitter.has_output ≡ true }
{
    let Some(style) = mapping_style(style) else {
        return ValueGiving::Unreadable;
    };
    let start = YAML_MAPPING_START_EVENT {
        anchor: None,
        tag: None,
        implicit: true,
        style,
    };
    give_start(alloc, kept, CollectionKind::Mapping, start)
}

/// Gives a kept emitter the start of a collection, and enters it. Opens the first document, if no event was given before.
fn give_start(
    alloc: Global,
    kept: &mut Kept,
    kind: CollectionKind,
    start: yaml_event_t<Global>,
) -> ValueGiving
    requires output { kept.old.emitter.has_output ≡ true }
    ensures gave { GaveStart kind (λ state event. event ≡ seen_event start) result kept.old kept.new }
    ensures output { kept.new.emitter.has_output ≡ true }
{
    match lasting_error(&kept.emitter) {
        Some(error) => return ValueGiving::Answered(Err(error)),
        None => {}
    }
    let Some(next) = after_node(kept.place.spot()) else {
        return ValueGiving::Misplaced;
    };
    open(alloc, kept);
    match kept.place.enter(kind, next) {
        Ok(()) => ValueGiving::Answered(yaml_emitter_emit(&mut kept.emitter, start)),
        Err(_) => ValueGiving::NoMemory,
    }
}

/// Gives a kept emitter the end of the innermost collection, and leaves it.
fn give_end(kept: &mut Kept) -> ValueGiving
    requires output { kept.old.emitter.has_output ≡ true }
    ensures gave { GaveEnd result kept.old kept.new }
    ensures output { kept.new.emitter.has_output ≡ true }
{
    match lasting_error(&kept.emitter) {
        Some(error) => return ValueGiving::Answered(Err(error)),
        None => {}
    }
    match kept.place.leave() {
        Some(kind) => { ValueGiving::Answered(yaml_emitter_emit(&mut kept.emitter, end_of(kind))) }
        None => ValueGiving::Misplaced,
    }
}

fn end_of(kind: CollectionKind) -> yaml_event_t<Global>
    ensures { seen_event result ≡ end_event kind }
{
    match kind {
        CollectionKind::Mapping => YAML_MAPPING_END_EVENT,
        CollectionKind::Sequence => YAML_SEQUENCE_END_EVENT,
    }
}
