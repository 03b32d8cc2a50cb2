//! The form and the depth of a value's collections, against YAML written by hand.
use crate::tests::same;
use crate::tests::serialized::{Color, Holder, check_error};
use serde::Serialize;
use std::alloc::Global;
use std::process::Abort;
use yaml_serde::{
    Error, SerdeSettings, ValueSettings, Variants, Writer, to_vec_with, value_settings, write_with,
};
use yaml_writer::YAML_BLOCK_SEQUENCE_STYLE;

const TOO_DEEP: &str = "sequences and maps nest too deep";

/// Returns the settings for values that nest at most so deep.
fn nested_within(depth: usize) -> SerdeSettings {
    let values = ValueSettings {
        depth,
        ..ValueSettings::default()
    };
    SerdeSettings {
        values,
        ..SerdeSettings::default()
    }
}

/// Returns the YAML of a value. (Tests need none of the clauses of the call.)
fn bytes_of<T: Serialize>(
    alloc: Global,
    value: &T,
    settings: SerdeSettings,
) -> Result<Vec<u8>, Error> {
    to_vec_with(alloc, value, settings)
}

/// Checks that a value gives this text.
fn check_text<T: Serialize>(
    rt: &impl Abort,
    alloc: Global,
    value: &T,
    settings: SerdeSettings,
    expected: &str,
) {
    let bytes = bytes_of(alloc, value, settings).expect(rt, "a value that is written");
    same(rt, bytes.as_slice(), expected);
}

#[test]
fn collections_are_in_flow_if_asked_for(rt: HostRuntime) {
    let alloc = rt.alloc();
    let mut settings = SerdeSettings::default();
    settings.values.flow = true;
    let value = ([1u8, 2], (Holder::Of([true]), ()));
    let expected = "--- [[1, 2], [!Of [true], null]]\n";
    check_text(&rt, alloc, &value, settings, expected);
    settings.variants = Variants::OneKeyMap;
    let expected = "--- [[1, 2], [{Of: [true]}, null]]\n";
    check_text(&rt, alloc, &value, settings, expected);
}

#[test]
fn collections_nest_as_deep_as_is_allowed(rt: HostRuntime) {
    let alloc = rt.alloc();
    check_text(&rt, alloc, &1u8, nested_within(0), "--- 1\n");
    check_text(&rt, alloc, &[1u8], nested_within(1), "---\n- 1\n");
    let pairs = ([1u8], [2u8]);
    check_text(&rt, alloc, &pairs, nested_within(2), "---\n- - 1\n- - 2\n");
    let error = bytes_of(alloc, &[1u8], nested_within(0)).err();
    check_error(&rt, alloc, error, TOO_DEEP);
    let error = bytes_of(alloc, &(1u8, [[2u8]]), nested_within(2)).err();
    check_error(
        &rt,
        alloc,
        error,
        "[1][0]: sequences and maps nest too deep",
    );
}

/// A mapping of one key counts as a level, and a tag doesn't.
#[test]
fn variants_count_by_their_form(rt: HostRuntime) {
    let alloc = rt.alloc();
    let mut settings = nested_within(0);
    check_text(&rt, alloc, &Color::Grey(3), settings, "--- !grey 3\n");
    settings.variants = Variants::OneKeyMap;
    let error = bytes_of(alloc, &Color::Grey(3), settings).err();
    check_error(&rt, alloc, error, TOO_DEEP);
}

/// Only the value's own collections count.
#[test]
fn what_was_open_before_counts_for_nothing(rt: HostRuntime) {
    let alloc = rt.alloc();
    let mut writer = Writer::new(alloc, value_settings()).expect(&rt, "a writer");
    let begun = writer.begin_sequence(YAML_BLOCK_SEQUENCE_STYLE);
    begun.expect(&rt, "a sequence");
    let written = write_with(alloc, &mut writer, &[1u8], nested_within(1));
    written.expect(&rt, "a value that is written");
    writer.end().expect(&rt, "an end");
    let bytes = writer.finish().expect(&rt, "a stream");
    same(&rt, bytes.as_slice(), "---\n- - 1\n");
}
