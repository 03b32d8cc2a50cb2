//! Variants with data as mappings of one key, against YAML written by hand.
use crate::tests::serialized::{ByHand, Color, Holder, Label, Shape, check_error, map_of};
use crate::tests::{Narrow, answers, finished, same};
use serde::Serialize;
use std::alloc::Global;
use std::process::Abort;
use yaml_serde::{
    Error, SerdeSettings, Variants, Writer, to_vec_with, to_writer_with, value_settings,
    write_with, yaml_error_t,
};

/// Returns the settings for values, with variants as mappings of one key.
fn one_key_map() -> SerdeSettings {
    SerdeSettings {
        variants: Variants::OneKeyMap,
        ..SerdeSettings::default()
    }
}

/// Returns the YAML of a value. (Tests need none of the clauses of the call.)
fn bytes_of<T: Serialize>(alloc: Global, value: &T) -> Result<Vec<u8>, Error> {
    to_vec_with(alloc, value, one_key_map())
}

/// Returns a sink that was handed a value.
fn sink_of<T: Serialize>(alloc: Global, value: &T) -> Result<Narrow, Error> {
    let taken = Vec::new(alloc);
    let room = usize::MAX;
    let mut sink = Narrow { taken, room };
    to_writer_with(alloc, &mut sink, value, one_key_map())?;
    Ok(sink)
}

/// Checks that the value gives this text, as bytes and in a sink.
fn check_text<T: Serialize>(rt: &impl Abort, alloc: Global, value: &T, expected: &str) {
    let bytes = bytes_of(alloc, value).expect(rt, "a value that is written");
    same(rt, bytes.as_slice(), expected);
    let sink = sink_of(alloc, value).expect(rt, "a value that is written");
    same(rt, sink.taken.as_slice(), expected);
}

#[test]
fn variants_are_mappings_of_one_key(rt: HostRuntime) {
    let alloc = rt.alloc();
    let shapes = (Shape::Empty, Holder::Of(1.5), Shape::Rectangle(1, 2));
    let expected = "---\n- Empty\n- Of: 1.5\n- Rectangle:\n    - 1\n    - 2\n";
    check_text(&rt, alloc, &shapes, expected);
    let none: Option<u8> = None;
    let labels = (Label::Named { id: 7 }, Holder::Of(none));
    check_text(
        &rt,
        alloc,
        &labels,
        "---\n- Named:\n    id: 7\n- Of: null\n",
    );
    check_text(&rt, alloc, &Color::Grey(3), "---\ngrey: 3\n");
    check_text(&rt, alloc, &Color::DarkRed, "--- dark-red\n");
}

#[test]
fn maps_of_one_entry_stay_maps(rt: HostRuntime) {
    let alloc = rt.alloc();
    let map = map_of(&rt, alloc, [(5u8, true)]);
    let held = (Holder::Of(Color::DarkRed), Holder::Of(map));
    check_text(
        &rt,
        alloc,
        &held,
        "---\n- Of: dark-red\n- Of:\n    5: true\n",
    );
    let map = map_of(&rt, alloc, [("a", Holder::Of(1u8))]);
    check_text(&rt, alloc, &map, "---\na:\n  Of: 1\n");
}

/// Checks data that has a tag of its own, or is a variant with data.
#[test]
fn data_may_have_a_tag(rt: HostRuntime) {
    let alloc = rt.alloc();
    let color = Holder::Of(Color::Grey(3));
    check_text(&rt, alloc, &color, "---\nOf:\n  grey: 3\n");
    let bytes = Holder::Of(ByHand::Raw(b"hello"));
    check_text(&rt, alloc, &bytes, "---\nOf: !!binary aGVsbG8=\n");
}

/// Gives a value to a writer. (Tests need none of the clauses of the call.)
fn give(alloc: Global, value: &Shape) -> Result<Vec<u8>, yaml_error_t> {
    let mut writer = Writer::new(alloc, value_settings())?;
    let answer = write_with(alloc, &mut writer, value, one_key_map());
    let is_refused = answer.is_err();
    drop(answer);
    if is_refused {
        drop(writer);
        return Err(yaml_error_t::ExpectedNode);
    }
    finished(writer)
}

#[test]
fn a_variant_is_a_node_of_a_writer(rt: HostRuntime) {
    let given = give(rt.alloc(), &Shape::Rectangle(1, 2));
    answers(&rt, given, &Ok("---\nRectangle:\n  - 1\n  - 2\n"));
}

/// A variant's name without its data is a key without its value.
#[test]
fn a_name_alone_is_refused(rt: HostRuntime) {
    let alloc = rt.alloc();
    let wanted = "expected SCALAR, SEQUENCE-START, MAPPING-START, or ALIAS";
    check_error(&rt, alloc, bytes_of(alloc, &ByHand::Name).err(), wanted);
}
