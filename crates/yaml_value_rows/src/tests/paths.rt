//! The path in a value to the place of an error.
use crate::tests::equal;
use crate::tests::serialized::{
    ByHand, Color, Holder, Wrong, check_error, check_refused, map_of, named,
};
use serde::Serialize;
use std::alloc::Global;
use std::collections::BTreeMap;
use std::process::Abort;
use yaml_serde::{Error, SerdeSettings, Variants, to_string, to_vec_with};

#[derive(Drop, Serialize)]
struct Step<T> {
    uses: u8,
    with: T,
}

/// An example that is no value, and says so.
const COMPLAINT: ByHand = ByHand::Values(0, Some("not today"));

/// A value as others.
const NUMBER: ByHand = ByHand::Values(1, None);

fn step_with<T>(uses: u8, with: T) -> Step<T> {
    Step { uses, with }
}

/// The steps of a build, by their name.
type Build = BTreeMap<&'static str, [Step<ByHand>; 3]>;

/// Returns the jobs of a workflow, of which the third step is refused.
fn jobs(rt: &impl Abort, alloc: Global) -> BTreeMap<&'static str, Build> {
    let steps = [
        step_with(1, NUMBER),
        step_with(2, NUMBER),
        step_with(3, COMPLAINT),
    ];
    let build = map_of(rt, alloc, [("steps", steps)]);
    map_of(rt, alloc, [("build", build)])
}

/// Checks that there is an error, at this path.
fn check_path(rt: &impl Abort, error: Option<Error>, wanted: &str) {
    let error = error.expect(rt, "an error");
    let path = error.path.as_ref().expect(rt, "a path");
    equal(rt, &path.as_str(), &wanted);
    drop(error);
}

#[test]
fn keys_and_indices_lead_to_an_error(rt: HostRuntime) {
    let alloc = rt.alloc();
    let workflow = map_of(&rt, alloc, [("jobs", jobs(&rt, alloc))]);
    let error = to_string(alloc, &workflow).err();
    check_path(&rt, error, "jobs.build.steps[2].with");
    let words = "jobs.build.steps[2].with: not today";
    check_refused(&rt, alloc, &workflow, words);
}

#[test]
fn keys_are_named_as_they_are_written(rt: HostRuntime) {
    let alloc = rt.alloc();
    check_refused(&rt, alloc, &named(COMPLAINT), "firstName: not today");
    let by_text = map_of(&rt, alloc, [("a", NUMBER), ("b c", COMPLAINT)]);
    check_refused(&rt, alloc, &by_text, "b c: not today");
    let by_number = map_of(&rt, alloc, [(5u8, COMPLAINT)]);
    check_refused(&rt, alloc, &by_number, "5: not today");
    let by_pair = map_of(&rt, alloc, [((1u8, 2u8), [COMPLAINT])]);
    check_refused(&rt, alloc, &by_pair, "?[0]: not today");
}

/// After an entry that is whole the next one isn't known yet.
#[test]
fn what_is_whole_is_left(rt: HostRuntime) {
    let alloc = rt.alloc();
    check_refused(&rt, alloc, &COMPLAINT, "not today");
    check_refused(&rt, alloc, &ByHand::Values(1, Some("no")), "no");
    check_refused(&rt, alloc, &ByHand::Lines(2), "[2]: not today");
    let nested = ([NUMBER, NUMBER], [[NUMBER, COMPLAINT]]);
    check_refused(&rt, alloc, &nested, "[1][0][1]: not today");
    let map = map_of(&rt, alloc, [("a", [NUMBER, COMPLAINT])]);
    check_refused(&rt, alloc, &(map, 1u8), "[0].a[1]: not today");
}

#[test]
fn tags_add_nothing_to_a_path(rt: HostRuntime) {
    let alloc = rt.alloc();
    let parts = [NUMBER, COMPLAINT];
    let tagged = step_with(1, Holder::Of(parts.as_slice()));
    check_refused(&rt, alloc, &tagged, "with[1]: not today");
    let tagged = step_with(1, Holder::Of(Color::Grey(3)));
    let words = "with: the data of a variant has a tag of its own";
    check_refused(&rt, alloc, &tagged, words);
    let words = "with: a flattened value is neither a struct nor a map";
    check_refused(&rt, alloc, &step_with(1, Wrong { number: 1 }), words);
}

#[test]
fn variants_that_are_keys_are_part_of_a_path(rt: HostRuntime) {
    let alloc = rt.alloc();
    let settings = SerdeSettings {
        variants: Variants::OneKeyMap,
        ..SerdeSettings::default()
    };
    let parts = [NUMBER, COMPLAINT];
    let tagged = step_with(1, Holder::Of(parts.as_slice()));
    let answer = to_vec_with(alloc, &tagged, settings);
    check_error(&rt, alloc, answer.err(), "with.Of[1]: not today");
}
