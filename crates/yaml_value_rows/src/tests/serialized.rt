//! Values of each kind, against YAML written by hand: what serde_yaml 0.9 writes, with `---`, with texts in quotes where a
//! schema could read something else, and with floats as both schemas want them.
use crate::tests::{Narrow, equal, same};
use serde::{Case, Described, Serialize, Serializer};
use std::alloc::{AllocError, Global};
use std::collections::BTreeMap;
use std::process::Abort;
use yaml_serde::{Error, to_string, to_vec, to_writer};

/// Returns the YAML of a value. (Tests need none of the clauses of the call.)
fn yaml_of<T: Serialize>(alloc: Global, value: &T) -> Result<String, Error> {
    to_string(alloc, value)
}

/// Returns a sink that was handed a value.
pub(super) fn sink_of<T: Serialize>(
    alloc: Global,
    room: usize,
    value: &T,
) -> Result<Narrow, Error> {
    let taken = Vec::new(alloc);
    let mut sink = Narrow { taken, room };
    to_writer(alloc, &mut sink, value)?;
    Ok(sink)
}

/// Checks that the value gives this text, as characters, as bytes and in a sink.
fn check_text<T: Serialize>(rt: &impl Abort, alloc: Global, value: &T, expected: &str) {
    let text = yaml_of(alloc, value).expect(rt, "a value that is written");
    equal(rt, &text.as_str(), &expected);
    let bytes = to_vec(alloc, value).expect(rt, "a value that is written");
    same(rt, bytes.as_slice(), expected);
    let sink = sink_of(alloc, usize::MAX, value).expect(rt, "a value that is written");
    same(rt, sink.taken.as_slice(), expected);
}

/// Checks that there is an error, with these words.
pub(super) fn check_error(rt: &impl Abort, alloc: Global, error: Option<Error>, wanted: &str) {
    let error = error.expect(rt, "an error");
    let words = error.to_string(alloc).expect(rt, "no memory");
    equal(rt, &words.as_str(), &wanted);
    drop(error);
}

/// Checks that the value is refused with these words.
pub(super) fn check_refused<T: Serialize>(rt: &impl Abort, alloc: Global, value: &T, wanted: &str) {
    check_error(rt, alloc, yaml_of(alloc, value).err(), wanted);
}

#[derive(Drop, Serialize)]
pub(super) struct Server {
    name: &'static str,
    ports: Vec<u16>,
}

pub(super) fn alpha(alloc: Global) -> Result<Server, AllocError> {
    Ok(Server {
        name: "alpha",
        ports: vec![in alloc; 80, 443]?,
    })
}

#[derive(Drop, Serialize)]
pub(super) struct Limits {
    limit: Option<u32>,
    backup: Option<bool>,
    weights: (i8, &'static str),
}

pub(super) const LIMITS: Limits = Limits {
    limit: None,
    backup: Some(false),
    weights: (-1, "yes"),
};

#[derive(Drop, Serialize)]
struct Nothing;

#[derive(Drop, Serialize)]
struct Meters(f64);

#[derive(Drop, Serialize)]
pub(super) struct Point(pub(super) i8, pub(super) isize);

#[test]
fn structs_are_mappings_or_null_their_value_or_a_sequence(rt: HostRuntime) {
    let server = alpha(rt.alloc()).expect(&rt, "no memory");
    let expected = "---\nname: alpha\nports:\n  - 80\n  - 443\n";
    check_text(&rt, rt.alloc(), &server, expected);
    let expected = "---\nlimit: null\nbackup: false\nweights:\n  - -1\n  - 'yes'\n";
    check_text(&rt, rt.alloc(), &LIMITS, expected);
    let unnamed = (Nothing, Meters(1.5), Point(1, -2));
    let expected = "---\n- null\n- 1.5\n- - 1\n  - -2\n";
    check_text(&rt, rt.alloc(), &unnamed, expected);
}

#[test]
fn texts_are_read_as_texts(rt: HostRuntime) {
    let texts = ["plain", "no", "1.0", "", "two\nlines\n"];
    let expected = "---\n- plain\n- 'no'\n- '1.0'\n- ''\n- |\n  two\n  lines\n";
    check_text(&rt, rt.alloc(), &texts, expected);
    let letters = ['a', 'y', '\u{e9}'];
    check_text(&rt, rt.alloc(), &letters, "---\n- a\n- 'y'\n- \u{e9}\n");
    check_text(&rt, rt.alloc(), &(), "--- null\n");
}

const FLOATS: [f64; 8] = [
    1.0,
    0.1,
    -0.0,
    1e16,
    1.5e-7,
    f64::INFINITY,
    f64::NEG_INFINITY,
    f64::NAN,
];

#[test]
fn floats_are_spelled_for_both_schemas(rt: HostRuntime) {
    let expected = "---\n- 1.0\n- 0.1\n- -0.0\n- 1.0e+16\n- 1.5e-7\n- .inf\n- -.inf\n- .nan\n";
    check_text(&rt, rt.alloc(), &FLOATS, expected);
    let singles = [0.1f32, 16777216.0, f32::NEG_INFINITY, f32::NAN];
    let expected = "---\n- 0.1\n- 16777216.0\n- -.inf\n- .nan\n";
    check_text(&rt, rt.alloc(), &singles, expected);
}

#[test]
fn integers_have_up_to_128_bits(rt: HostRuntime) {
    let signed = [i128::MIN, -1, 0, i128::MAX];
    let expected =
        "---\n- -170141183460469231731687303715884105728\n- -1\n- 0\n- 170141183460469231731687303715884105727\n";
    check_text(&rt, rt.alloc(), &signed, expected);
    let unsigned = (u128::MAX, i64::MIN, u64::MAX);
    let expected =
        "---\n- 340282366920938463463374607431768211455\n- -9223372036854775808\n- 18446744073709551615\n";
    check_text(&rt, rt.alloc(), &unsigned, expected);
}

/// An example that is serialized by hand.
#[derive(Drop)]
pub(super) enum ByHand {
    /// Bytes as they are; those of std's types are sequences.
    Raw(&'static [u8]),
    /// The name of a variant with data, and no data.
    Name,
    /// So many values, and then a complaint or none.
    Values(u32, Option<&'static str>),
    /// So many lines of eight bytes each, as a sequence writes them, and then a complaint.
    Lines(u32),
    /// The end of a collection that it didn't begin.
    End,
    /// Two values, of which the second is refused at a document's root; that is ignored.
    Deaf,
}

/// Gives so many values, whose lines in a sequence have eight bytes each.
fn give_numbers<S: Serializer>(out: &mut S, count: u32) -> Result<(), S::Error> {
    for _ in 0..count {
        out.u64(12_345)?;
    }
    Ok(())
}

/// Gives the name of a variant with data, and no data.
fn give_name<S: Serializer>(out: &mut S) -> Result<(), S::Error> {
    out.begin_map(Some(1))?;
    out.variant_key("Named", Case::AsIs)?;
    out.end_map()
}

/// Gives so many values, and then a complaint or none.
fn give_values<S: Serializer>(
    out: &mut S,
    count: u32,
    complaint: &Option<&'static str>,
) -> Result<(), S::Error> {
    give_numbers(out, count)?;
    match complaint {
        Some(complaint) => Err(out.custom(complaint)),
        None => Ok(()),
    }
}

/// Gives so many lines of a sequence, and then a complaint.
fn give_lines<S: Serializer>(out: &mut S, count: u32) -> Result<(), S::Error> {
    out.begin_seq(None)?;
    give_numbers(out, count)?;
    Err(out.custom("not today"))
}

/// Gives two values, and ignores how the second is answered.
fn give_deaf<S: Serializer>(out: &mut S) -> Result<(), S::Error> {
    out.unit()?;
    let _ignored = out.unit();
    Ok(())
}

impl Described for ByHand {}

impl Serialize for ByHand {
    fn serialize<S: Serializer>(&self, out: &mut S) -> Result<(), S::Error> {
        match self {
            ByHand::Raw(bytes) => out.bytes(bytes),
            ByHand::Name => give_name(out),
            ByHand::Values(count, complaint) => give_values(out, *count, complaint),
            ByHand::Lines(count) => give_lines(out, *count),
            ByHand::End => out.end_seq(),
            ByHand::Deaf => give_deaf(out),
        }
    }
}

#[derive(Drop, Serialize)]
pub(super) enum Shape {
    Empty,
    Rectangle(u32, u32),
}

#[derive(Drop, Serialize)]
pub(super) enum Label {
    Named { id: u8 },
}

/// A variant that holds a value.
#[derive(Drop, Serialize)]
pub(super) enum Holder<T> {
    Of(T),
}

#[derive(Drop, Serialize)]
#[serde(rename_all = "kebab-case")]
pub(super) enum Color {
    DarkRed,
    Grey(u8),
}

/// Returns a map of these pairs.
pub(super) fn map_of<K: Ord + Drop, V: Drop, const N: usize>(
    rt: &impl Abort,
    alloc: Global,
    pairs: [(K, V); N],
) -> BTreeMap<K, V> {
    BTreeMap::from_array(alloc, pairs).expect(rt, "no memory")
}

#[test]
fn variants_with_data_have_tags(rt: HostRuntime) {
    let alloc = rt.alloc();
    let shapes = (Shape::Empty, Holder::Of(1.5), Shape::Rectangle(1, 2));
    let expected = "---\n- Empty\n- !Of 1.5\n- !Rectangle\n  - 1\n  - 2\n";
    check_text(&rt, alloc, &shapes, expected);
    let none: Option<u8> = None;
    let labels = (Label::Named { id: 7 }, Holder::Of(none));
    check_text(&rt, alloc, &labels, "---\n- !Named\n  id: 7\n- !Of null\n");
    let color = Holder::Of(Color::DarkRed);
    let held = (color, Holder::Of(map_of(&rt, alloc, [(5u8, true)])));
    check_text(&rt, alloc, &held, "---\n- !Of dark-red\n- !Of\n  5: true\n");
    check_text(&rt, alloc, &Color::Grey(3), "--- !grey 3\n");
}

#[test]
fn keys_may_be_any_values(rt: HostRuntime) {
    let alloc = rt.alloc();
    let none: [((u8, u8), &str); 0] = [];
    check_text(&rt, alloc, &map_of(&rt, alloc, none), "--- {}\n");
    let pair = map_of(&rt, alloc, [((1u8, 2u8), "a")]);
    check_text(&rt, alloc, &pair, "---\n? - 1\n  - 2\n: a\n");
    let words = map_of(&rt, alloc, [("no", Some(1u8)), ("none", None)]);
    check_text(&rt, alloc, &words, "---\n'no': 1\nnone: null\n");
}

#[test]
fn bytes_are_base64(rt: HostRuntime) {
    let raw = [
        ByHand::Raw(b"hello"),
        ByHand::Raw(b""),
        ByHand::Raw(b"\xd7m\xf8"),
    ];
    let expected = "---\n- !!binary aGVsbG8=\n- !!binary ''\n- !!binary '1234'\n";
    check_text(&rt, rt.alloc(), &raw, expected);
}

#[derive(Drop, Serialize)]
struct Inner {
    depth: u8,
}

#[derive(Drop, Serialize)]
#[serde(rename_all = "camelCase")]
pub(super) struct Outer<T> {
    first_name: T,
    #[serde(flatten)]
    inner: Inner,
    #[serde(flatten)]
    none: Option<Inner>,
}

/// Returns a struct of this name, of another struct's member, and of none.
pub(super) fn named<T>(first_name: T) -> Outer<T> {
    Outer {
        first_name,
        inner: Inner { depth: 2 },
        none: None,
    }
}

#[derive(Drop, Serialize)]
pub(super) struct Wrong {
    #[serde(flatten)]
    pub(super) number: u8,
}

#[test]
fn flattened_members_go_into_the_map_around_them(rt: HostRuntime) {
    let text = "---\nfirstName: 1\ndepth: 2\n";
    check_text(&rt, rt.alloc(), &named(1u8), text);
    let words = "a flattened value is neither a struct nor a map";
    check_refused(&rt, rt.alloc(), &Wrong { number: 1 }, words);
}

/// The words of an emitter that is given no node although one is expected, or one too many.
const NO_NODE: &str = "expected SCALAR, SEQUENCE-START, MAPPING-START, or ALIAS";

const NO_DOCUMENT_END: &str = "expected DOCUMENT-END";

const TWO_TAGS: &str = "the data of a variant has a tag of its own";

/// No value, a variant without its data, and several values.
const REFUSED: &[(ByHand, &str)] = &[
    (ByHand::Name, NO_NODE),
    (ByHand::Values(0, None), NO_NODE),
    (ByHand::Values(2, None), NO_DOCUMENT_END),
    (ByHand::Values(1, Some("not today")), "not today"),
];

#[test]
fn what_is_no_value_is_refused(rt: HostRuntime) {
    for (value, words) in REFUSED {
        check_refused(&rt, rt.alloc(), value, words);
    }
    check_refused(&rt, rt.alloc(), &[ByHand::Name], NO_NODE);
    let color = Holder::Of(Color::Grey(3));
    check_refused(&rt, rt.alloc(), &color, TWO_TAGS);
    let bytes = Holder::Of(ByHand::Raw(b"x"));
    check_refused(&rt, rt.alloc(), &bytes, TWO_TAGS);
}
