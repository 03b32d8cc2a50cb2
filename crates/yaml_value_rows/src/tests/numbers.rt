//! Numbers of JSON with their spellings, and texts that are none.
use crate::tests::equal;
use std::alloc::Global;
use std::process::Abort;
use yaml_writer::{Spelling, number_of, number_spelling};

/// A text; the spelling of its number, and whether that is an integer; nothing if it is no number.
type Row = (&'static str, Option<(&'static str, bool)>);

/// Checks that a number keeps its text.
fn check_kept(rt: &impl Abort, row: &Row) {
    let kept = match number_of(row.0) {
        Some(number) => Some((number.as_str(), number.is_integer())),
        None => None,
    };
    let wanted = match row.1 {
        Some((_, is_integer)) => Some((row.0, is_integer)),
        None => None,
    };
    equal(rt, &(row.0, kept), &(row.0, wanted));
}

/// Returns how a number is spelled. (Tests need none of the clauses of the call.)
fn spelling<'a>(rt: &impl Abort, alloc: Global, text: &'a str) -> Option<Spelling<'a, Global>> {
    number_spelling(alloc, text).expect(rt, "no memory")
}

/// Returns whether the spelling is another text.
fn is_another(row: &Row) -> bool {
    match row.1 {
        Some((spelling, _)) => spelling != row.0,
        None => false,
    }
}

fn check_spelling(rt: &impl Abort, alloc: Global, row: &Row) {
    let spelling = spelling(rt, alloc, row.0);
    let is_changed = matches!(spelling, Some(Spelling::Changed(_)));
    let wanted = match row.1 {
        Some((text, _)) => Some(text),
        None => None,
    };
    let found = match &spelling {
        Some(found) => Some(found.as_str()),
        None => None,
    };
    equal(
        rt,
        &(row.0, is_changed, found),
        &(row.0, is_another(row), wanted),
    );
    drop(spelling);
}

const NUMBERS: &[Row] = &[
    ("0", Some(("0", true))),
    ("12", Some(("12", true))),
    ("-0", Some(("-0.0", false))),
    ("-120", Some(("-120", true))),
    ("18446744073709551616", Some(("18446744073709551616", true))),
    ("1.50", Some(("1.50", false))),
    ("2.50", Some(("2.50", false))),
    ("1e5", Some(("1.0e+5", false))),
    ("1E5", Some(("1.0e+5", false))),
    ("1E-5", Some(("1.0e-5", false))),
    ("12.5E+07", Some(("12.5e+07", false))),
    ("-1.25e10", Some(("-1.25e+10", false))),
    ("1.5e-3", Some(("1.5e-3", false))),
    ("-0e0", Some(("-0.0e+0", false))),
    ("", None),
    ("-", None),
    ("+1", None),
    ("01", None),
    ("1.", None),
    (".5", None),
    ("1e", None),
    ("1e+", None),
    ("1_0", None),
    ("0x1", None),
    ("1.2.3", None),
    ("1e5e6", None),
    (" 1", None),
    ("1 ", None),
    ("é", None),
];

#[test]
fn numbers_are_spelled_and_keep_their_texts(rt: HostRuntime) {
    for row in NUMBERS {
        check_kept(&rt, row);
        check_spelling(&rt, rt.alloc(), row);
    }
}
