//! TOML: what only a caller sees. (`tests/toml/run` has the grammar, the order of keys, what is refused, and where.)
use super::check_printed;
use crate::tests::{equal, same};
use std::alloc::Global;
use std::process::Abort;
use toml_ordered::{Node, read_document};
use yaml_toml::{
    Position, SyntaxError, TomlError, ValueSettings, Writer, value_settings, write_toml,
    yaml_error_t,
};
use yaml_writer::YAML_BLOCK_SEQUENCE_STYLE;

/// A document of one key, and its value as the text has it: a decimal after `#`, or a date or a time. YAML shows other digits, and texts in
/// place of these dates and times.
const VALUES: &[(&str, &str)] = &[
    ("n = +1.0", "#+1.0"),
    ("n = 5e+22", "#5e+22"),
    ("n = 1e06", "#1e06"),
    ("d = 1979-05-27T07:32:00", "1979-05-27T07:32:00"),
    ("d = 07:32:00", "07:32:00"),
    ("d = 00:32:00.5", "00:32:00.5"),
    ("d = 1990-12-31T23:59:60Z", "1990-12-31T23:59:60Z"),
    // TOML 1.1.
    ("d = 07:32", "07:32"),
];

/// Checks that a value is the one in the text.
fn check_value(rt: &impl Abort, alloc: Global, value: &Node, wanted: &str) {
    match value {
        Node::Decimal(digits) => equal(rt, &Some(digits.as_str()), &wanted.strip_prefix("#")),
        Node::Datetime(time) => check_printed(rt, alloc, time, wanted),
        _ => equal(rt, &None, &Some(wanted)),
    }
}

/// Checks that the first value of a document is the one in the text.
fn check_first(rt: &impl Abort, alloc: Global, text: &str, wanted: &str) {
    let root = read_document(alloc, text).ok().expect(rt, "not TOML");
    let (_, value, _) = root.live_keys().split_first().expect(rt, "no key");
    check_value(rt, alloc, value, wanted);
}

#[test]
fn digits_and_kinds_of_dates_are_kept(rt: HostRuntime) {
    for (text, wanted) in VALUES {
        check_first(&rt, rt.alloc(), text, wanted);
    }
}

#[test]
fn errors_print_their_place(rt: HostRuntime) {
    let error = TomlError::NotToml {
        position: Position { line: 2, column: 5 },
        why: SyntaxError::Value,
    };
    check_printed(
        &rt,
        rt.alloc(),
        &error,
        "line 2, column 5: expected a value",
    );
    let error = TomlError::TooDeepToRead {
        position: Position { line: 2, column: 5 },
    };
    let words = "line 2, column 5: arrays and tables nest too deep";
    check_printed(&rt, rt.alloc(), &error, words);
    check_printed(
        &rt,
        rt.alloc(),
        &TomlError::TooDeep,
        "arrays and tables nest too deep",
    );
}

/// Writes a text and a document, as the items of a sequence.
fn write_both(alloc: Global, text: &str, document: &str) -> Result<Vec<u8>, TomlError> {
    let mut writer = Writer::new(alloc, value_settings())?;
    writer.begin_sequence(YAML_BLOCK_SEQUENCE_STYLE)?;
    writer.text(text)?;
    write_toml(alloc, &mut writer, document, ValueSettings::default())?;
    writer.end()?;
    Ok(writer.finish()?)
}

#[test]
fn errors_of_a_writer_become_errors_of_toml(rt: HostRuntime) {
    let both = write_both(rt.alloc(), "a", "b = 1\n");
    let yaml = both.ok().expect(&rt, "TOML");
    same(&rt, yaml.as_slice(), "---\n- a\n- b: 1\n");
    let error = TomlError::from(yaml_error_t::WriteError);
    check_printed(&rt, rt.alloc(), &error, "write error");
}
