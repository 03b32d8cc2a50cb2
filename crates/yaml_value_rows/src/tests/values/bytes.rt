//! Values whose canonical form was written out by hand.
use super::Example;
use super::memory::{Row, check_row};
use yaml_test_allocator::Refusing;
use yaml_value::laws::equal_bytes_equal_values;

const WRITTEN: &[Row] = &[
    (Example::Null, "---\n!!null \"null\"\n"),
    (Example::Bool(true), "---\n!!bool \"true\"\n"),
    (Example::Bool(false), "---\n!!bool \"false\"\n"),
    (Example::Int(0), "---\n!!int \"0\"\n"),
    (Example::Int(-1), "---\n!!int \"-1\"\n"),
    (
        Example::Int(i64::MIN),
        "---\n!!int \"-9223372036854775808\"\n",
    ),
    (
        Example::Int(i64::MAX),
        "---\n!!int \"9223372036854775807\"\n",
    ),
    (Example::Text(""), "---\n!!str \"\"\n"),
    (Example::Text("a\nb"), "---\n!!str \"a\\nb\"\n"),
    (Example::Text("é"), "---\n!!str \"é\"\n"),
    (Example::EmptyList, "---\n!!seq []\n"),
    (Example::EmptyMap, "---\n!!map {}\n"),
    (
        Example::List,
        "---\n!!seq [\n  !!int \"5\",\n  !!str \"a\",\n]\n",
    ),
    (
        Example::Map,
        "---\n!!map {\n  ? !!str \"k\"\n  : !!bool \"false\",\n}\n",
    ),
    (
        Example::Mixed,
        "---\n!!seq [\n  !!int \"5\",\n  !!str \"a\",\n  !!map {\n    ? !!str \"k\"\n    : !!bool \"false\",\n  },\n]\n",
    ),
];

#[test]
fn values_are_written_with_their_tags(rt: HostRuntime) {
    let heap = Refusing::new(rt.alloc());
    for row in WRITTEN {
        check_row(&rt, &heap, row);
    }
    // A law, which is called once.
    equal_bytes_equal_values();
}
