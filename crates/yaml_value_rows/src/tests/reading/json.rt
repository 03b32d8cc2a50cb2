//! JSON texts as typed values. (`tests/c/canonical.c` has their canonical bytes, and why a text has none.)
use super::check_integer;
use yaml_json_value::{Keys, value_from_json};

#[test]
fn a_number_of_json_is_an_integer(rt: HostRuntime) {
    let value = value_from_json(rt.alloc(), "7", Keys::Unique).expect(&rt, "not JSON");
    check_integer(&rt, &value, 7);
}
