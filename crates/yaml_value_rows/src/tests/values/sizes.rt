//! The number of values, and their depth.
use super::{Example, Heap, Made, canonical, made};
use crate::tests::equal;
use std::process::Abort;
use yaml_base::yaml_error_t;
use yaml_test_allocator::Refusing;

/// The depth of the deepest value of a row, far past what may be written.
const DEEPEST: u32 = 100_000;

/// Counts a value, with the growth of this number refused, which must come; with 0 none is. Returns `None` if it isn't counted.
fn counted(rt: &impl Abort, heap: Heap<'_>, value: &Made<'_>, refused: usize) -> Option<u64> {
    heap.refuse(refused);
    let count = value.count();
    equal(rt, &heap.left(), &0);
    heap.refuse(0);
    count.ok()
}

/// Returns why a value isn't written, which comes before anything is allocated; `None` for one that is.
fn refusal<'a>(
    heap: Heap<'a>,
    value: &Made<'a>,
    wanted: Option<yaml_error_t>,
) -> Option<yaml_error_t> {
    if wanted.is_some() {
        heap.refuse(1);
    }
    let error = canonical(heap, value).err();
    heap.refuse(0);
    error
}

/// A value; how many values it has, how often a list grows while they are counted, and why it isn't written.
type Size = (Example, u64, usize, Option<yaml_error_t>);

/// Checks that a value is counted, unless the list finds no room, and dropped.
fn check_size(rt: &impl Abort, heap: Heap<'_>, size: &Size) {
    let value = made(rt, heap, &size.0);
    for refused in 0..=size.2 {
        let count = counted(rt, heap, &value, refused);
        let wanted = if refused == 0 { Some(size.1) } else { None };
        equal(rt, &(refused, count), &(refused, wanted));
    }
    let refusal = refusal(heap, &value, size.3);
    equal(rt, &(size.1, refusal), &(size.1, size.3));
    drop(value);
}

/// A thousand may lie within one another.
const SIZES: &[Size] = &[
    (Example::Null, 1, 0, None),
    (Example::Text("abc"), 1, 0, None),
    (Example::EmptyList, 1, 0, None),
    (Example::Mixed, 6, 0, None),
    (Example::Nested(1_000), 1_000, 0, None),
    (
        Example::Nested(1_001),
        1_001,
        9,
        Some(yaml_error_t::TooDeep),
    ),
    (
        Example::Nested(DEEPEST),
        100_000,
        16,
        Some(yaml_error_t::TooDeep),
    ),
    (
        Example::NestedKey(1_000),
        1_002,
        9,
        Some(yaml_error_t::TooDeep),
    ),
];

#[test]
fn a_value_counts_itself_and_a_thousand_lie_within_one_another(rt: HostRuntime) {
    let heap = Refusing::new(rt.alloc());
    for size in SIZES {
        check_size(&rt, &heap, size);
    }
}
