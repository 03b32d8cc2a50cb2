//! Values written while memory is refused.
use super::{Example, Heap, canonical, made};
use crate::tests::answers;
use std::alloc::Global;
use std::process::Abort;
use yaml_base::yaml_error_t;
use yaml_test_allocator::Refusing;
use yaml_value::Value;

// Writes a value with this growth refused, and answers whether there is one: then `Memory` is returned, and else this text.
fn is_reported<'a>(
    rt: &impl Abort,
    heap: Heap<'a>,
    value: &Value<Heap<'a>>,
    expected: &str,
    number: usize,
) -> bool {
    heap.refuse(number);
    let answer = canonical(heap, value);
    let is_met = heap.left() == 0;
    heap.refuse(0);
    let wanted = if is_met {
        Err(yaml_error_t::Memory)
    } else {
        Ok(expected)
    };
    answers(rt, answer, &wanted);
    is_met
}

/// A longer text takes too much time to be written after each refusal.
const LONG: usize = 100_000;

/// A value, and its text.
pub(super) type Row<'a> = (Example, &'a str);

// Each growth that a value takes is refused in turn, and after them all it gives this text; also after each.
pub(super) fn check_row(rt: &impl Abort, heap: Heap<'_>, row: &Row) {
    let value = made(rt, heap, &row.0);
    for number in 1..usize::MAX {
        if !is_reported(rt, heap, &value, row.1, number) {
            break;
        }
        if row.1.len() < LONG {
            answers(rt, canonical(heap, &value), &Ok(row.1));
        }
    }
    drop(value);
}

/// Adds a line of a list within so many others.
fn add_line(rt: &impl Abort, text: &mut String, depth: u32, line: &str) {
    for _ in 0..depth {
        text.push_str("  ").expect(rt, "no memory");
    }
    text.push_str(line).expect(rt, "no memory");
}

/// Returns the canonical form of so many lists, each the only item of the one around it, and of an empty list in the innermost.
fn nested_text(rt: &impl Abort, alloc: Global, count: u32) -> String {
    let mut text = String::from_str(alloc, "---\n").expect(rt, "no memory");
    for depth in 0..count {
        add_line(rt, &mut text, depth, "!!seq [\n");
    }
    add_line(rt, &mut text, count, "!!seq [],\n");
    for depth in (1..count).rev() {
        add_line(rt, &mut text, depth, "],\n");
    }
    add_line(rt, &mut text, 0, "]\n");
    text
}

#[test]
fn thirty_lists_and_a_thousand_are_written(rt: HostRuntime) {
    let heap = Refusing::new(rt.alloc());
    for count in [30, 1_000] {
        let text = nested_text(&rt, rt.alloc(), count - 1);
        let row = (Example::Nested(count), text.as_str());
        check_row(&rt, &heap, &row);
    }
}
