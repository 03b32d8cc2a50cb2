//! Documents read while memory is refused.
use super::document_of;
use super::taken::taken;
use crate::tests::equal;
use crate::tests::reading::refused::is_reported;
use std::alloc::Global;
use std::process::Abort;
use yaml_test_allocator::Refusing;

/// Refuses each growth in turn, and reads the bytes after each.
fn check_row(rt: &impl Abort, heap: &Refusing<Global>, bytes: &[u8]) {
    for number in 1..usize::MAX {
        heap.refuse(number);
        if !is_reported(rt, heap, document_of(heap, bytes).err()) {
            break;
        }
        equal(rt, &document_of(heap, bytes).err(), &None);
    }
}

#[test]
fn a_refused_growth_is_reported(rt: HostRuntime) {
    let heap = Refusing::new(rt.alloc());
    for (_, text) in taken() {
        check_row(&rt, &heap, text.as_bytes());
    }
}
