//! Room that is left by an emitter that is deleted.
use super::{UNSET, give, made, new_emitter};
use crate::tests::{equal, event_of};
use linked_list_allocator::LocalHeap;
use std::alloc::Allocator;
use std::process::Abort;
use yaml_base::yaml_error_t;
use yaml_emitter::{yaml_emitter_delete, yaml_emitter_t};

const SHORT: &[&str] = &["+STR any", "+DOC 1 -", r#"=VAL any 1 1 - - "a""#];

// The heap has room for one emitter, and not for two.
fn check_full<A: Allocator + Copy>(rt: &impl Abort, heap: A, emitter: &mut yaml_emitter_t<A>) {
    for line in SHORT {
        let answer = give(rt, emitter, event_of(rt, heap, line));
        equal(rt, &answer, &Ok(()));
    }
    equal(
        rt,
        &new_emitter(heap, &UNSET).err(),
        &Some(yaml_error_t::Memory),
    );
}

fn fill_and_delete<A: Allocator + Copy>(rt: &impl Abort, heap: A) {
    let mut emitter = made(rt, heap, &UNSET);
    check_full(rt, heap, &mut emitter);
    yaml_emitter_delete(emitter);
}

#[test]
fn a_deleted_emitter_leaves_room_for_another(rt: HostRuntime) {
    let heap = LocalHeap::new(rt.alloc(), 30_000).expect(&rt, "no memory");
    for _ in 0..100 {
        fill_and_delete(&rt, &heap);
    }
}
