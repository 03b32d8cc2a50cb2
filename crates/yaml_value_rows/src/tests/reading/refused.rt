//! Values read while memory is refused.
use super::read;
use crate::tests::equal;
use std::alloc::Global;
use std::process::Abort;
use yaml_read::ReadError;
use yaml_test_allocator::Refusing;

/// Canonical bytes of values of each kind.
const TAKEN: &[&str] = &[
    "---\n!!null \"null\"\n",
    "---\n!!bool \"true\"\n",
    "---\n!!bool \"false\"\n",
    "---\n!!int \"7\"\n",
    "---\n!!int \"-5\"\n",
    "---\n!!int \"10\"\n",
    "---\n!!str \"a\"\n",
    "---\n!!str \"\"\n",
    "---\n!!str \"\\n\"\n",
    "---\n!!seq []\n",
    "---\n!!map {}\n",
    "---\n!!seq [\n  !!int \"5\",\n  !!str \"a\",\n]\n",
    "---\n!!map {\n  ? !!str \"k\"\n  : !!bool \"false\",\n}\n",
    "---\n!!map {\n  ? !!seq [\n    !!map {},\n    !!seq [],\n  ]\n  : !!map {\n    ? !!null \"null\"\n    : !!int \"0\",\n    ? !!bool \"true\"\n    : !!str \"\",\n  },\n}\n",
];

/// Returns whether there was a growth to be refused: then `Memory` was the answer, and else none was.
pub(super) fn is_reported(
    rt: &impl Abort,
    heap: &Refusing<Global>,
    answer: Option<ReadError>,
) -> bool {
    let is_met = heap.left() == 0;
    heap.refuse(0);
    let wanted = if is_met {
        Some(ReadError::Memory)
    } else {
        None
    };
    equal(rt, &answer, &wanted);
    is_met
}

/// Refuses each growth in turn, and reads the bytes after each.
pub(super) fn refuse_growths(rt: &impl Abort, heap: &Refusing<Global>, bytes: &[u8]) {
    for number in 1..usize::MAX {
        heap.refuse(number);
        if !is_reported(rt, heap, read(heap, bytes).err()) {
            break;
        }
        equal(rt, &read(heap, bytes).err(), &None);
    }
}

#[test]
fn a_refused_growth_is_reported(rt: HostRuntime) {
    let heap = Refusing::new(rt.alloc());
    for text in TAKEN {
        refuse_growths(&rt, &heap, text.as_bytes());
    }
}
