//! Versions, and lists of directives. (`tests/scripts/rows` has names, directives that are refused, and tags as they are divided.)
mod spelled;

use super::{directives, equal};
use std::alloc::{Allocator, Global};
use std::process::Abort;
use yaml_base::{yaml_error_t, yaml_tag_directive_t, yaml_version_directive_t};
use yaml_mark::*;
use yaml_test_allocator::Refusing;

/// Returns a directive, by its line in a script.
fn directive(rt: &impl Abort, alloc: Global, line: &str) -> yaml_tag_directive_t<Global> {
    let mut given = directives(rt, alloc, line);
    given.pop().expect(rt, "a directive")
}

// Adds the directives of a line.
fn append_all(rt: &impl Abort, alloc: Global, added: &mut Directives<Global>, line: &str) {
    for given in &directives(rt, alloc, line) {
        equal(rt, &added.append(given, false), &Ok(()));
    }
}

// These are in force, in their order.
fn check_all<A: Allocator>(
    rt: &impl Abort,
    directives: &Directives<A>,
    wanted: &[yaml_tag_directive_t<A>],
) {
    equal(rt, &directives.len(), &wanted.len());
    for number in 0..wanted.len().saturating_add(1) {
        equal(rt, &directives.get(number), &wanted.get(number));
    }
}

type Answer = Result<(), yaml_error_t>;

/// A major and a minor version, and the result of their check.
type Version = (i32, i32, Answer);

const OTHER: Answer = Err(yaml_error_t::IncompatibleVersion);

const VERSIONS: &[Version] = &[
    (1, 1, Ok(())),
    (1, 2, Ok(())),
    (1, 0, OTHER),
    (1, 3, OTHER),
    (2, 1, OTHER),
    (-1, 1, OTHER),
];

#[test]
fn versions_are_1_1_and_1_2(rt: HostRuntime) {
    for (major, minor, answer) in VERSIONS {
        let version = yaml_version_directive_t {
            major: *major,
            minor: *minor,
        };
        equal(&rt, &analyze_version(version), answer);
    }
}

/// A directive's line, and whether it is a default; the result of adding it, and how many are then in force.
type Given<'a> = (&'a str, bool, Answer, usize);

// Directives are added, and so many are in force after each.
fn check_given(rt: &impl Abort, alloc: Global, added: &mut Directives<Global>, rows: &[Given]) {
    for row in rows {
        let given = directive(rt, alloc, row.0);
        let answer = added.append(&given, row.1);
        drop(given);
        equal(rt, &(row.0, row.1, answer, added.len()), row);
    }
}

// In force are those of the start of a document.
fn check_start(rt: &impl Abort, alloc: Global, added: &Directives<Global>, start: &str) {
    check_all(rt, added, directives(rt, alloc, start).as_slice());
}

// All are dropped, and then one is given alone.
fn check_alone(rt: &impl Abort, alloc: Global, added: &mut Directives<Global>, line: &str) {
    added.clear();
    check_given(rt, alloc, added, &[(line, false, Ok(()), 1)]);
    check_start(rt, alloc, added, line);
}

const TWICE: Answer = Err(yaml_error_t::DuplicateDirective);

/// Two directives with one handle, one with another.
const GIVEN: &[Given] = &[
    (r#"+DOC 1 - "!!" "a""#, false, Ok(()), 1),
    (r#"+DOC 1 - "!!" "b""#, false, TWICE, 1),
    (r#"+DOC 1 - "!!" "b""#, true, Ok(()), 1),
    (r#"+DOC 1 - "!" "c""#, true, Ok(()), 2),
];

const IN_FORCE: &str = r#"+DOC 1 - "!!" "a" "!" "c""#;

const SECOND: &str = r#"+DOC 1 - "!!" "b""#;

// All are dropped, and then the second is given alone.
#[test]
fn a_handle_is_given_once(rt: HostRuntime) {
    let alloc = rt.alloc();
    let mut added = Directives::new(alloc);
    check_given(&rt, alloc, &mut added, GIVEN);
    check_start(&rt, alloc, &added, IN_FORCE);
    check_alone(&rt, alloc, &mut added, SECOND);
    drop(added);
}

/// More directives than are compared one after another. Prefixes begin prefixes before and after them, and one is given twice.
const MANY: &str =
    r#"+DOC 1 - "!0!" "n:0" "!1!" "v:a" "!2!" "v:ab" "!3!" "n:3" "!4!" "n:4" "!5!" "w:ab" "!6!" "n:6" "!7!" "n:7" "!8!" "t:a" "!9!" "t:ab:" "!10!" "u:ab:" "!11!" "u:a" "!12!" "t:a" "!13!" "v:abc" "!14!" "w:a" "!15!" "x:ab" "!16!" "x:\u{E9}""#;

/// Handles of the many, and one that isn't among them, and how many are then in force.
const GIVEN_AGAIN: &[Given] = &[
    (r#"+DOC 1 - "!0!" "a""#, false, TWICE, 17),
    (r#"+DOC 1 - "!8!" "a""#, false, TWICE, 17),
    (r#"+DOC 1 - "!16!" "a""#, true, Ok(()), 17),
    (r#"+DOC 1 - "!17!" "t:a""#, false, Ok(()), 18),
    (r#"+DOC 1 - "!17!" "b""#, false, TWICE, 18),
];

// All are dropped, and then one of the many is given alone.
#[test]
fn a_handle_is_given_once_among_many(rt: HostRuntime) {
    let alloc = rt.alloc();
    let mut added = Directives::new(alloc);
    append_all(&rt, alloc, &mut added, MANY);
    check_given(&rt, alloc, &mut added, GIVEN_AGAIN);
    check_alone(&rt, alloc, &mut added, r#"+DOC 1 - "!8!" "t:a""#);
    drop(added);
}

type Heap = Refusing<Global>;

// Adds a directive. If an allocation fails, the result is `Memory` and the list is as before; the directive is then added again.
fn check_added<A: Allocator + Copy>(
    rt: &impl Abort,
    heap: &Heap,
    directives: &mut Directives<A>,
    given: &yaml_tag_directive_t<A>,
) {
    let (before, left) = (directives.len(), heap.left());
    let mut answer = directives.append(given, false);
    if left != 0 && heap.left() == 0 {
        let refused = (Err(yaml_error_t::Memory), before);
        equal(rt, &(answer, directives.len()), &refused);
        answer = directives.append(given, false);
    }
    equal(rt, &answer, &Ok(()));
}

/// The last two are more than are compared one after another.
const ADDED: &str =
    r#"+DOC 1 - "!first!" "p" "!second-of-them!" "tag:a-long-prefix.example,2000:" "!3!" "q" "!4!" "r" "!5!" "s" "!6!" "t" "!7!" "u" "!8!" "v" "!9!" "w" "!10!" "xx""#;

// Directives are added with this growth refused.
fn add_refused<A: Allocator + Copy>(
    rt: &impl Abort,
    heap: &Heap,
    added: &mut Directives<A>,
    given: &[yaml_tag_directive_t<A>],
    number: usize,
) {
    heap.refuse(number);
    for directive in given {
        check_added(rt, heap, added, directive);
    }
    check_all(rt, added, given);
}

fn make_and_add<A: Allocator + Copy>(rt: &impl Abort, heap: &Heap, alloc: A, number: usize) {
    let given = directives(rt, alloc, ADDED);
    let mut added = Directives::new(alloc);
    add_refused(rt, heap, &mut added, given.as_slice(), number);
    drop(added);
}

// Answers whether there is that growth.
fn is_refused(rt: &impl Abort, alloc: Global, number: usize) -> bool {
    let heap = Refusing::new(alloc);
    make_and_add(rt, &heap, &heap, number);
    heap.left() == 0
}

// The first growth is refused, the second, and so on, until none is. Each directive takes one for its handle and one for its prefix,
// and past the eighth one more for each.
#[test]
fn refused_growths_change_nothing(rt: HostRuntime) {
    for number in 1..usize::MAX {
        if !is_refused(&rt, rt.alloc(), number) {
            equal(&rt, &(number > 24), &true);
            return;
        }
    }
}
