//! Output that is consumed in place.
ghost use Rattle.std.specs.Prelude.{◌≡◌, ◌<◌, false};
ghost use Rattle.yaml_base.specs.Characters.{is_break};
ghost use Rattle.yaml_pen.specs.Page.{IsReady};

use super::{made, put_letters};
use crate::tests::{equal, same};
use std::alloc::Allocator;
use std::process::Abort;
use yaml_base::{YAML_UTF8_ENCODING, yaml_error_t};
use yaml_pen::Pen;
use yaml_test_allocator::Refusing;

// A letter is written and flushed, and this is then the output.
fn check_letter<A: Allocator>(
    rt: &impl Abort,
    pen: &mut Pen<A>,
    letter: u8,
    flushed: Result<(), yaml_error_t>,
    output: &[u8],
)
    requires ready { IsReady pen.old }
    requires ascii { letter < 128 }
    requires no_break { is_break letter ≡ false }
    ensures { IsReady pen.new }
{
    equal(rt, &(pen.put(letter), pen.flush()), &(Ok(()), flushed));
    same(rt, pen.output(), output);
}

// All is consumed, and nothing is left.
fn consume<A: Allocator>(rt: &impl Abort, pen: &mut Pen<A>)
    requires { IsReady pen.old }
    ensures { IsReady pen.new }
{
    pen.consume_output();
    same(rt, pen.output(), b"");
}

// Three letters, of which two are consumed and one is taken.
fn check_three<A: Allocator + Copy>(rt: &impl Abort, pen: &mut Pen<A>)
    requires { IsReady pen.old }
    ensures { IsReady pen.new }
{
    consume(rt, pen);
    check_letter(rt, pen, b'a', Ok(()), b"a");
    check_letter(rt, pen, b'b', Ok(()), b"ab");
    consume(rt, pen);
    check_letter(rt, pen, b'c', Ok(()), b"c");
    same(rt, pen.take_output().as_slice(), b"c");
}

#[test]
fn what_is_consumed_is_taken(rt: HostRuntime) {
    let mut pen = made(&rt, rt.alloc(), 4, YAML_UTF8_ENCODING);
    check_three(&rt, &mut pen);
    check_letter(&rt, &mut pen, b'd', Ok(()), b"d");
    // The limit counts all four.
    check_letter(&rt, &mut pen, b'e', Err(yaml_error_t::WriteError), b"d");
    consume(&rt, &mut pen);
    equal(&rt, &pen.error(), &Some(yaml_error_t::WriteError));
    drop(pen);
}

fn consume_letters<A: Allocator>(rt: &impl Abort, pen: &mut Pen<A>)
    requires { IsReady pen.old }
    ensures { IsReady pen.new }
{
    equal(
        rt,
        &(put_letters(pen, 10_000), pen.flush()),
        &(Ok(()), Ok(())),
    );
    equal(rt, &pen.output().len(), &10_000);
    consume(rt, pen);
}

fn consume_parts<A: Allocator + Copy>(rt: &impl Abort, alloc: A) {
    let mut pen = made(rt, alloc, usize::MAX, YAML_UTF8_ENCODING);
    consume_letters(rt, &mut pen);
    consume_letters(rt, &mut pen);
    consume_letters(rt, &mut pen);
    drop(pen);
}

// The pen's own growth and that of the first part are all.
#[test]
fn parts_are_consumed_in_the_room_of_one(rt: HostRuntime) {
    let heap = Refusing::new(rt.alloc());
    heap.refuse(3);
    consume_parts(&rt, &heap);
    equal(&rt, &heap.left(), &1);
}
