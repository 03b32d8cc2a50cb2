//! Growths that are refused: the first, the second, and so on, until none is.
ghost use Rattle.yaml_pen.specs.Page.{IsReady};

use super::{IN_UTF8, Text, check_bytes, check_stopped, made, write};
use crate::tests::equal;
use std::alloc::{Allocator, Global};
use std::process::Abort;
use yaml_base::{YAML_UTF8_ENCODING, yaml_error_t};
use yaml_pen::Pen;
use yaml_test_allocator::Refusing;

/// A text of 100,000 bytes, its first ten, which come again and again; the growth that is refused, and how many bytes were flushed
/// before it. The last growth of each text is one that there isn't.
type Row<'a> = (Text, &'a [u8; 10], usize, usize);

const LETTERS: &[u8; 10] = b"xxxxxxxxxx";

/// The output grows by the first flush, and then to twice its room. Each flush of the letters adds 16,384 bytes. The run's buffers
/// end at 16,383, 32,766, 49,150 and 65,533 bytes, since none ends within a character. The first growth is the pen's own.
const ROWS: &[Row] = &[
    (Text::Letters, LETTERS, 2, 0),
    (Text::Letters, LETTERS, 3, 16_384),
    (Text::Letters, LETTERS, 4, 32_768),
    (Text::Letters, LETTERS, 5, 65_536),
    (Text::Letters, LETTERS, 6, WHOLE),
    (Text::Run, IN_UTF8, 2, 0),
    (Text::Run, IN_UTF8, 3, 16_383),
    (Text::Run, IN_UTF8, 4, 32_766),
    (Text::Run, IN_UTF8, 5, 49_150),
    (Text::Run, IN_UTF8, 6, WHOLE),
];

const WHOLE: usize = 100_000;

// A flush of nothing takes no memory. The text finds no room, and then nothing does; or the whole text is flushed.
fn check_text<A: Allocator>(rt: &impl Abort, alloc: Global, pen: &mut Pen<A>, row: &Row)
    requires { IsReady pen.old }
{
    let answers = (pen.flush(), write(pen, alloc, row.0, 10_000), pen.flush());
    let wanted = if row.3 == WHOLE {
        Ok(())
    } else {
        Err(yaml_error_t::Memory)
    };
    equal(rt, &answers, &(Ok(()), wanted, wanted));
    if let Err(error) = wanted {
        check_stopped(rt, alloc, pen, error);
    }
    check_bytes(rt, pen.output(), 0, row.3, row.1);
}

fn check_pen<A: Allocator + Copy>(rt: &impl Abort, alloc: Global, heap: A, row: &Row) {
    let mut pen = made(rt, heap, usize::MAX, YAML_UTF8_ENCODING);
    check_text(rt, alloc, &mut pen, row);
    drop(pen);
}

fn check_growth(rt: &impl Abort, alloc: Global, row: &Row) {
    let heap = Refusing::new(alloc);
    heap.refuse(row.2);
    check_pen(rt, alloc, &heap, row);
    equal(rt, &heap.left(), &usize::from(row.3 == WHOLE));
}

fn check_new(rt: &impl Abort, alloc: Global) {
    let heap = Refusing::new(alloc);
    heap.refuse(1);
    equal(rt, &Pen::new(&heap).err(), &Some(yaml_error_t::Memory));
}

#[test]
fn refused_growths_leave_the_output(rt: HostRuntime) {
    check_new(&rt, rt.alloc());
    for row in ROWS {
        check_growth(&rt, rt.alloc(), row);
    }
}
