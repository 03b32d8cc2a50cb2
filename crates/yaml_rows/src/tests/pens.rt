//! Bytes that are known from outside, borders of the buffer, and limits.
ghost use Rattle.std.specs.Prelude.{◌≡◌, IfOk, false};
ghost use Rattle.std.specs.List.{list_any};
ghost use Rattle.std.specs.Str.{chars};
ghost use Rattle.std.specs.String.{string_bytes};
ghost use Rattle.yaml_base.specs.Characters.{is_break};
ghost use Rattle.yaml_pen.specs.Page.{IsReady, IsUntouched};

mod consumed;
mod memory;
mod runs;

use super::{equal, same, write_indicator, write_spaced};
use std::alloc::{AllocError, Allocator, Global};
use std::process::Abort;
use yaml_base::{
    YAML_CRLN_BREAK, YAML_LN_BREAK, YAML_UTF8_ENCODING, YAML_UTF16BE_ENCODING,
    YAML_UTF16LE_ENCODING, yaml_encoding_t, yaml_error_t,
};
use yaml_pen::{Indicator, Pen};

// A text begins, its lines ended by LF. Always answers `Ok`.
fn begin<A: Allocator>(pen: &mut Pen<A>, encoding: yaml_encoding_t) -> Result<(), yaml_error_t>
    requires { IsUntouched pen.old }
    ensures { IsReady pen.new }
{
    match encoding {
        yaml_encoding_t::YAML_UTF16LE_ENCODING => {
            pen.begin(YAML_UTF16LE_ENCODING, YAML_LN_BREAK);
            pen.write_bom()
        }
        yaml_encoding_t::YAML_UTF16BE_ENCODING => {
            pen.begin(YAML_UTF16BE_ENCODING, YAML_LN_BREAK);
            pen.write_bom()
        }
        _ => {
            pen.begin(YAML_UTF8_ENCODING, YAML_LN_BREAK);
            Ok(())
        }
    }
}

/// Makes a pen that is ready to write, if there is memory for it.
fn made<A: Allocator + Copy>(
    rt: &impl Abort,
    alloc: A,
    limit: usize,
    encoding: yaml_encoding_t,
) -> Pen<A>
    ensures { IsReady result }
{
    let mut pen = Pen::new(alloc).expect(rt, "no memory");
    pen.set_limit(limit);
    equal(rt, &begin(&mut pen, encoding), &Ok(()));
    pen
}

fn put_letters<A: Allocator>(pen: &mut Pen<A>, count: usize) -> Result<(), yaml_error_t>
    requires { IsReady pen.old }
    ensures { IsReady pen.new }
{
    'letters: for _ in 0..count {
        pen.put(b'x')?;
    }
    Ok(())
}

fn write_cycles<A: Allocator>(pen: &mut Pen<A>, count: usize) -> Result<(), yaml_error_t>
    requires { IsReady pen.old }
    ensures { IsReady pen.new }
{
    'cycles: for _ in 0..count {
        pen.put(b'a')?;
        pen.write_char('é')?;
        pen.write_char('€')?;
        pen.write_char('\u{1F600}')?;
    }
    Ok(())
}

// Ten bytes of UTF-8, again and again.
fn long_run<A: Allocator>(alloc: A, count: usize) -> Result<String<A>, AllocError>
    ensures { IfOk result (λ text. list_any is_break (chars (string_bytes text)) ≡ false) }
{
    let mut text = String::new(alloc);
    'cycles: for _ in 0..count {
        text.push_str("aé€\u{1F600}")?;
    }
    Ok(text)
}

fn write_long_run<A: Allocator, B: Allocator>(
    pen: &mut Pen<A>,
    alloc: B,
    count: usize,
) -> Result<(), yaml_error_t>
    requires { IsReady pen.old }
    ensures { IsReady pen.new }
{
    match long_run(alloc, count) {
        Ok(run) => pen.write_run(&run),
        Err(_) => Ok(()),
    }
}

/// Checks that nothing was flushed before the flush, and this is after it.
pub(super) fn check_flushed(rt: &impl Abort, pen: &mut Pen<Global>, expected: &[u8])
    requires { IsReady pen.old }
{
    same(rt, pen.output(), b"");
    equal(rt, &pen.flush(), &Ok(()));
    same(rt, pen.output(), expected);
    equal(rt, &pen.error(), &None);
}

/// The column and both flags of the cursor.
type Cursor = (i32, bool, bool);

pub(super) fn cursor<A: Allocator>(pen: &Pen<A>) -> Cursor {
    (pen.column(), pen.whitespace(), pen.indention())
}

// An indicator, a character outside ASCII, and a new line. Answers the cursor after each.
fn write_line(pen: &mut Pen<Global>) -> Result<[Cursor; 3], yaml_error_t>
    requires { IsReady pen.old }
    ensures { IsReady pen.new }
{
    write_spaced(pen, "---")?;
    let behind_indicator = cursor(pen);
    pen.write_char('é')?;
    let behind_character = cursor(pen);
    pen.write_indent(2)?;
    Ok([behind_indicator, behind_character, cursor(pen)])
}

const LINE: [Cursor; 3] = [(3, false, false), (4, false, false), (2, true, true)];

// A letter, the setting's line break, and a separator of lines. Answers the cursor after the letter, and after all.
fn end_line(pen: &mut Pen<Global>) -> Result<(Cursor, i32), yaml_error_t>
    requires { IsReady pen.old }
    ensures { IsReady pen.new }
{
    pen.put(b'a')?;
    pen.set_whitespace(false);
    pen.set_indention(false);
    let behind_letter = cursor(pen);
    pen.put_break()?;
    pen.write_break('\u{2028}')?;
    Ok((behind_letter, pen.column()))
}

/// An encoding, and the bytes written in it.
type Written<'a> = (yaml_encoding_t, &'a [u8]);

fn check_calls(rt: &impl Abort, alloc: Global, row: &Written) {
    let mut pen = made(rt, alloc, usize::MAX, row.0);
    equal(rt, &write_line(&mut pen), &Ok(LINE));
    equal(rt, &end_line(&mut pen), &Ok(((3, false, false), 0)));
    check_flushed(rt, &mut pen, row.1);
    drop(pen);
}

const CALLS: &[Written] = &[
    (YAML_UTF8_ENCODING, b"---\xC3\xA9\n  a\n\xE2\x80\xA8"),
    (
        YAML_UTF16LE_ENCODING,
        b"\xFF\xFE-\0-\0-\0\xE9\0\n\0 \0 \0a\0\n\0\x28\x20",
    ),
    (
        YAML_UTF16BE_ENCODING,
        b"\xFE\xFF\0-\0-\0-\0\xE9\0\n\0 \0 \0a\0\n\x20\x28",
    ),
];

#[test]
fn each_call_writes(rt: HostRuntime) {
    for row in CALLS {
        check_calls(&rt, rt.alloc(), row);
    }
}

// The setting's line break, and two that are written as given.
fn write_breaks(pen: &mut Pen<Global>) -> Result<(), yaml_error_t>
    requires { IsReady pen.old }
    ensures { IsReady pen.new }
{
    pen.put(b'a')?;
    pen.put_break()?;
    pen.write_break('\n')?;
    pen.write_break('\r')
}

fn write_indicators(pen: &mut Pen<Global>) -> Result<(), yaml_error_t>
    requires { IsReady pen.old }
    ensures { IsReady pen.new }
{
    let dash = Indicator {
        keeps_indention: true,
        ..Indicator::opening("-")
    };
    write_indicator(pen, &dash)?;
    write_spaced(pen, "b")?;
    write_spaced(pen, "c")
}

#[test]
fn line_breaks_are_those_of_the_setting(rt: HostRuntime) {
    let mut pen = Pen::new(rt.alloc()).expect(&rt, "no memory");
    pen.begin(YAML_UTF8_ENCODING, YAML_CRLN_BREAK);
    equal(&rt, &write_breaks(&mut pen), &Ok(()));
    equal(&rt, &write_indicators(&mut pen), &Ok(()));
    check_flushed(&rt, &mut pen, b"a\r\n\r\n\r-b c");
    drop(pen);
}

// After a refusal each call answers that error, a run too, and nothing more is flushed.
fn check_stopped<A: Allocator>(
    rt: &impl Abort,
    alloc: Global,
    pen: &mut Pen<A>,
    error: yaml_error_t,
)
    requires { IsReady pen.old }
{
    let length = pen.output().len();
    let answers = [write_long_run(pen, alloc, 1), pen.put(b'a'), pen.flush()];
    equal(rt, &answers, &[Err(error); 3]);
    equal(
        rt,
        &(pen.error(), pen.output().len()),
        &(Some(error), length),
    );
}

// The flush is refused and writes this, and then each call is refused.
fn check_cut(rt: &impl Abort, alloc: Global, pen: &mut Pen<Global>, cut: &[u8])
    requires { IsReady pen.old }
{
    equal(rt, &pen.flush(), &Err(yaml_error_t::WriteError));
    same(rt, pen.output(), cut);
    check_stopped(rt, alloc, pen, yaml_error_t::WriteError);
}

// The text is cut if the limit leaves less room, and otherwise whole.
fn check_limit(rt: &impl Abort, alloc: Global, row: &Written, limit: usize) {
    let mut pen = made(rt, alloc, limit, row.0);
    let answers = (pen.write_char('\u{1F600}'), pen.put_break());
    equal(rt, &answers, &(Ok(()), Ok(())));
    match row.1.get(..limit) {
        Some(cut) if limit < row.1.len() => check_cut(rt, alloc, &mut pen, cut),
        _ => check_flushed(rt, &mut pen, row.1),
    }
    drop(pen);
}

const FACES: &[Written] = &[
    (YAML_UTF8_ENCODING, b"\xF0\x9F\x98\x80\n"),
    (YAML_UTF16LE_ENCODING, b"\xFF\xFE\x3D\xD8\x00\xDE\n\0"),
    (YAML_UTF16BE_ENCODING, b"\xFE\xFF\xD8\x3D\xDE\x00\0\n"),
];

#[test]
fn a_limit_cuts_at_any_byte(rt: HostRuntime) {
    for row in FACES {
        for limit in 0..row.1.len().saturating_add(2) {
            check_limit(&rt, rt.alloc(), row, limit);
        }
    }
}

/// `a`, U+00E9, U+20AC and U+1F600 in an encoding, ten bytes in each.
type Cycle<'a> = (yaml_encoding_t, &'a [u8; 10]);

const IN_UTF8: &[u8; 10] = b"a\xC3\xA9\xE2\x82\xAC\xF0\x9F\x98\x80";

const IN_UTF16LE: &[u8; 10] = b"a\0\xE9\0\xAC\x20\x3D\xD8\x00\xDE";

const IN_UTF16BE: &[u8; 10] = b"\0a\0\xE9\x20\xAC\xD8\x3D\xDE\x00";

// So many bytes from the start on: the cycle again and again.
fn check_bytes(rt: &impl Abort, output: &[u8], start: usize, count: usize, cycle: &[u8; 10]) {
    let bytes = output.get(start..).unwrap_or(b"");
    equal(rt, &bytes.len(), &count);
    for (place, byte) in bytes.iter().enumerate() {
        equal(rt, &(place, *byte), &(place, cycle[place % 10]));
    }
}

// The cycles begin after the mark and so many letters.
fn start_of(encoding: yaml_encoding_t, ahead: usize) -> usize {
    match encoding {
        YAML_UTF8_ENCODING => ahead,
        _ => ahead.saturating_mul(2).saturating_add(2),
    }
}

/// A text of ten bytes, again and again.
#[derive(Clone, Copy)]
enum Text {
    /// Ten letters, one by one.
    Letters,
    /// The four characters, one by one.
    Characters,
    /// A run, which is flushed in whole characters.
    Run,
}

// A text of so many times ten bytes.
fn write<A: Allocator>(
    pen: &mut Pen<A>,
    alloc: Global,
    text: Text,
    count: usize,
) -> Result<(), yaml_error_t>
    requires { IsReady pen.old }
    ensures { IsReady pen.new }
{
    match text {
        Text::Letters => put_letters(pen, count.saturating_mul(10)),
        Text::Characters => write_cycles(pen, count),
        Text::Run => write_long_run(pen, alloc, count),
    }
}

// A text that is longer than six buffers, one of nothing, and a short one. Answers the columns after the first and after all.
fn write_parts(pen: &mut Pen<Global>, alloc: Global, text: Text) -> Result<(i32, i32), yaml_error_t>
    requires { IsReady pen.old }
    ensures { IsReady pen.new }
{
    write(pen, alloc, text, 10_000)?;
    let column = pen.column();
    write(pen, alloc, text, 0)?;
    write(pen, alloc, text, 1)?;
    Ok((column, pen.column()))
}

// After so many letters a text ends in these columns.
fn check_columns(rt: &impl Abort, alloc: Global, pen: &mut Pen<Global>, text: Text, ahead: u8)
    requires { IsReady pen.old }
    ensures { IsReady pen.new }
{
    equal(rt, &put_letters(pen, usize::from(ahead)), &Ok(()));
    let columns = write_parts(pen, alloc, text);
    let start = i32::from(ahead);
    let wanted = (start.saturating_add(40_000), start.saturating_add(40_004));
    equal(rt, &columns, &Ok(wanted));
}

fn check_parts(rt: &impl Abort, alloc: Global, text: Text, row: &Cycle, ahead: u8) {
    let mut pen = made(rt, alloc, usize::MAX, row.0);
    check_columns(rt, alloc, &mut pen, text, ahead);
    equal(rt, &pen.flush(), &Ok(()));
    let start = start_of(row.0, usize::from(ahead));
    check_bytes(rt, pen.output(), start, 100_010, row.1);
    drop(pen);
}

const CYCLES: &[Cycle] = &[
    (YAML_UTF8_ENCODING, IN_UTF8),
    (YAML_UTF16LE_ENCODING, IN_UTF16LE),
    (YAML_UTF16BE_ENCODING, IN_UTF16BE),
];

// After some letters the buffer's end falls into each place of the ten bytes.
#[test]
fn characters_and_runs_stay_whole_across_the_buffer(rt: HostRuntime) {
    for row in CYCLES {
        for ahead in 0..10 {
            check_parts(&rt, rt.alloc(), Text::Characters, row, ahead);
            check_parts(&rt, rt.alloc(), Text::Run, row, ahead);
        }
    }
}
