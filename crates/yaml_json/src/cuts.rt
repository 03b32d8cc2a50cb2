//! The end of a JSON text that others follow.
ghost use Rattle.std.specs.Prelude.{◌≡◌, ◌↔◌, ℕ, List, ◌+◌, ◌<◌, ◌≤◌, ◌^◌, ◌++◌, ◌||◌, ◌==◌, IsTrue, length, MatchOption};
ghost use Rattle.std.specs.Simd.Lanes.{chunk};
ghost use Rattle.json.specs.Ascii as ascii;
ghost use Rattle.yaml_json.specs.Texts.{CutsFirstText, after_byte, scan_first_byte, scan_in_string, is_closer, is_inner_byte, is_opener, scan_within};
ghost use Rattle.yaml_json.specs.Cuts.{CutsAt, HasScanned};
ghost use Rattle.yaml_json.specs.Specials.{IsInside, MayBeSpecial};

use crate::words::{is_blank, is_operator};
use std::simd::prelude::*;

/// The input that a scan has before it.
#[derive(Clone, Copy)]
pub(crate) enum Mode {
    /// A text, after some blanks.
    Before,
    /// More of an array or an object.
    Within,
    /// More of a string.
    InString,
    /// A byte after a backslash.
    AfterBackslash,
    /// More of a number or a word.
    InWord,
    /// Blanks after a text, and the next text.
    Behind,
}

/// The state of a scan: its mode, and the number of open brackets and braces.
#[derive(Clone, Copy)]
pub(crate) struct Scan {
    pub(crate) mode: Mode,
    pub(crate) levels: usize,
}

pub(crate) fn opens(byte: u8) -> bool
    ensures { result ≡ is_opener byte }
{
    (byte == b'{') | (byte == b'[')
}

pub(crate) fn closes(byte: u8) -> bool
    ensures { result ≡ is_closer byte }
{
    (byte == b'}') | (byte == b']')
}

/// Returns whether a character doesn't begin with this byte.
fn is_inner(byte: u8) -> bool
    ensures { result ≡ is_inner_byte byte }
{
    byte >= 128 && byte < 192
}

/// Returns the scan after the first byte of a text, or after a blank before it.
fn first_scan(byte: u8) -> Scan
    ensures { result ≡ scan_first_byte byte }
{
    if is_blank(byte) {
        Scan {
            mode: Mode::Before,
            levels: 0,
        }
    } else if byte == b'"' {
        Scan {
            mode: Mode::InString,
            levels: 0,
        }
    } else if opens(byte) {
        Scan {
            mode: Mode::Within,
            levels: 1,
        }
    } else if is_operator(byte) {
        Scan {
            mode: Mode::Behind,
            levels: 0,
        }
    } else {
        Scan {
            mode: Mode::InWord,
            levels: 0,
        }
    }
}

/// Returns the scan after a byte of an array or an object.
fn within(levels: usize, byte: u8) -> Scan
    requires { levels + 1 < 2 ^ 64 }
    ensures { result ≡ scan_within levels byte }
{
    if byte == b'"' {
        Scan {
            mode: Mode::InString,
            levels,
        }
    } else if opens(byte) {
        Scan {
            mode: Mode::Within,
            levels: levels + 1,
        }
    } else if closes(byte) {
        if levels <= 1 {
            Scan {
                mode: Mode::Behind,
                levels: 0,
            }
        } else {
            Scan {
                mode: Mode::Within,
                levels: levels - 1,
            }
        }
    } else {
        Scan {
            mode: Mode::Within,
            levels,
        }
    }
}

/// Returns the scan after a byte of a string.
fn in_string(levels: usize, byte: u8) -> Scan
    ensures { result ≡ scan_in_string levels byte }
{
    if byte == b'\\' {
        Scan {
            mode: Mode::AfterBackslash,
            levels,
        }
    } else if byte != b'"' {
        Scan {
            mode: Mode::InString,
            levels,
        }
    } else if levels == 0 {
        Scan {
            mode: Mode::Behind,
            levels: 0,
        }
    } else {
        Scan {
            mode: Mode::Within,
            levels,
        }
    }
}

/// Returns the scan after a byte of an array, an object or a string.
fn inside(scan: Scan, byte: u8) -> Scan
    requires inside { IsInside scan }
    requires few { scan.levels + 1 < 2 ^ 64 }
    ensures { after_byte scan byte ≡ Some result }
{
    match scan.mode {
        Mode::InString => in_string(scan.levels, byte),
        _ => within(scan.levels, byte),
    }
}

/// Returns the scan after a byte more of the same text; `None` if the byte begins the next text.
fn step(scan: Scan, byte: u8) -> Option<Scan>
    requires { scan.levels + 1 < 2 ^ 64 }
    ensures { result ≡ after_byte scan byte }
{
    match scan.mode {
        Mode::Before => Some(first_scan(byte)),
        Mode::Within | Mode::InString => Some(inside(scan, byte)),
        Mode::AfterBackslash => Some(Scan {
            mode: Mode::InString,
            levels: scan.levels,
        }),
        Mode::InWord => {
            if is_blank(byte) {
                Some(Scan {
                    mode: Mode::Behind,
                    levels: 0,
                })
            } else if is_operator(byte) {
                None
            } else {
                Some(scan)
            }
        }
        Mode::Behind => {
            if is_blank(byte) | is_inner(byte) {
                Some(scan)
            } else {
                None
            }
        }
    }
}

/// The point up to which a text was scanned.
#[derive(Clone, Copy)]
pub(crate) struct Cut {
    pub(crate) scan: Scan,
    /// The number of bytes that were scanned.
    pub(crate) scanned: usize,
}

/// Makes a cut of a text of which nothing was scanned.
pub(crate) fn new_cut() -> Cut
    ensures { (text : List ℕ) → HasScanned text result }
{
    Cut {
        scan: Scan {
            mode: Mode::Before,
            levels: 0,
        },
        scanned: 0,
    }
}

/// Returns whether more of an array, an object or a string comes next.
fn is_inside(scan: Scan) -> bool
    ensures { IsTrue result ↔ IsInside scan }
{
    match scan.mode {
        Mode::Within | Mode::InString => true,
        _ => false,
    }
}

/// Returns the bytes of a vector that may change a scan within an array, an object or a string: quotes, backslashes, brackets and
/// braces.
fn specials(bytes: u8x32) -> u64
    ensures small { result < 2 ^ 32 }
    ensures specials { MayBeSpecial bytes result }
{
    // With bit 5 set, brackets are braces, and a backslash is the bar between them. A bar that is found changes no scan.
    let folded = bytes | u8x32::splat(0x20);
    let is_bracket = folded.simd_gt(u8x32::splat(b'z')) & folded.simd_lt(u8x32::splat(b'~'));
    (bytes.simd_eq(u8x32::splat(b'"')) | is_bracket).to_bitmask()
}

/// Scans 32 bytes within an array, an object or a string, or as many as lead out of it.
fn pass_vector(text: &[u8], cut: Cut, found: u64) -> Cut
    requires inside { IsInside cut.scan }
    requires scanned { HasScanned text.now cut }
    requires room { cut.scanned + 32 ≤ length text.now }
    requires small { found < 2 ^ 32 }
    requires specials { MayBeSpecial (chunk cut.scanned 32 text.now) found }
    ensures scanned { HasScanned text.now result }
    ensures further { cut.scanned < result.scanned }
{
    let mut scan = cut.scan;
    let mut left = found;
    'specials: while left != 0 {
        let at = cut.scanned + left.trailing_zeros() as usize;
        scan = inside(scan, text[at]);
        if !is_inside(scan) {
            return Cut {
                scan,
                scanned: at + 1,
            };
        }
        left &= left - 1;
    }
    Cut {
        scan,
        scanned: cut.scanned + 32,
    }
}

/// Scans an array, an object or a string, 32 bytes at a time.
fn pass_vectors(text: &[u8], cut: Cut) -> Cut
    requires { HasScanned text.now cut }
    ensures scanned { HasScanned text.now result }
    ensures further { cut.scanned ≤ result.scanned }
{
    let mut next = cut;
    'vectors: while is_inside(next.scan) && text.len() - next.scanned >= 32 {
        let found = specials(u8x32::from_slice(&text[next.scanned..]));
        next = pass_vector(text, next, found);
    }
    next
}

/// Scans an array, an object or a string, byte by byte.
fn pass_bytes(text: &[u8], cut: Cut) -> Cut
    requires { HasScanned text.now cut }
    ensures scanned { HasScanned text.now result }
    ensures further { cut.scanned ≤ result.scanned }
{
    let mut next = cut;
    'bytes: while is_inside(next.scan) && next.scanned < text.len() {
        next.scan = inside(next.scan, text[next.scanned]);
        next.scanned += 1;
    }
    next
}

/// Scans a text from the place at which the scan stopped. Returns the place at which the text after the first begins. If there is none,
/// all is scanned.
pub(crate) fn find_end(text: &[u8], cut: &mut Cut) -> Option<usize>
    requires { HasScanned text.now cut.old }
    ensures { MatchOption result (HasScanned text.now cut.new × (cut.new.scanned ≡ length text.now)) (CutsAt text.now) }
{
    let mut next = *cut;
    'bytes: while next.scanned < text.len() {
        next = pass_bytes(text, pass_vectors(text, next));
        if next.scanned == text.len() {
            break;
        }
        match step(next.scan, text[next.scanned]) {
            Some(scan) => next.scan = scan,
            None => return Some(next.scanned),
        }
        next.scanned += 1;
    }
    *cut = next;
    None
}

/// Returns the first JSON text of a text, with the blanks after it, and the rest.
pub(crate) fn first_cut(text: &str) -> (&str, &str)
    ensures { CutsFirstText text.now result.0.now result.1.now }
{
    match find_end(text.as_bytes(), &mut new_cut()) {
        Some(end) => text.split_at(end),
        None => (text, ""),
    }
}
