//! The first line in which two texts differ.
ghost use Rattle.std.specs.Prelude.{◌≡◌, ◌≢◌, ◌++◌, false, true};
ghost use Rattle.yaml_program.specs.Differences.{IsFirstDifference, first_line};

use memchr::memchr;

/// The first line in which two texts differ: its number, counted from 1, and the line in each text with the line feed that ends it. Past
/// the end of a text the line is empty.
#[derive(Clone, Copy)]
pub(crate) struct Difference<'a> {
    pub number: usize,
    pub old: &'a [u8],
    pub new: &'a [u8],
}

/// Returns whether two texts have the same bytes.
pub(crate) fn are_same(first: &[u8], second: &[u8]) -> bool
    ensures same { result ≡ true → first.now ≡ second.now }
    ensures other { result ≡ false → first.now ≢ second.now }
{
    first == second
}

/// Returns the first line of a text, with the line feed that ends it, and the rest.
fn split_line(text: &[u8]) -> (&[u8], &[u8])
    ensures line { result.0.now ≡ first_line text.now }
    ensures whole { text.now ≡ result.0.now ++ result.1.now }
{
    match memchr(b'\n', text) {
        Some(end) => (&text[..end + 1], &text[end + 1..]),
        None => (text, &[]),
    }
}

/// Returns the first line in which two texts differ.
pub(crate) fn first_difference<'a>(old: &'a [u8], new: &'a [u8]) -> Difference<'a>
    requires { old.now ≢ new.now }
    ensures { IsFirstDifference old.now new.now result.number result.old.now result.new.now }
{
    let mut number = 1;
    let mut old_rest = old;
    let mut new_rest = new;
    loop {
        let (old, old_later) = split_line(old_rest);
        let (new, new_later) = split_line(new_rest);
        if !are_same(old, new) {
            return Difference { number, old, new };
        }
        number += 1;
        old_rest = old_later;
        new_rest = new_later;
    }
}
