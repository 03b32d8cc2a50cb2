//! Runs of characters that are handed to the pen at once.
ghost use Rattle.std.specs.Prelude.{ℕ, Bool, false};
ghost use Rattle.yaml_scalar.specs.ByteClasses.{ImpliesTest};
ghost use Rattle.yaml_scalar.specs.EscapeBytes.{is_unbroken_ascii};
ghost use Rattle.yaml_scalar.specs.WholeRuns.{IsRun, stays_in_line};

use crate::classes::{APOSTROPHE, BREAK, SPACE, WIDE, free_length, last_of};

/// The run after a character: its bytes, and the last character up to its end.
#[derive(Clone, Copy)]
pub(crate) struct Run {
    pub(crate) length: usize,
    pub(crate) last: char,
}

/// The characters that end a run of a line, besides a break: a space, a `'`.
#[derive(Clone, Copy)]
pub(crate) struct RunEnds {
    pub(crate) space: bool,
    pub(crate) quote: bool,
}

/// Returns the classes of bytes that end a run.
pub(crate) fn ending_classes(ends: RunEnds) -> u8
    ensures { ImpliesTest result (stays_in_line ends.space ends.quote) }
{
    match (ends.space, ends.quote) {
        (false, false) => BREAK,
        (false, true) => BREAK | APOSTROPHE,
        (true, false) => BREAK | SPACE,
        (true, true) => BREAK | SPACE | APOSTROPHE,
    }
}

/// Returns the classes of bytes that a short line doesn't hold: those of breaks, of characters beyond ASCII, and of `'` if it
/// is doubled.
pub(crate) fn short_classes(quote: bool) -> u8
    ensures plain { ImpliesTest result is_unbroken_ascii }
    ensures line { ImpliesTest result (stays_in_line false quote) }
{
    if quote {
        BREAK | WIDE | APOSTROPHE
    } else {
        BREAK | WIDE
    }
}

/// Returns the run up to the first byte of some classes; it may end earlier.
pub(crate) fn run_up_to(before: char, text: &str, classes: u8) -> Run
    ensures { (test : ℕ → Bool) → ImpliesTest classes test → IsRun test before text.now result.length result.last }
{
    let length = free_length(text, classes);
    let (run, _) = text.split_at(length);
    Run {
        length,
        last: last_of(before, run),
    }
}

/// Returns the run of a text up to the first character that ends it.
pub(crate) fn line_run_after(before: char, text: &str, ends: RunEnds) -> Run
    ensures { IsRun (stays_in_line ends.space ends.quote) before text.now result.length result.last }
{
    run_up_to(before, text, ending_classes(ends))
}
