//! Names as messages show them: none ends a line, reaches a terminal as a command, or fills a screen.
ghost use Rattle.std.specs.Char.{is_ascii};
ghost use Rattle.std.specs.List.{list_all};
ghost use Rattle.std.specs.Prelude.{◌≡◌, ◌≤◌, IfSome, MatchOption, length, true};
ghost use Rattle.std.specs.Str.{IsAscii};
ghost use Rattle.yaml_base.specs.Quoting.{AreEndsOf, AreHalvesOf, quoted_text};

use std::fmt;

/// The number of characters that a message shows of each end of a long name.
const HALF: usize = 40;

/// A name in a message. It is written in double quotes, as by `{:?}`: line breaks, quotes, backslashes and characters that don't print are
/// escaped. Of a name of more than 80 characters the first 40 and the last 40 are written, as `"aa".."zz"`.
#[derive(Clone, Copy, Debug)]
pub struct Quoted<'a>(pub &'a str);

/// Returns the first 40 and the last 40 characters of a name in ASCII of more than 80 characters, and `None` for a shorter one.
fn halves_of(name: &str) -> Option<(&str, &str)>
    requires { IsAscii name.now }
    ensures ends { IfSome result (λ ends. AreEndsOf name.now ends.0.now ends.1.now) }
    ensures halves { MatchOption result (length name.now ≤ 80) (λ ends. AreHalvesOf name.now ends.0.now ends.1.now) }
{
    if name.len() <= 2 * HALF {
        return None;
    }
    Some((&name[..HALF], &name[name.len() - HALF..]))
}

/// Returns the first 40 and the last 40 characters of a name of more than 80 characters, and `None` for a shorter one.
fn ends_of(name: &str) -> Option<(&str, &str)>
    ensures ends { IfSome result (λ ends. AreEndsOf name.now ends.0.now ends.1.now) }
    ensures halves { list_all is_ascii name.now ≡ true
        → MatchOption result (length name.now ≤ 80) (λ ends. AreHalvesOf name.now ends.0.now ends.1.now) }
{
    if name.is_ascii() {
        return halves_of(name);
    }
    let _past = name.char_indices().nth(2 * HALF)?;
    let (end, _) = name.char_indices().nth(HALF)?;
    let (start, _) = name.char_indices().nth_back(HALF - 1)?;
    Some((name.get(..end)?, name.get(start..)?))
}

impl fmt::Display for Quoted<'_> {
    ghost output = { λ quoted. quoted_text quoted.0.now };

    fn fmt<W: fmt::Write>(&self, f: &mut fmt::Formatter<W>) -> fmt::Result {
        let name = self.0;
        match ends_of(name) {
            Some((first, last)) => write!(f, "{first:?}..{last:?}"),
            None => write!(f, "{name:?}"),
        }
    }
}
