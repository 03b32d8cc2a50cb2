//! Names of nodes.
ghost use Rattle.std.specs.Prelude.{◌≡◌};
ghost use Rattle.std.specs.List.{prefix_len};
ghost use Rattle.yaml_base.specs.Characters as class;
ghost use Rattle.yaml_base.specs.Seen.{seen_text};
ghost use Rattle.yaml_read.specs.Beginnings.{IsNameRead, NoName, ReadOr};

use crate::errors::{Stop, refused_at};
use std::alloc::Allocator;
use yaml_base::is_alpha;

/// Returns the number of bytes at the beginning that a name may have.
fn name_length(text: &str) -> usize
    ensures { result ≡ prefix_len class.is_alpha text.now }
{
    let bytes = text.as_bytes();
    let mut count = 0;
    'letters: while count < bytes.len() && is_alpha(bytes[count] as char) {
        count += 1;
    }
    count
}

/// Returns a copy of the name that a text begins with, and what follows it. It ends before the first character that no name
/// has.
pub(crate) fn read_name<A: Allocator>(alloc: A, text: &str) -> Result<(String<A>, &str), Stop>
    ensures { ReadOr (λ found. IsNameRead text.now (seen_text found.0) found.1.now) (NoName text.now) result }
{
    let (name, behind) = text.split_at(name_length(text));
    if name.is_empty() {
        return Err(refused_at(text));
    }
    match String::from_str(alloc, name) {
        Ok(name) => Ok((name, behind)),
        Err(_) => Err(Stop::Memory),
    }
}
