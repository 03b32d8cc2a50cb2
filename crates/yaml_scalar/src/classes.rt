//! Classes of bytes, by which runs of characters are found without decoding them.
ghost use Rattle.std.specs.List.{list_all};
ghost use Rattle.std.specs.Prelude.{◌≡◌, ◌≤◌, true, length, take};
ghost use Rattle.std.specs.Str.{chars};
ghost use Rattle.yaml_scalar.specs.ByteClasses.{IsFreeRun, is_free};
ghost use Rattle.yaml_base.specs.Tags.{last_from};

/// LF, CR, and the first bytes of U+0085, U+2028 and U+2029.
pub(crate) const BREAK: u8 = 1;
/// The space.
pub(crate) const SPACE: u8 = 2;
/// The indicator `'`.
pub(crate) const APOSTROPHE: u8 = 4;
/// The control characters but LF, and the first bytes of other unprintable characters.
pub(crate) const UNPRINTABLE: u8 = 8;
/// The first bytes of characters beyond ASCII.
pub(crate) const WIDE: u8 = 16;
/// The indicators that may end a plain scalar: `#`, `:` and those of flow collections.
pub(crate) const INDICATOR: u8 = 32;
/// The quote and the backslash.
pub(crate) const ESCAPED: u8 = 64;

// The classes of each byte, as a sum of the numbers above. A byte that continues a character is of none.
#[rattlefmt::skip]
static CLASSES: [u8; 256] = [
     8,  8,  8,  8,  8,  8,  8,  8,  8,  8,  1,  8,  8,  9,  8,  8,
     8,  8,  8,  8,  8,  8,  8,  8,  8,  8,  8,  8,  8,  8,  8,  8,
     2,  0, 64, 32,  0,  0,  0,  4,  0,  0,  0,  0, 32,  0,  0,  0,
     0,  0,  0,  0,  0,  0,  0,  0,  0,  0, 32,  0,  0,  0,  0, 32,
     0,  0,  0,  0,  0,  0,  0,  0,  0,  0,  0,  0,  0,  0,  0,  0,
     0,  0,  0,  0,  0,  0,  0,  0,  0,  0,  0, 32, 64, 32,  0,  0,
     0,  0,  0,  0,  0,  0,  0,  0,  0,  0,  0,  0,  0,  0,  0,  0,
     0,  0,  0,  0,  0,  0,  0,  0,  0,  0,  0, 32,  0, 32,  0,  8,
     0,  0,  0,  0,  0,  0,  0,  0,  0,  0,  0,  0,  0,  0,  0,  0,
     0,  0,  0,  0,  0,  0,  0,  0,  0,  0,  0,  0,  0,  0,  0,  0,
     0,  0,  0,  0,  0,  0,  0,  0,  0,  0,  0,  0,  0,  0,  0,  0,
     0,  0,  0,  0,  0,  0,  0,  0,  0,  0,  0,  0,  0,  0,  0,  0,
    16, 16, 25, 16, 16, 16, 16, 16, 16, 16, 16, 16, 16, 16, 16, 16,
    16, 16, 16, 16, 16, 16, 16, 16, 16, 16, 16, 16, 16, 16, 16, 16,
    16, 16, 17, 16, 16, 16, 16, 16, 16, 16, 16, 16, 16, 16, 16, 24,
    16, 16, 16, 16, 16, 16, 16, 16, 16, 16, 16, 16, 16, 16, 16, 16,
];

/// Returns whether a byte is of none of these classes.
pub(crate) fn is_free(byte: u8, classes: u8) -> bool
    ensures { result ≡ is_free classes byte }
{
    CLASSES[byte as usize] & classes == 0
}

/// Returns the length of a prefix whose bytes, taken four at a time, are of none of these classes.
#[inline(always)]
fn free_length_by_fours(bytes: &[u8], classes: u8) -> usize
    ensures within { result ≤ length bytes.now }
    ensures all { list_all (is_free classes) (take result bytes.now) ≡ true }
{
    let mut size = 0;
    while bytes.len() - size >= 4 {
        // One branch tests all four.
        let free = is_free(bytes[size], classes)
            & is_free(bytes[size + 1], classes)
            & is_free(bytes[size + 2], classes)
            & is_free(bytes[size + 3], classes);
        if !free {
            return size;
        }
        size += 4;
    }
    size
}

/// Returns the length of the longest prefix of a text none of whose bytes is of these classes.
#[inline(always)]
pub(crate) fn free_length(text: &str, classes: u8) -> usize
    ensures { IsFreeRun classes text.now result }
{
    let bytes = text.as_bytes();
    let mut length = free_length_by_fours(bytes, classes);
    while length < bytes.len() && is_free(bytes[length], classes) {
        length += 1;
    }
    length
}

/// Returns the last character of a text, or the one before the text if it is empty.
pub(crate) fn last_of(before: char, text: &str) -> char
    ensures { result ≡ last_from before (chars text.now) }
{
    let mut characters = text.chars();
    match characters.next_back() {
        Some(last) => last,
        None => before,
    }
}
