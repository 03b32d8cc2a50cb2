//! Columns as the pen keeps them: `u32::MAX` means this column or a later one.
ghost use Rattle.std.specs.Prelude.{◌≡◌, ◌≤◌, ℕ, length, min};
ghost use Rattle.std.specs.Str.{chars};
ghost use Rattle.yaml_base.specs.Cursor.{next_column};
ghost use Rattle.yaml_pen.specs.Page.{buffer_size};

use yaml_base::is_break;

/// Returns the column after a character.
pub(crate) fn next_column(character: char, column: u32) -> u32
    ensures { (unbounded : ℕ) → column ≡ min unbounded 4294967295 → result ≡ min (next_column character unbounded) 4294967295 }
{
    if is_break(character) {
        0
    } else {
        column.saturating_add(1)
    }
}

/// Returns the number of characters of a text that fits the buffer: the number of bytes that begin one.
pub(crate) fn character_count(text: &str) -> u32
    requires { length text.now ≤ buffer_size }
    ensures { result ≡ length (chars text.now) }
{
    let bytes = text.as_bytes();
    let mut count = 0;
    let mut place = 0;
    while place < bytes.len() {
        let byte = bytes[place];
        count += ((byte < 0x80) | (byte >= 0xC0)) as u32;
        place += 1;
    }
    count
}
