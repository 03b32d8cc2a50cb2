//! The classes of characters that the emitter uses.
ghost use Rattle.std.specs.Prelude.{◌≡◌, ◌<◌, false};
ghost use Rattle.yaml_base.specs.Characters as class;

static HEX_DIGITS: [u8; 16] = *b"0123456789ABCDEF";

/// Returns whether a character is an ASCII letter or digit, `_` or `-`. Anchors and tag handles are made of these.
pub fn is_alpha(character: char) -> bool
    ensures { result ≡ class.is_alpha character }
{
    matches!(character, '0'..='9' | 'A'..='Z' | 'a'..='z' | '_' | '-')
}

/// Returns whether a character is from U+0000 to U+007F.
pub fn is_ascii(character: char) -> bool
    ensures { result ≡ class.is_ascii character }
{
    character <= '\u{7F}'
}

/// Returns whether a character is U+0020.
pub fn is_space(character: char) -> bool
    ensures { result ≡ class.is_space character }
{
    character == ' '
}

/// Returns whether a character is a space or a tab.
pub fn is_blank(character: char) -> bool
    ensures { result ≡ class.is_blank character }
{
    matches!(character, ' ' | '\t')
}

/// Returns whether a character is LF, CR, U+0085, U+2028 or U+2029 (YAML 1.1, section 5.4).
pub fn is_break(character: char) -> bool
    ensures { result ≡ class.is_break character }
{
    matches!(character, '\n' | '\r' | '\u{85}' | '\u{2028}' | '\u{2029}')
}

/// Returns whether a character is the byte order mark, U+FEFF.
pub fn is_bom(character: char) -> bool
    ensures { result ≡ class.is_bom character }
{
    character == '\u{FEFF}'
}

/// Returns whether a character may be itself in a text (YAML 1.1, section 5.1); a tab, CR and U+0085 may not.
pub fn is_printable(character: char) -> bool
    ensures { result ≡ class.is_printable character }
{
    match character {
        '\n' | ' '..='~' | '\u{A0}'..='\u{D7FF}' => true,
        '\u{E000}'..='\u{FFFD}' => !is_bom(character),
        '\u{10000}'..='\u{10FFFF}' => true,
        _ => false,
    }
}

/// Returns an upper-case hexadecimal digit.
pub fn hex_digit(digit: u8) -> u8
    requires { digit < 16 }
    ensures value { result ≡ class.hex_digit digit }
    ensures ascii { result < 128 }
    ensures no_break { class.is_break result ≡ false }
{
    HEX_DIGITS[digit as usize]
}
