//! Characters as bytes (RFC 3629, RFC 2781).
ghost use Rattle.std.specs.Prelude.{◌≡◌, ◌≤◌, [], ◌∷◌, ◌++◌, length, unwrap_or, encode_utf8};
ghost use Rattle.yaml_base.specs.Settings.{Encoding, line_feed_break};
ghost use Rattle.yaml_base.specs.Seen.{seen_encoding, seen_break};
ghost use Rattle.yaml_base.specs.Encoding.{character_bytes, text_bytes, utf16_units};
ghost use Rattle.yaml_base.specs.LineBreaks.{break_text};
ghost use Rattle.yaml_pen.specs.Encoded.{ordered_bytes};

use arrayvec::ArrayVec;
use yaml_base::{yaml_break_t, yaml_encoding_t};

/// The bytes of one character, at most four.
pub(crate) type CharacterBytes = ArrayVec<u8, 4>;

/// The order of the two bytes of a code unit.
#[derive(Clone, Copy)]
pub(crate) enum ByteOrder {
    LowerFirst,
    UpperFirst,
}

/// Returns the bytes of a character; an encoding of ANY counts as UTF-8.
#[inline(always)]
pub(crate) fn encoded_character(encoding: yaml_encoding_t, character: char) -> CharacterBytes
    ensures { (e : Encoding) → seen_encoding encoding ≡ Some e → result.items ≡ character_bytes e character }
{
    match encoding {
        yaml_encoding_t::YAML_UTF16LE_ENCODING => utf16_bytes(character, ByteOrder::LowerFirst),
        yaml_encoding_t::YAML_UTF16BE_ENCODING => utf16_bytes(character, ByteOrder::UpperFirst),
        _ => utf8_bytes(character),
    }
}

/// Returns the bytes of a line break; a setting of ANY counts as LF.
pub(crate) fn encoded_break(encoding: yaml_encoding_t, line_break: yaml_break_t) -> CharacterBytes
    ensures { (e : Encoding) → seen_encoding encoding ≡ Some e → result.items ≡ text_bytes e (break_text (unwrap_or (seen_break line_break) line_feed_break)) }
{
    match line_break {
        yaml_break_t::YAML_CR_BREAK => encoded_character(encoding, '\r'),
        yaml_break_t::YAML_CRLN_BREAK => {
            let mut bytes = encoded_character(encoding, '\r');
            let _ = bytes.try_extend_from_slice(encoded_character(encoding, '\n').as_slice());
            bytes
        }
        _ => encoded_character(encoding, '\n'),
    }
}

fn utf8_bytes(character: char) -> CharacterBytes
    ensures { result.items ≡ encode_utf8 character }
{
    let mut bytes = CharacterBytes::new();
    if character <= '\u{7F}' {
        bytes.push(character as u8);
        return bytes;
    }
    let mut room = [0; 4];
    let _ = bytes.try_extend_from_slice(character.encode_utf8(&mut room).as_bytes());
    bytes
}

fn utf16_bytes(character: char, order: ByteOrder) -> CharacterBytes
    ensures { result.items ≡ ordered_bytes order (utf16_units character) }
{
    let mut bytes = CharacterBytes::new();
    let code = character as u32;
    if code < 0x1_0000 {
        push_unit(&mut bytes, code as u16, order);
    } else {
        let over = code - 0x1_0000;
        push_unit(&mut bytes, (0xD800 + over / 0x400) as u16, order);
        push_unit(&mut bytes, (0xDC00 + over % 0x400) as u16, order);
    }
    bytes
}

fn push_unit(bytes: &mut CharacterBytes, unit: u16, order: ByteOrder)
    requires { length bytes.old.items ≤ 2 }
    ensures { bytes.new.items ≡ bytes.old.items ++ ordered_bytes order (unit ∷ []) }
{
    let upper = (unit / 0x100) as u8;
    let lower = (unit % 0x100) as u8;
    match order {
        ByteOrder::LowerFirst => {
            bytes.push(lower);
            bytes.push(upper);
        }
        ByteOrder::UpperFirst => {
            bytes.push(upper);
            bytes.push(lower);
        }
    }
}
