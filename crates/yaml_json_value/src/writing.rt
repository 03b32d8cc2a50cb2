//! Typed values as JSON texts.
ghost use Rattle.std.specs.Prelude.{IfErr, IfOk};
ghost use Rattle.std.specs.Str.{IsUtf8};
ghost use Rattle.yaml_value.specs.SeenValues.{seen_value};
ghost use Rattle.yaml_json_value.specs.TextNames.{ExplainsWriteError};
ghost use Rattle.yaml_json_value.specs.Typed.{IsValueOf};
ghost use Rattle.yaml_json_value.specs.Written.{ExplainsCanonicalError, IsJsonOf};

use crate::back::write_tokens;
use crate::error::{CanonicalError, WriteError};
use json::Writer;
use std::alloc::Allocator;
use yaml_read::read_canonical_with;
use yaml_value::{Keys, Value};

/// Returns the JSON text of a value, without spaces, in UTF-8. A key of a map is a name. All keeps its order, and a name that comes
/// twice stays.
///
/// `value_from_json` of the text gives the value back, if keys may repeat.
///
/// # Errors
///
/// `NameNotText` if a key of a map isn't a text. `TooDeep` if lists and maps nest more than 1,000 deep. `Memory` if an allocation fails.
pub fn json_from_value<A: Allocator + Copy>(
    alloc: A,
    value: &Value<A>,
) -> Result<Vec<u8, A>, WriteError>
    ensures written { IfOk result (λ text. IsValueOf Keys.MayRepeat text.items (seen_value value.now)) }
    ensures utf8 { IfOk result (λ text. IsUtf8 text.items) }
    ensures why { IfErr result (ExplainsWriteError (seen_value value.now)) }
{
    let mut writer = Writer::new(Vec::new(alloc));
    match write_tokens(&mut writer, value) {
        Ok(()) => Ok(writer.into_inner()),
        Err(error) => Err(error),
    }
}

/// Returns the JSON text of the value of these canonical bytes, as `json_from_value` gives it.
///
/// # Errors
///
/// `Read` if `read_canonical_with` refuses the bytes, or `Write` if `json_from_value` refuses their value.
pub fn json_from_canonical<A: Allocator + Copy>(
    alloc: A,
    bytes: &[u8],
    keys: Keys,
) -> Result<Vec<u8, A>, CanonicalError>
    ensures written { IfOk result (λ text. IsJsonOf keys bytes.now text.items) }
    ensures utf8 { IfOk result (λ text. IsUtf8 text.items) }
    ensures why { IfErr result (ExplainsCanonicalError keys bytes.now) }
{
    match read_canonical_with(alloc, bytes, keys) {
        Ok(value) => match json_from_value(alloc, &value) {
            Ok(text) => Ok(text),
            Err(error) => Err(CanonicalError::Write(error)),
        },
        Err(error) => Err(CanonicalError::Read(error)),
    }
}
