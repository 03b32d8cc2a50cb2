//! Values written.
ghost use Rattle.std.specs.Prelude.{◌≡◌, ◌↔◌, ◌⊎◌, ◌<◌, ◌≤◌, Err, IfOk, IfErr, Some};
ghost use Rattle.yaml_base.specs.Encoding.{encode};
ghost use Rattle.yaml_base.specs.Settings.{utf8};
ghost use Rattle.yaml_base.specs.graphs.DumpedText.{document_text};
ghost use Rattle.yaml_base.specs.values.TypedValues.{WritesValue, most_nested, nesting, typed_settings};
ghost use Rattle.yaml_emitter.specs.Given.{seen_settings};
ghost use Rattle.yaml_value.specs.SeenValues.{seen_value};

use crate::size::lies_within;
use crate::texts::document_bytes;
use crate::value::Value;
use std::alloc::Allocator;
use yaml_base::{YAML_LN_BREAK, YAML_UTF8_ENCODING, yaml_error_t};
use yaml_emitter::Settings;

/// Returns the canonical YAML of a value: one document in UTF-8, each node with its tag. The canonical reader of the
/// definitions finds in these bytes this value and no other.
///
/// # Errors
/// `TooDeep` if more than 1,000 lists and maps lie within one another; nothing is allocated then. `Memory` if an
/// allocation fails.
pub fn write_canonical<A: Allocator + Copy>(
    alloc: A,
    value: &Value<A>,
) -> Result<Vec<u8, A>, yaml_error_t>
    ensures written { IfOk result (λ bytes. WritesValue (seen_value value.now) bytes.items) }
    ensures layout { IfOk result (λ bytes. bytes.items ≡ encode (Some utf8) (document_text (seen_value value.now))) }
    ensures too_deep { (result ≡ Err yaml_error_t.TooDeep) ↔ (most_nested < nesting (seen_value value.now)) }
    ensures failed { IfErr result (λ error. (error ≡ yaml_error_t.TooDeep) ⊎ (error ≡ yaml_error_t.Memory)) }
{
    if !lies_within(value) {
        return Err(yaml_error_t::TooDeep);
    }
    written(alloc, value)
}

/// Returns the bytes of a value that isn't nested too deep.
fn written<A: Allocator + Copy>(alloc: A, value: &Value<A>) -> Result<Vec<u8, A>, yaml_error_t>
    requires { nesting (seen_value value.now) ≤ most_nested }
    ensures written { IfOk result (λ bytes. WritesValue (seen_value value.now) bytes.items) }
    ensures memory { IfErr result (λ error. error ≡ yaml_error_t.Memory) }
{
    match document_bytes(alloc, value) {
        Ok(bytes) => Ok(bytes),
        Err(_) => Err(yaml_error_t::Memory),
    }
}

/// Returns the settings of canonical values: canonical form in UTF-8 and with LF, an indent of 2, no width, printable
/// characters as themselves, and no limit that a vector reaches.
pub fn canonical_settings() -> Settings
    ensures { seen_settings result ≡ typed_settings }
{
    Settings {
        encoding: YAML_UTF8_ENCODING,
        canonical: true,
        unicode: true,
        indent: Some(2),
        width: Some(-1),
        line_break: YAML_LN_BREAK,
        ..Settings::default()
    }
}
