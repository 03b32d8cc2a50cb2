//! Whether a value has no map with a key twice.
ghost use Rattle.std.specs.Bool.{Decides};
ghost use Rattle.std.specs.Prelude.{◌<◌, ◌↔◌, ◌≡◌, ◌⊎◌, Err, IfErr, IfOk};
ghost use Rattle.yaml_base.specs.values.TypedValues.{most_nested, nesting};
ghost use Rattle.yaml_base.specs.values.UniqueKeys.{HasUniqueKeys};
ghost use Rattle.yaml_value.specs.SeenValues.{seen_value};

use crate::errors::ReadError;
use crate::reading::read_canonical_with;
use std::alloc::Allocator;
use yaml_value::{Keys, Value, write_canonical, yaml_error_t};

/// Returns whether no map has a key twice, in the value and in all that it holds, keys included.
///
/// # Errors
/// `TooDeep` if more than 1,000 lists and maps lie within one another. `Memory` if an allocation fails.
pub fn has_unique_keys<A: Allocator + Copy>(
    alloc: A,
    value: &Value<A>,
) -> Result<bool, yaml_error_t>
    ensures unique { IfOk result (λ unique. Decides unique (HasUniqueKeys (seen_value value.now))) }
    ensures too_deep { (result ≡ Err yaml_error_t.TooDeep) ↔ (most_nested < nesting (seen_value value.now)) }
    ensures failed { IfErr result (λ error. (error ≡ yaml_error_t.TooDeep) ⊎ (error ≡ yaml_error_t.Memory)) }
{
    let bytes = match write_canonical(alloc, value) {
        Ok(bytes) => bytes,
        Err(error) => return Err(error),
    };
    match read_canonical_with(alloc, bytes.as_slice(), Keys::Unique) {
        Ok(_) => Ok(true),
        Err(error) => match error {
            ReadError::Memory => Err(yaml_error_t::Memory),
            _ => Ok(false),
        },
    }
}
