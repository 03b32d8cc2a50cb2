//! Callers of typed values: one compares values by their canonical bytes, as a store that hashes them does, and one reads
//! back what it wrote.
ghost use Rattle.std.specs.Prelude.{◌≡◌, ◌⊎◌, ◌<◌, Decides, Err, IfOk, IfErr};
ghost use Rattle.yaml_base.specs.values.TypedValues.{most_nested, nesting};
ghost use Rattle.yaml_value.specs.SeenValues.{seen_value};

use std::alloc::Allocator;
use yaml_base::yaml_error_t;
use yaml_read::laws::written_values_are_read;
use yaml_read::{ReadError, read_canonical};
use yaml_value::{Value, write_canonical};

/// Returns whether two values have the same canonical bytes. They have exactly if they are the same value.
///
/// # Errors
/// `TooDeep` if more than 1,000 lists and maps of one of them lie within one another. `Memory` if an allocation
/// fails.
pub fn same_bytes<A: Allocator + Copy>(
    alloc: A,
    first: &Value<A>,
    second: &Value<A>,
) -> Result<bool, yaml_error_t>
    ensures same { IfOk result (λ same. Decides same (seen_value first.now ≡ seen_value second.now)) }
    ensures too_deep { result ≡ Err yaml_error_t.TooDeep → (most_nested < nesting (seen_value first.now)) ⊎ (most_nested < nesting (seen_value second.now)) }
    ensures failed { IfErr result (λ error. (error ≡ yaml_error_t.TooDeep) ⊎ (error ≡ yaml_error_t.Memory)) }
{
    let first = write_canonical(alloc, first)?;
    let second = write_canonical(alloc, second)?;
    Ok(first.as_slice() == second.as_slice())
}

/// Writes a value and reads its bytes. The value that is read is the same; only want of memory keeps it from being read.
///
/// # Errors
/// `TooDeep` if more than 1,000 lists and maps of the value lie within one another, and `Memory` if an allocation
/// fails while it is written. The inner error is that of reading: `ReadError::Memory`, if an allocation fails.
pub fn written_and_read<A: Allocator + Copy>(
    alloc: A,
    value: &Value<A>,
) -> Result<Result<Value<A>, ReadError>, yaml_error_t>
    ensures same { IfOk result (λ read. IfOk read (λ found. seen_value found ≡ seen_value value.now)) }
    ensures read { IfOk result (λ read. IfErr read (λ error. error ≡ ReadError.Memory)) }
    ensures failed { IfErr result (λ error. (error ≡ yaml_error_t.TooDeep) ⊎ (error ≡ yaml_error_t.Memory)) }
{
    let bytes = write_canonical(alloc, value)?;
    // A law: a value that was written is read back.
    written_values_are_read::<A>();
    Ok(read_canonical(alloc, bytes.as_slice()))
}
