//! A law of written values, the contract of a function that does nothing.
ghost use Rattle.std.specs.Prelude.{◌≡◌, List, ℕ};
ghost use Rattle.yaml_base.specs.values.TypedValues.{Has64Bits, TypedValue, WritesValue, typed_content};

/// States that equal bytes were written of equal values alone: kinds and contents are equal, maps as lists of pairs.
/// Nor have two values the same content.
pub fn equal_bytes_equal_values()
    ensures bytes { (first second : TypedValue) (bytes : List ℕ) → WritesValue first bytes → WritesValue second bytes → first ≡ second }
    ensures contents { (first second : TypedValue) → Has64Bits first → Has64Bits second → typed_content first ≡ typed_content second → first ≡ second }
{}
