//! The names of files that are written beside others.
ghost use Rattle.std.specs.Prelude.{◌≡◌, ◌≢◌, ◌++◌, ℕ, List, IfOk, MatchOption, string_bytes};
ghost use Rattle.yaml_program.specs.Conversions.{IsBeside};

use std::alloc::{AllocError, Global};

/// Returns a name without this ending, or `None` if it ends otherwise.
pub fn stem_of<'a>(name: &'a str, ending: &str) -> Option<&'a str>
    ensures { MatchOption result ((stem : List ℕ) → name.now ≢ stem ++ ending.now) (λ stem. name.now ≡ stem.now ++ ending.now) }
{
    name.strip_suffix(ending)
}

/// Returns the name of the YAML file beside a file whose name is this stem and an ending.
pub fn yaml_name(alloc: Global, stem: &str) -> Result<String, AllocError>
    ensures { (ending : List ℕ) → IfOk result (λ target. IsBeside ending (stem.now ++ ending) (string_bytes target)) }
{
    let mut target = String::from_str(alloc, stem)?;
    target.push_str(".yaml")?;
    Ok(target)
}
