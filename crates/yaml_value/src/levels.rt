//! Lists and maps that are being read.
ghost use Rattle.std.specs.Prelude.{◌≡◌, IfOk};
ghost use Rattle.yaml_value.specs.OpenLevels.{items_open, seen_level, value_due, with_value};
ghost use Rattle.yaml_value.specs.SeenValues.{seen_pairs, seen_value, seen_values};

use crate::value::Value;
use std::alloc::{AllocError, Allocator};

/// A list or a map that is being read, with what it holds so far.
#[derive(Drop)]
pub enum Level<A: Allocator> {
    Items(Vec<Value<A>, A>),
    /// A key is to come.
    Pairs(Vec<(Value<A>, Value<A>), A>),
    /// The value of this key is to come.
    PairsAndKey(Vec<(Value<A>, Value<A>), A>, Value<A>),
}

impl<A: Allocator> Level<A> {
    /// Returns the list or the map with a value more: an item, a key, or the value of the key that waits.
    ///
    /// # Errors
    /// `AllocError` if an allocation fails; what it held is lost then.
    pub fn with(self, value: Value<A>) -> Result<Level<A>, AllocError>
        ensures { IfOk result (λ more. seen_level more ≡ with_value (seen_level self) (seen_value value)) }
    {
        match self {
            Level::Items(items) => with_item(items, value),
            Level::Pairs(pairs) => Ok(Level::PairsAndKey(pairs, value)),
            Level::PairsAndKey(pairs, key) => with_pair(pairs, (key, value)),
        }
    }
}

/// Returns a list with an item more.
fn with_item<A: Allocator>(items: Vec<Value<A>, A>, item: Value<A>) -> Result<Level<A>, AllocError>
    ensures { IfOk result (λ more. seen_level more ≡ with_value (items_open (seen_values items.items)) (seen_value item)) }
{
    let mut items = items;
    items.push(item)?;
    Ok(Level::Items(items))
}

/// Returns a map with a pair more.
fn with_pair<A: Allocator>(
    pairs: Vec<(Value<A>, Value<A>), A>,
    pair: (Value<A>, Value<A>),
) -> Result<Level<A>, AllocError>
    ensures { IfOk result (λ more. seen_level more
        ≡ with_value (value_due (seen_pairs pairs.items) (seen_value pair.0)) (seen_value pair.1)) }
{
    let mut pairs = pairs;
    pairs.push(pair)?;
    Ok(Level::Pairs(pairs))
}
