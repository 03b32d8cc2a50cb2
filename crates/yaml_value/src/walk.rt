//! A walk over a value, depth first, by a list of the rests of what was entered.
ghost use Rattle.std.specs.Prelude.{◌≡◌, ◌++◌, IfOk, OnOk, map, option_map, option_to_list};
ghost use Rattle.yaml_value.specs.SeenValues.{seen_value};
ghost use Rattle.yaml_value.specs.Walk.{entered, seen_rest, split, stepped};

use crate::value::Value;
use std::alloc::{AllocError, Allocator};

/// The rest of a list or a map that was entered.
#[derive(Clone, Copy)]
pub(crate) enum Rest<'a, A: Allocator> {
    Items(&'a [Value<A>]),
    Pairs(&'a [(Value<A>, Value<A>)]),
    /// Pairs of which the first has lost its key.
    PairsFromValue(&'a [(Value<A>, Value<A>)]),
}

impl<'a, A: Allocator> Default for Rest<'a, A> {
    fn default() -> Self {
        Rest::Items(&[])
    }
}

impl<'a, A: Allocator> Rest<'a, A> {
    /// Returns what lies in a list or a map; `None` for a scalar.
    pub(crate) fn of(value: &'a Value<A>) -> Option<Self>
        ensures { map seen_rest (option_to_list result) ≡ entered (seen_value value.now) }
    {
        match value {
            Value::List(items) => Some(Rest::Items(items.as_slice())),
            Value::Map(pairs) => Some(Rest::Pairs(pairs.as_slice())),
            _ => None,
        }
    }

    /// Returns the first value, and the rest after it.
    pub(crate) fn split_first(self) -> Option<(&'a Value<A>, Self)>
        ensures { option_map (λ parts. (seen_value parts.0.now, seen_rest parts.1)) result ≡ split (seen_rest self.entry) }
    {
        match self {
            Rest::Items(items) => {
                let (item, others) = items.split_first()?;
                Some((item, Rest::Items(others)))
            }
            Rest::Pairs(pairs) => {
                let ((key, _), _) = pairs.split_first()?;
                Some((key, Rest::PairsFromValue(pairs)))
            }
            Rest::PairsFromValue(pairs) => {
                let ((_, value), others) = pairs.split_first()?;
                Some((value, Rest::Pairs(others)))
            }
        }
    }
}

/// Enters a value: the values in it are visited next.
pub(crate) fn enter<'a, A: Allocator, B: Allocator>(
    levels: &mut Vec<Rest<'a, A>, B>,
    value: &'a Value<A>,
) -> Result<(), AllocError>
    ensures { OnOk result (map seen_rest levels.new.items ≡ map seen_rest levels.old.items ++ entered (seen_value value.now)) }
{
    if let Some(rest) = Rest::of(value) {
        levels.push(rest)?;
    }
    Ok(())
}

/// Enters the next value of what was taken off the list, and returns it; `None` if nothing is left.
pub(crate) fn step<'a, A: Allocator, B: Allocator>(
    levels: &mut Vec<Rest<'a, A>, B>,
    rest: Rest<'a, A>,
) -> Result<Option<&'a Value<A>>, AllocError>
    ensures { IfOk result (λ next. (option_map (λ value. seen_value value.now) next, map seen_rest levels.new.items)
        ≡ stepped (map seen_rest levels.old.items) (seen_rest rest.entry)) }
{
    let Some((value, others)) = rest.split_first() else {
        return Ok(None);
    };
    levels.push(others)?;
    enter(levels, value)?;
    Ok(Some(value))
}
