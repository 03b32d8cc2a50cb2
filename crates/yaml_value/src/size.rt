//! The number of values that a value holds, and their depth.
ghost use Rattle.std.specs.Prelude.{◌≡◌, ◌++◌, ◌<◌, ◌≤◌, IfOk, MatchOption, min, nat_le, map, true, false, length};
ghost use Rattle.std.specs.Result.{IsOk};
ghost use Rattle.yaml_base.specs.values.TypedValues.{most_nested, nesting, value_count};
ghost use Rattle.yaml_value.specs.SeenValues.{seen_value};
ghost use Rattle.yaml_value.specs.Walk.{entered, seen_rest};
ghost use Rattle.yaml_base.specs.Settings.{largest_usize};

use crate::value::Value;
use crate::walk::{Rest, enter, step};
use arrayvec::ArrayVec;
use std::alloc::{AllocError, Allocator};

/// The maximum nesting depth of lists and maps.
const MOST_NESTED: usize = 1_000;

/// Enters a value, unless it lies too deep.
fn enter_within<'a, A: Allocator>(
    levels: &mut ArrayVec<Rest<'a, A>, MOST_NESTED>,
    value: &'a Value<A>,
) -> bool
    requires { length levels.old.items ≤ most_nested }
    ensures fits { length levels.new.items ≤ most_nested }
    ensures entered { result ≡ true → map seen_rest levels.new.items ≡ map seen_rest levels.old.items ++ entered (seen_value value.now) }
    ensures refused { result ≡ false → most_nested < length (map seen_rest levels.old.items ++ entered (seen_value value.now)) }
{
    match Rest::of(value) {
        Some(rest) => levels.try_push(rest).is_ok(),
        None => true,
    }
}

/// Returns the number of values in a value, itself included, `u64::MAX` if there are more; `None` if its lists and maps nest more
/// than `MOST_NESTED` deep. It takes no memory: so many levels have room on the stack.
fn count_within<A: Allocator>(value: &Value<A>) -> Option<u64>
    ensures { MatchOption result (nat_le (nesting (seen_value value.now)) most_nested ≡ false)
        (λ count. (nat_le (nesting (seen_value value.now)) most_nested ≡ true) × (count ≡ min (value_count (seen_value value.now)) largest_usize)) }
{
    let mut levels = ArrayVec::new();
    if !enter_within(&mut levels, value) {
        return None;
    }
    let mut count = 1u64;
    while let Some(rest) = levels.pop() {
        if let Some((value, others)) = rest.split_first() {
            levels.push(others);
            if !enter_within(&mut levels, value) {
                return None;
            }
            count = count.saturating_add(1);
        }
    }
    Some(count)
}

/// Returns whether the lists and maps of a value nest at most `MOST_NESTED` deep. It takes no memory.
pub(crate) fn lies_within<A: Allocator>(value: &Value<A>) -> bool
    ensures { result ≡ nat_le (nesting (seen_value value.now)) most_nested }
{
    count_within(value).is_some()
}

/// Returns the number of values in a value, itself included, by a list of what is left to count.
fn count_by_list<A: Allocator, B: Allocator>(alloc: B, value: &Value<A>) -> Result<u64, AllocError>
    ensures { IfOk result (λ count. count ≡ min (value_count (seen_value value.now)) largest_usize) }
{
    let mut levels = Vec::new(alloc);
    enter(&mut levels, value)?;
    let mut count = 1u64;
    while let Some(rest) = levels.pop() {
        let entered = step(&mut levels, rest)?;
        if entered.is_some() {
            count = count.saturating_add(1);
        }
    }
    Ok(count)
}

/// Returns the number of values in a value, itself included; `u64::MAX` if there are more.
pub(crate) fn count_values<A: Allocator>(value: &Value<A>) -> Result<u64, AllocError>
    ensures value { IfOk result (λ count. count ≡ min (value_count (seen_value value.now)) largest_usize) }
    ensures shallow { nat_le (nesting (seen_value value.now)) most_nested ≡ true → IsOk result }
{
    match count_within(value) {
        Some(count) => return Ok(count),
        None => {}
    }
    match value {
        Value::List(items) => count_by_list(items.allocator(), value),
        Value::Map(pairs) => count_by_list(pairs.allocator(), value),
        _ => Ok(1),
    }
}
