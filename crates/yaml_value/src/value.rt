//! Values of YAML's common types.

ghost use Rattle.std.specs.Prelude.{◌≡◌, ◌+◌, ◌<◌, ◌≤◌, IfOk, MatchResult, false, min, nat_le, true};
ghost use Rattle.std.specs.Result.{IsOk};
ghost use Rattle.yaml_base.specs.values.TypedValues.{most_nested, nesting, value_count};
ghost use Rattle.yaml_value.specs.SeenValues.{seen_value};
ghost use Rattle.yaml_value.specs.Weights.{IsExchanged, items_weight, pairs_weight, value_weight};
ghost use Rattle.yaml_base.specs.Settings.{largest_usize};

use crate::size::count_values;
use std::alloc::{AllocError, Allocator};

/// A value of one of YAML's common types.
pub enum Value<A: Allocator> {
    /// Nothing.
    Null,
    /// A truth value.
    Bool(bool),
    /// An integer of 64 bits.
    Int(i64),
    /// Characters.
    Text(String<A>),
    /// Values in order.
    List(Vec<Value<A>, A>),
    /// Pairs of a key and its value in order. Equal keys may occur more than once, which not all readers of YAML accept, unless the
    /// value was read with `Keys::Unique`. The order counts: the same pairs in another are another value, with other canonical bytes
    /// and another digest.
    Map(Vec<(Value<A>, Value<A>), A>),
}

/// Drops the value by a loop, so that no depth takes stack. It needs no memory: the value that holds the one in hand lies in the
/// place from which that was taken.
impl<A: Allocator> Drop for Value<A> {
    fn drop(self) {
        let mut around = Value::Null;
        let mut hand = self;
        'values: loop {
            match hand.exchange(around) {
                Ok(inner) => {
                    around = hand;
                    hand = inner;
                }
                Err(outer) => {
                    hand.end();
                    match outer.leave() {
                        Ok((next, waiting)) => {
                            hand = next;
                            around = waiting;
                        }
                        Err(last) => return last.end(),
                    }
                }
            }
        }
    }
}

impl<A: Allocator> Value<A> {
    /// Returns the number of values in this one, itself included; `u64::MAX` if there are more.
    ///
    /// # Errors
    /// `AllocError` if more than 1,000 lists and maps lie within one another, and the memory of the value's own allocator isn't
    /// enough for a list of them.
    pub fn count(&self) -> Result<u64, AllocError>
        ensures value { IfOk result (λ count. count ≡ min (value_count (seen_value self.now)) largest_usize) }
        ensures shallow { nat_le (nesting (seen_value self.now)) most_nested ≡ true → IsOk result }
    {
        count_values(self)
    }

    /// Takes out the last item, or the value of the last pair, and puts another value into its place. Returns the other if there is
    /// none.
    fn exchange(&mut self, other: Value<A>) -> Result<Value<A>, Value<A>>
        ensures { IsExchanged (value_weight self.old) (value_weight self.new) value_weight other result }
    {
        match self {
            Value::List(items) => exchange_item(items, other),
            Value::Map(pairs) => exchange_value(pairs, other),
            _ => Err(other),
        }
    }

    /// Takes out the value that lies in the place of one that was dropped. Returns the value to drop next, and the one that holds
    /// it or waits for it: a key of the last pair precedes the value that waits. Returns this value if it holds none.
    fn leave(self) -> Result<(Value<A>, Value<A>), Value<A>>
        ensures { MatchResult result (λ next. value_weight next.0 + value_weight next.1 < value_weight self) (λ last. value_weight last ≤ 1) }
    {
        match self {
            Value::List(items) => leave_list(items),
            Value::Map(pairs) => leave_map(pairs),
            scalar => Err(scalar),
        }
    }

    /// Returns whether it is neither a list nor a map.
    fn is_scalar(&self) -> bool
        ensures scalar { result ≡ true → value_weight self.now ≡ 0 }
        ensures collection { result ≡ false → 0 < value_weight self.now }
    {
        !matches!(self, Value::List(_) | Value::Map(_))
    }

    /// Ends a value that holds no other.
    fn end(self)
        requires { value_weight self ≤ 1 }
    {
        match self {
            Value::List(items) => items.destroy_empty(),
            Value::Map(pairs) => pairs.destroy_empty(),
            Value::Null | Value::Bool(_) | Value::Int(_) | Value::Text(_) => {}
        }
    }
}

/// Takes out the last of some values, and puts another into its place.
fn exchange_item<A: Allocator>(
    items: &mut Vec<Value<A>, A>,
    other: Value<A>,
) -> Result<Value<A>, Value<A>>
    ensures { IsExchanged (items_weight items.old.items) (items_weight items.new.items) value_weight other result }
{
    match items.pop() {
        Some(last) => {
            items.push_reserved(other);
            Ok(last)
        }
        None => Err(other),
    }
}

/// Takes out the value of the last of some pairs, and puts another into its place.
fn exchange_value<A: Allocator>(
    pairs: &mut Vec<(Value<A>, Value<A>), A>,
    other: Value<A>,
) -> Result<Value<A>, Value<A>>
    ensures { IsExchanged (pairs_weight pairs.old.items) (pairs_weight pairs.new.items) value_weight other result }
{
    match pairs.pop() {
        Some((key, value)) => {
            pairs.push_reserved((key, other));
            Ok(value)
        }
        None => Err(other),
    }
}

/// Takes out the last of some values: the list, and that one.
fn leave_list<A: Allocator>(items: Vec<Value<A>, A>) -> Result<(Value<A>, Value<A>), Value<A>>
    ensures { MatchResult result (λ next. value_weight next.0 + value_weight next.1 < items_weight items.items) (λ last. value_weight last ≤ 1) }
{
    let mut items = items;
    match items.pop() {
        Some(waiting) => Ok((Value::List(items), waiting)),
        None => Err(Value::List(items)),
    }
}

/// Takes out the key of the last of some pairs: that, and the map; or, if the key is a scalar, takes out the pair: the map, and the
/// value.
fn leave_map<A: Allocator>(
    pairs: Vec<(Value<A>, Value<A>), A>,
) -> Result<(Value<A>, Value<A>), Value<A>>
    ensures { MatchResult result (λ next. value_weight next.0 + value_weight next.1 < pairs_weight pairs.items) (λ last. value_weight last ≤ 1) }
{
    let mut pairs = pairs;
    match pairs.pop() {
        None => Err(Value::Map(pairs)),
        Some((key, waiting)) => {
            if key.is_scalar() {
                key.end();
                return Ok((Value::Map(pairs), waiting));
            }
            pairs.push_reserved((Value::Null, waiting));
            Ok((key, Value::Map(pairs)))
        }
    }
}
