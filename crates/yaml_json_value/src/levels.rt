//! The lists and maps that are open.
ghost use Rattle.std.specs.Prelude.{◌∷◌, Some};
ghost use Rattle.yaml_value.specs.OpenLevels.{seen_level, seen_levels};
ghost use Rattle.yaml_value.specs.SeenValues.{seen_value};
ghost use Rattle.yaml_json_value.specs.Standing.{end_list, end_map, give, name_member, within};
ghost use Rattle.yaml_json_value.specs.Walked.{StandsAt};

use crate::error::Stop;
use std::alloc::Allocator;
use yaml_value::{Level, Value};

/// Opens a level within the others. No value is whole.
pub(crate) fn enter<A: Allocator>(
    levels: &mut Vec<Level<A>, A>,
    level: Level<A>,
) -> Result<Option<Value<A>>, Stop>
    ensures { StandsAt (Some (within (seen_level level ∷ seen_levels levels.old.items))) levels.new.items result }
{
    match levels.push(level) {
        Ok(()) => Ok(None),
        Err(_) => Err(Stop::Memory),
    }
}

/// Gives a value to the innermost level, which was taken from the others. It is misplaced if a name is due.
fn give_to<A: Allocator>(
    levels: &mut Vec<Level<A>, A>,
    level: Level<A>,
    value: Value<A>,
) -> Result<Option<Value<A>>, Stop>
    ensures { StandsAt (give (seen_level level ∷ seen_levels levels.old.items) (seen_value value)) levels.new.items result }
{
    match level {
        Level::Pairs(_) => Err(Stop::Misplaced),
        level => match level.with(value) {
            Ok(more) => enter(levels, more),
            Err(_) => Err(Stop::Memory),
        },
    }
}

/// Gives a value to the innermost level; if none is open, the value is the whole.
pub(crate) fn settle<A: Allocator>(
    levels: &mut Vec<Level<A>, A>,
    value: Value<A>,
) -> Result<Option<Value<A>>, Stop>
    ensures { StandsAt (give (seen_levels levels.old.items) (seen_value value)) levels.new.items result }
{
    match levels.pop() {
        Some(level) => give_to(levels, level, value),
        None => Ok(Some(value)),
    }
}

/// Ends the innermost list.
pub(crate) fn leave_list<A: Allocator>(
    levels: &mut Vec<Level<A>, A>,
) -> Result<Option<Value<A>>, Stop>
    ensures { StandsAt (end_list (seen_levels levels.old.items)) levels.new.items result }
{
    match levels.pop() {
        Some(level) => match level {
            Level::Items(items) => settle(levels, Value::List(items)),
            _ => Err(Stop::Misplaced),
        },
        None => Err(Stop::Misplaced),
    }
}

/// Ends the innermost map.
pub(crate) fn leave_map<A: Allocator>(
    levels: &mut Vec<Level<A>, A>,
) -> Result<Option<Value<A>>, Stop>
    ensures { StandsAt (end_map (seen_levels levels.old.items)) levels.new.items result }
{
    match levels.pop() {
        Some(level) => match level {
            Level::Pairs(members) => settle(levels, Value::Map(members)),
            _ => Err(Stop::Misplaced),
        },
        None => Err(Stop::Misplaced),
    }
}

/// Gives a name to the innermost map.
pub(crate) fn give_name<A: Allocator>(
    levels: &mut Vec<Level<A>, A>,
    name: Value<A>,
) -> Result<Option<Value<A>>, Stop>
    ensures { StandsAt (name_member (seen_levels levels.old.items) (seen_value name)) levels.new.items result }
{
    match levels.pop() {
        Some(level) => match level {
            Level::Pairs(members) => enter(levels, Level::PairsAndKey(members, name)),
            _ => Err(Stop::Misplaced),
        },
        None => Err(Stop::Misplaced),
    }
}
