//! The whole names of keys, for errors.
ghost use Rattle.std.specs.Prelude.{◌≡◌};
ghost use Rattle.toml_ordered.specs.Places.{IsReworded};

use crate::fault::Fault;
use crate::route::Route;
use std::alloc::{AllocError, Global};
use toml_parser::bytes::is_bare;

impl Fault {
    /// Returns the fault with the whole name of its key, which comes after so many keys of the route.
    #[cold]
    pub(crate) fn named(self, alloc: Global, route: Route<'_>, count: usize) -> Fault
        ensures { IsReworded self result }
    {
        match self {
            Fault::Memory => Fault::Memory,
            Fault::NotToml { left, why } => Fault::NotToml { left, why },
            Fault::TooDeep { left } => Fault::TooDeep { left },
            Fault::DefinedAgain {
                key,
                first,
                second,
                ..
            } => match whole_name(alloc, &key, route, count) {
                Ok(name) => Fault::DefinedAgain {
                    key,
                    name,
                    first,
                    second,
                },
                Err(_) => Fault::Memory,
            },
        }
    }
}

/// Returns the name of a key after so many keys of a route.
fn whole_name(
    alloc: Global,
    key: &String,
    route: Route<'_>,
    count: usize,
) -> Result<String, AllocError> {
    if count == 0 {
        return key.clone();
    }
    let mut name = String::new(alloc);
    let mut way = route;
    'keys: for _passed in 0..count {
        let Some((_, passed, rest)) = way.split() else {
            break 'keys;
        };
        push_part(&mut name, passed.as_str())?;
        name.push('.')?;
        way = rest;
    }
    push_part(&mut name, key.as_str())?;
    Ok(name)
}

/// Appends a part of a name, in quotes if it isn't bare.
fn push_part(name: &mut String, part: &str) -> Result<(), AllocError> {
    if !part.is_empty() && part.as_bytes().iter().all(|byte| is_bare(*byte)) {
        name.push_str(part)?;
        return Ok(());
    }
    name.push('"')?;
    name.push_str(part)?;
    name.push('"')?;
    Ok(())
}
