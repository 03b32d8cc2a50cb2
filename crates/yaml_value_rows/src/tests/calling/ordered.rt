//! TOML, read in order.
use crate::tests::equal;
use std::alloc::Global;
use toml_ordered::{Fault, read_document};

/// Returns whether the first key that a document defines is this one.
fn begins_with(alloc: Global, text: &str, key: &str) -> Result<bool, Fault> {
    let root = read_document(alloc, text)?;
    match root.live_keys().split_first() {
        Some((name, _, _)) => Ok(name.as_str() == key),
        None => Ok(false),
    }
}

#[test]
fn the_first_key(rt: HostRuntime) {
    let text = "name = \"x\"\n[a]\nb = 1\n";
    equal(
        &rt,
        &begins_with(rt.alloc(), text, "name").ok(),
        &Some(true),
    );
    equal(&rt, &begins_with(rt.alloc(), text, "a").ok(), &Some(false));
}
