//! TOML, written as YAML.
use crate::tests::same;
use std::alloc::Global;
use yaml_toml::{TomlError, ValueSettings, yaml_from_toml};

/// Returns the YAML of a TOML document.
fn yaml_of_toml(alloc: Global, text: &str) -> Result<Vec<u8>, TomlError> {
    yaml_from_toml(alloc, text, ValueSettings::default())
}

#[test]
fn a_document_is_written(rt: HostRuntime) {
    let text = "name = \"no\"\n[size]\nwidth = 0x10\n";
    let bytes = yaml_of_toml(rt.alloc(), text).ok().expect(&rt, "TOML");
    let expected = "---\nname: 'no'\nsize:\n  width: 16\n";
    same(&rt, bytes.as_slice(), expected);
}
