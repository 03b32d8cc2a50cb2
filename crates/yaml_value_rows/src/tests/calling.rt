//! The examples of `docs/GUIDE.md`, with their results, and others. They use no crate but those that a caller
//! lists: `yaml_dump`, `yaml_value`, `yaml_read`, `yaml_caller`, `yaml_writer`, `yaml_serde`, `yaml_json`, `yaml_toml`, `toml_ordered`
//! and `yaml_tool`.
mod documents;
mod events;
mod json;
mod ordered;
mod parts;
mod scripts;
mod serialized;
mod settings;
mod store;
mod stored_documents;
mod stored_values;
mod toml;
mod typed;
mod values;
