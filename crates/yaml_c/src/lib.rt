//! YAML for C and Rust: functions over buffers of the caller, in a static library (`include/yaml_c.h`).
#![tactic(auto)]

mod arena;
mod buffers;
mod canonical;
mod canonical_json;
mod collections;
mod documents;
mod dumps;
mod emitters;
mod events;
mod giving;
mod handle;
mod headings;
mod json_events;
mod json_texts;
mod kept;
mod nodes;
mod place;
mod raw_box;
mod records;
mod results;
mod scalars;
mod scripts;
mod settings;
mod spare;
mod statuses;
mod styles;
mod toml_texts;
mod values;
mod version;
