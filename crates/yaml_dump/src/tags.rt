//! The tags of strings and of collections, as libyaml names them.

/// The tag of strings.
pub const YAML_STR_TAG: &str = "tag:yaml.org,2002:str";

/// The tag of sequences.
pub const YAML_SEQ_TAG: &str = "tag:yaml.org,2002:seq";

/// The tag of mappings.
pub const YAML_MAP_TAG: &str = "tag:yaml.org,2002:map";
