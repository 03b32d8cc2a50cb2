//! The tags of scalars, as libyaml names them.

pub(crate) const YAML_STR_TAG: &str = "tag:yaml.org,2002:str";

pub(crate) const YAML_NULL_TAG: &str = "tag:yaml.org,2002:null";

pub(crate) const YAML_BOOL_TAG: &str = "tag:yaml.org,2002:bool";

pub(crate) const YAML_INT_TAG: &str = "tag:yaml.org,2002:int";

pub(crate) const YAML_FLOAT_TAG: &str = "tag:yaml.org,2002:float";

pub(crate) const YAML_TIMESTAMP_TAG: &str = "tag:yaml.org,2002:timestamp";

pub(crate) const YAML_BINARY_TAG: &str = "tag:yaml.org,2002:binary";
