//! The statuses of `enum yaml_c_status` in the header.

pub(crate) const DONE: i32 = 0;

pub(crate) const REFUSED: i32 = 1;

pub(crate) const BAD_LINE: i32 = 2;

pub(crate) const NO_MEMORY: i32 = 3;

pub(crate) const TOO_SMALL: i32 = 4;

pub(crate) const NOT_JSON: i32 = 5;

pub(crate) const NOT_TOML: i32 = 11;

pub(crate) const TOO_DEEP: i32 = 6;

pub(crate) const DUPLICATE_NAME: i32 = 7;

pub(crate) const BAD_EVENT: i32 = 8;

pub(crate) const BAD_SETTINGS: i32 = 9;

pub(crate) const NOT_CANONICAL: i32 = 10;

pub(crate) const NOT_INTEGER: i32 = 12;

pub(crate) const MISPLACED: i32 = 13;
