//! The directives before a document's root (YAML 1.1, section 7.1).
use std::alloc::Allocator;

/// `%YAML` and a version. Only 1.1 and 1.2 can be written.
#[derive(Clone, Copy, PartialEq, Eq, Debug)]
pub struct yaml_version_directive_t {
    /// The number before the point.
    pub major: i32,
    /// The number after the point.
    pub minor: i32,
}

/// `%TAG`, a handle and the prefix that it means.
#[derive(Drop)]
#[derive_where(PartialEq, Eq, Debug)]
pub struct yaml_tag_directive_t<A: Allocator> {
    /// `!`, or `!`, letters and digits, `!`.
    pub handle: String<A>,
    /// The prefix of the tags that the handle shortens.
    pub prefix: String<A>,
}
