//! The version of the programs.

/// The project's own version, and the version of unsafe-libyaml whose layout it follows.
pub const VERSION: &str = "0.9.0 (layout of unsafe-libyaml 0.2.11)";
