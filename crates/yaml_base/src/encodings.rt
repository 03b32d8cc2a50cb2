//! The encodings of a stream and its line breaks.

/// The encoding of characters as bytes (YAML 1.1, section 5.2).
#[derive(Clone, Copy, PartialEq, Eq, Debug)]
pub enum yaml_encoding_t {
    /// None is asked for: the stream's own is taken, else UTF-8.
    YAML_ANY_ENCODING,
    /// UTF-8, without a byte order mark.
    YAML_UTF8_ENCODING,
    /// UTF-16, the low byte first, after a byte order mark.
    YAML_UTF16LE_ENCODING,
    /// UTF-16, the high byte first, after a byte order mark.
    YAML_UTF16BE_ENCODING,
}

/// The break that ends a line (YAML 1.1, section 5.4).
#[derive(Clone, Copy, PartialEq, Eq, Debug)]
pub enum yaml_break_t {
    /// None is asked for: LF is taken.
    YAML_ANY_BREAK,
    /// CR, as on old Macs.
    YAML_CR_BREAK,
    /// LF, as on Unix.
    YAML_LN_BREAK,
    /// CR LF, as on DOS.
    YAML_CRLN_BREAK,
}
