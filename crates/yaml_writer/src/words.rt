//! The words that a reader may take for another value than a text.
ghost use Rattle.std.specs.Prelude.{◌≡◌, map};
ghost use Rattle.std.specs.Char.{to_ascii_lowercase};
ghost use Rattle.std.specs.List.{list_any};
ghost use Rattle.yaml_base.specs.Words as tables;
ghost use Rattle.yaml_writer.specs.Words as words;

/// Null and booleans, those of YAML 1.1 alone, the merge key and the default value of YAML 1.1, infinity and NaN.
#[rattlefmt::skip]
const WORDS: &[&[u8]] = &[
    b"~", b"null", b"true", b"false", b"y", b"n", b"yes", b"no", b"on", b"off", b"<<", b"=",
    b".inf", b".nan", b"inf", b"nan", b"infinity",
    b"+.inf", b"+.nan", b"+inf", b"+nan", b"+infinity",
    b"-.inf", b"-.nan", b"-inf", b"-nan", b"-infinity",
];

/// Returns whether a text is one of these words, in any case.
fn is_one_of(text: &[u8], words: &[&[u8]]) -> bool
    ensures { result ≡ list_any (λ word. tables.is_word (map to_ascii_lowercase text.now) (map to_ascii_lowercase word.now)) words.now }
{
    words.iter().any(|word| text.eq_ignore_ascii_case(word))
}

/// Returns whether a text is a reserved word, in any case.
pub(crate) fn is_reserved_word(text: &[u8]) -> bool
    ensures { result ≡ words.is_reserved_word (map to_ascii_lowercase text.now) }
{
    is_one_of(text, WORDS)
}
