//! The styles that a scalar's value allows.
ghost use Rattle.std.specs.List.{list_any};
ghost use Rattle.std.specs.Prelude.{◌≡◌, ◌≤◌, ◌==◌, ◌||◌, ◌&&◌, [], false, not, codes, length};
ghost use Rattle.std.specs.Str.{IsUtf8, chars};
ghost use Rattle.yaml_base.specs.scalars.Analysis as spec;
ghost use Rattle.yaml_base.specs.Characters as class;
ghost use Rattle.yaml_scalar.specs.Barred.{all_styles, allowed_by, barred_by, barred_in, either, is_quiet};
ghost use Rattle.yaml_scalar.specs.ByteClasses.{ImpliesTest};
ghost use Rattle.yaml_scalar.specs.ScalarData.{ChooseAlike, is_flow};

use crate::characters::{is_flow_indicator, is_gap, is_indicator, is_ordinary};
use crate::classes::{BREAK, INDICATOR, UNPRINTABLE, WIDE, free_length, last_of};
use crate::clean_ascii::is_clean_ascii;
use yaml_base::{Charset, is_ascii, is_break, is_printable, is_space, scalar_data_t};

/// The styles ruled out so far, and whether a line break was read.
#[derive(Clone, Copy)]
struct BarredStyles {
    multiline: bool,
    flow_plain: bool,
    block_plain: bool,
    single_quoted: bool,
    block: bool,
}

const NOTHING_BARRED: BarredStyles = BarredStyles {
    multiline: false,
    flow_plain: false,
    block_plain: false,
    single_quoted: false,
    block: false,
};

/// The collection around a plain text.
#[derive(Clone, Copy)]
enum Context {
    /// In a flow collection.
    Flow,
    /// In a block collection, or as a root.
    Block,
}

/// Analyses a scalar's value. With `unicode` all printable characters may be written unescaped, else only those of ASCII;
/// with `breaks12` U+2028 and U+2029 may not, since they aren't line breaks in YAML 1.2.
pub fn analyze_scalar(value: &str, unicode: bool, breaks12: bool) -> scalar_data_t
    ensures { result ≡ spec.allowances (record { unicode = unicode; breaks12 = breaks12 }) (chars value.now) }
{
    let (barred, rest) = barred_before(value, Charset { unicode, breaks12 });
    let all = BarredStyles {
        multiline: barred.multiline | holds_break(rest),
        ..barred
    };
    data_of(value, all)
}

/// Analyses a scalar's value as `analyze_scalar`, but `multiline` may be wrong if only double quotes fit:
/// `select_scalar_style` chooses the same by either result.
pub fn analyze_for_style(value: &str, unicode: bool, breaks12: bool) -> scalar_data_t
    ensures { ChooseAlike result (spec.allowances (record { unicode = unicode; breaks12 = breaks12 }) (chars value.now)) }
{
    let (barred, _) = barred_before(value, Charset { unicode, breaks12 });
    data_of(value, barred)
}

/// Returns the styles that a value allows, by those that its characters bar.
fn data_of(value: &str, barred: BarredStyles) -> scalar_data_t
    ensures { result ≡ allowed_by barred (chars value.now) }
{
    let is_empty = is_at_end(value);
    let unlike_plain = begins_unlike_plain(value);
    scalar_data_t {
        multiline: barred.multiline,
        flow_plain_allowed: !is_empty && !(unlike_plain || barred.flow_plain),
        block_plain_allowed: !(unlike_plain || barred.block_plain),
        single_quoted_allowed: !barred.single_quoted,
        block_allowed: !(is_empty || barred.block),
    }
}

/// Returns whether a gap or the end comes next.
fn ends_word(rest: &str) -> bool
    ensures { result ≡ spec.ends_word (chars rest.now) }
{
    rest.chars().next().is_none_or(is_gap)
}

/// Returns whether a character can't be written unescaped, so that the value must be double-quoted.
pub(crate) fn is_special(c: char, charset: Charset) -> bool
    ensures { result ≡ spec.is_special charset c }
{
    !is_printable(c)
        || (!charset.unicode && !is_ascii(c))
        || (charset.breaks12 && matches!(c, '\u{2028}' | '\u{2029}'))
}

/// Returns whether no character is left.
pub(crate) fn is_at_end(rest: &str) -> bool
    ensures { result ≡ spec.is_empty (chars rest.now) }
{
    rest.chars().next().is_none()
}

/// Returns whether a text begins with `---` or `...`.
fn begins_like_marker(value: &str) -> bool
    ensures { result ≡ spec.begins_like_marker (chars value.now) }
{
    let mut chars = value.chars();
    match (chars.next(), chars.next(), chars.next()) {
        (Some(a), Some(b), Some(c)) => ((a == '-') | (a == '.')) & (b == a) & (c == a),
        _ => false,
    }
}

/// Returns whether a value that is `c` and then `rest` begins as no plain text may.
fn first_bars_plain(value: &str, c: char, rest: &str) -> bool
    ensures { result ≡ (class.is_space c || spec.begins_like_marker (chars value.now) || spec.is_indicator c
        || (class.is_among (codes "?:-") c && spec.ends_word (chars rest.now))) }
{
    is_space(c)
        || begins_like_marker(value)
        || is_indicator(c)
        || (matches!(c, '?' | ':' | '-') && ends_word(rest))
}

/// Returns whether a value begins as no plain text may.
fn begins_unlike_plain(value: &str) -> bool
    ensures { result ≡ spec.begins_unlike_plain (chars value.now) }
{
    let mut chars = value.chars();
    match chars.next() {
        Some(c) if is_ordinary(c) => false,
        Some(c) => first_bars_plain(value, c, chars.as_str()),
        None => false,
    }
}

/// Returns whether this is `:` before a gap or the end.
fn is_value_indicator(c: char, rest: &str) -> bool
    ensures { result ≡ c == 58 && spec.ends_word (chars rest.now) }
{
    c == ':' && ends_word(rest)
}

/// Returns whether this is `:` before a gap or the end, or a gap before `#`.
fn is_key_or_comment(c: char, rest: &str) -> bool
    ensures { result ≡ spec.is_key_or_comment c (chars rest.now) }
{
    is_value_indicator(c, rest) || (is_gap(c) && matches!(rest.chars().next(), Some('#')))
}

/// Returns whether a space comes next.
pub(crate) fn begins_with_space(rest: &str) -> bool
    ensures { result ≡ spec.begins_with class.is_space (chars rest.now) }
{
    match rest.chars().next() {
        Some(c) => is_space(c),
        None => false,
    }
}

/// Returns whether no plain text holds this character before the rest.
fn bars_plain(c: char, rest: &str, charset: Charset, context: Context) -> bool
    ensures { result ≡ spec.bars_plain charset (is_flow context) c (chars rest.now) }
{
    is_special(c, charset)
        || is_break(c)
        || (is_space(c) && is_at_end(rest))
        || is_key_or_comment(c, rest)
        || (matches!(context, Context::Flow) && is_flow_indicator(c))
}

/// Returns whether this is a space before a break.
fn is_trailing_space(c: char, rest: &str) -> bool
    ensures { result ≡ spec.is_trailing_space c (chars rest.now) }
{
    is_space(c)
        && match rest.chars().next() {
            Some(next) => is_break(next),
            None => false,
        }
}

/// Returns whether no single-quoted text holds this character before the rest.
fn bars_single_quoted(c: char, rest: &str, charset: Charset) -> bool
    ensures { result ≡ spec.bars_single_quoted charset c (chars rest.now) }
{
    is_special(c, charset) || is_trailing_space(c, rest) || (is_break(c) && begins_with_space(rest))
}

/// Returns whether no block text holds this character before the rest.
fn bars_block(c: char, rest: &str, charset: Charset) -> bool
    ensures { result ≡ spec.bars_block charset c (chars rest.now) }
{
    is_special(c, charset) || is_trailing_space(c, rest) || (is_space(c) && is_at_end(rest))
}

/// Returns the styles barred so far, with those that the next character bars before the rest.
#[inline(always)]
fn with_next(barred: BarredStyles, c: char, rest: &str, charset: Charset) -> BarredStyles
    ensures { result ≡ either barred (barred_by charset c (chars rest.now)) }
{
    if is_ordinary(c) {
        return barred;
    }
    if is_flow_indicator(c) {
        // Only plain text may not hold it.
        return BarredStyles {
            flow_plain: true,
            block_plain: barred.block_plain | is_value_indicator(c, rest),
            ..barred
        };
    }
    BarredStyles {
        multiline: barred.multiline || is_break(c),
        flow_plain: barred.flow_plain || bars_plain(c, rest, charset, Context::Flow),
        block_plain: barred.block_plain || bars_plain(c, rest, charset, Context::Block),
        single_quoted: barred.single_quoted || bars_single_quoted(c, rest, charset),
        block: barred.block || bars_block(c, rest, charset),
    }
}

/// Returns the classes of bytes at which a value is looked at closely.
fn significant_classes(charset: Charset) -> u8
    ensures { ImpliesTest result (is_quiet charset) }
{
    if charset.unicode {
        BREAK | UNPRINTABLE | INDICATOR
    } else {
        BREAK | UNPRINTABLE | INDICATOR | WIDE
    }
}

/// Skips ordinary characters. Returns the result, in which a space at their end counts, and the rest.
#[inline(always)]
fn skip_quiet(barred: BarredStyles, text: &str, charset: Charset) -> (BarredStyles, &str)
    ensures same { either barred (barred_in charset (chars text.now))
        ≡ either result.0 (barred_in charset (chars result.1.now)) }
    ensures is_text { IsUtf8 result.1.now }
    ensures shorter { length result.1.now ≤ length text.now }
{
    let (quiet, rest) = text.split_at(free_length(text, significant_classes(charset)));
    if is_space(last_of('\0', quiet)) {
        (with_next(barred, ' ', rest, charset), rest)
    } else {
        (barred, rest)
    }
}

/// Returns the text after the next characters none of which is a break.
fn skip_unbroken(text: &str) -> &str
    ensures same { list_any class.is_break (chars text.now) ≡ list_any class.is_break (chars result.now) }
    ensures shorter { length result.now ≤ length text.now }
{
    let (_, rest) = text.split_at(free_length(text, BREAK));
    rest
}

/// Returns whether some character of a text is a break.
pub fn holds_break(text: &str) -> bool
    ensures { result ≡ list_any class.is_break (chars text.now) }
{
    if is_clean_ascii(text) {
        return false;
    }
    let mut chars = skip_unbroken(text).chars();
    while let Some(c) = chars.next() {
        if is_break(c) {
            return true;
        }
        chars = skip_unbroken(chars.as_str()).chars();
    }
    false
}

/// Returns the styles that the characters of a value bar, as far as it was read, and the rest, which is empty unless all are barred.
fn barred_before(value: &str, charset: Charset) -> (BarredStyles, &str)
    ensures same { record result.0 { multiline = result.0.multiline || list_any class.is_break (chars result.1.now) }
        ≡ barred_in charset (chars value.now) }
    ensures rest { all_styles result.0 ≡ false → chars result.1.now ≡ [] }
{
    let (mut barred, first) = skip_quiet(NOTHING_BARRED, value, charset);
    let mut chars = first.chars();
    while let Some(c) = chars.next() {
        let rest = chars.as_str();
        let more = with_next(barred, c, rest, charset);
        // If only double quotes are left, the rest bars no more.
        if more.flow_plain & more.block_plain & more.single_quoted & more.block {
            return (more, rest);
        }
        let (read, after) = skip_quiet(more, rest, charset);
        barred = read;
        chars = after.chars();
    }
    (barred, "")
}
