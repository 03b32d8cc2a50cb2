//! The texts of a C program's events. One array of bytes, the arena, has all of them.
ghost use Rattle.std.specs.Prelude.{◌≡◌, IfOk, option_map};
ghost use Rattle.std.specs.Str.{chars};
ghost use Rattle.yaml_base.specs.Seen.{seen_text};
ghost use Rattle.yaml_emitter.specs.BorrowedTexts.{seen_name};
ghost use Rattle.yaml_c.specs.Arena as texts;
ghost use Rattle.yaml_c.specs.Arena.{utf8_text, text_in_arena, optional_text_at};

use std::alloc::{AllocError, Allocator};

/// Some elements of an array, one after another: the number of the first, counted from 0, and how many they are.
#[repr(C)]
#[derive(Clone, Copy)]
pub struct Span {
    pub start: usize,
    pub length: usize,
}

/// Returns the elements of a span, or `None` if it passes the end of the array.
pub(crate) fn part_of<'a, T>(all: &'a [T], span: &Span) -> Option<&'a [T]>
    ensures { option_map (λ part. part.now) result ≡ texts.part_of all.now span.now }
{
    if span.start > all.len() || span.length > all.len() - span.start {
        return None;
    }
    Some(&all[span.start..span.start + span.length])
}

/// Returns bytes as a text, or `None` if they aren't UTF-8.
#[tactic(auto, using(crate::proofs::Utf8::text_of_utf8, crate::proofs::Utf8::no_text))]
pub(crate) fn text_of(bytes: &[u8]) -> Option<&str>
    ensures { option_map (λ text. chars text.now) result ≡ utf8_text bytes.now }
{
    match std::str::from_utf8(bytes) {
        Ok(text) => Some(text),
        Err(_) => None,
    }
}

/// Returns the text of a span, or `None` if it passes the end of the arena or isn't UTF-8.
pub(crate) fn borrowed_text<'a>(arena: &'a [u8], span: &Span) -> Option<&'a str>
    ensures { option_map (λ text. chars text.now) result ≡ text_in_arena arena.now span.now }
{
    text_of(part_of(arena, span)?)
}

/// Returns the text of a span, or `Some(None)` if `has` is 0. Returns `None` if `has` isn't 0 and the span has no text.
pub(crate) fn optional_borrowed_text<'a>(
    arena: &'a [u8],
    has: u32,
    span: &Span,
) -> Option<Option<&'a str>>
    ensures { option_map seen_name result ≡ optional_text_at arena.now has span.now }
{
    if has == 0 {
        return Some(None);
    }
    Some(Some(borrowed_text(arena, span)?))
}

/// Returns a copy of the text of a span, or `None` if it passes the end of the arena or isn't UTF-8.
pub(crate) fn owned_text<A: Allocator>(
    alloc: A,
    arena: &[u8],
    span: &Span,
) -> Result<Option<String<A>>, AllocError>
    ensures { IfOk result (λ text. option_map seen_text text ≡ text_in_arena arena.now span.now) }
{
    match borrowed_text(arena, span) {
        Some(text) => Ok(Some(String::from_str(alloc, text)?)),
        None => Ok(None),
    }
}

/// Returns a copy of the text of a span, or `Some(None)` if `has` is 0. Returns `None` if `has` isn't 0 and the span has no text.
pub(crate) fn optional_text<A: Allocator>(
    alloc: A,
    arena: &[u8],
    has: u32,
    span: &Span,
) -> Result<Option<Option<String<A>>>, AllocError>
    ensures { IfOk result (λ found. option_map (λ text. option_map seen_text text) found ≡ optional_text_at arena.now has span.now) }
{
    if has == 0 {
        return Ok(Some(None));
    }
    match owned_text(alloc, arena, span)? {
        Some(text) => Ok(Some(Some(text))),
        None => Ok(None),
    }
}
