//! The tag directives in force in a document (YAML 1.1, section 7.1.2).
ghost use Rattle.std.specs.Prelude.{◌≡◌, ◌^◌, true, false, Option, None, Some, List, [], ◌∷◌, ◌++◌, ◌<◌, length, encode_utf8_all, position, map, is_ok, IfErr};
ghost use Rattle.std.specs.Prelude.{IfOk};
ghost use Rattle.std.specs.Prelude.{slice_get, option_map, chars, bytes_eq, string_bytes, if◌then◌else◌};
ghost use Rattle.std.specs.List.{list_any};
ghost use Rattle.yaml_base.specs.Errors.{refused};
ghost use Rattle.yaml_base.specs.Event.{TagDirective};
ghost use Rattle.yaml_base.specs.Seen.{seen_directive};
ghost use Rattle.yaml_base.specs.Tags.{gives_handle};
ghost use Rattle.yaml_mark.specs.Index.{IsIndexed, has_handle};
ghost use Rattle.yaml_mark.specs.Spelled.{fits, begins_and_is_shorter};
ghost use Rattle.yaml_base.specs.declared.directives.yaml_tag_directive_t.{yaml_tag_directive_t as Directive};

use super::index::Index;
use std::alloc::{AllocError, Allocator};
use std::marker::Model;
use yaml_base::{yaml_error_t, yaml_tag_directive_t};

/// The number of directives that are compared one after another; later ones are found by an index.
const SCANNED: usize = 8;

/// Tag directives in order, each with a text of its own.
pub struct Directives<A: Allocator> {
    list: Vec<yaml_tag_directive_t<A>, A>,
    /// None before there are more than `SCANNED`, and after memory for it was refused.
    index: Option<Box<Index<A>, A>>,
}

impl<A: Allocator> Model for Directives<A> {
    ghost use Rattle.std.specs.Prelude.{List, map};
    ghost use Rattle.yaml_base.specs.Event.{TagDirective};
    ghost use Rattle.yaml_base.specs.Seen.{seen_directive};

    ghost Value = { List TagDirective };

    ghost view = { λ d. map seen_directive d.list.items };

    ghost use Rattle.yaml_mark.specs.Index.{IsIndexed};

    ghost invariant = { λ d. IsIndexed 8 d.index d.list.items };
}

// Written by hand, so that an owner has one call for all parts.
impl<A: Allocator> Drop for Directives<A> {
    fn drop(self) {
        let Directives { list: _, index: _ } = self;
    }
}

impl<A: Allocator> Directives<A> {
    /// Makes a list of no directives; takes no memory.
    pub fn new(alloc: A) -> Directives<A>
        ensures { result ≡ [] }
    {
        Directives {
            list: Vec::new(alloc),
            index: None,
        }
    }

    /// Adds a copy of a directive at the end. If its handle is there already, nothing is added, and the answer is
    /// `DuplicateDirective`, or `Ok` if duplicates are allowed. If a growth is refused, nothing is added either, and
    /// the answer is `Memory`.
    pub fn append(
        &mut self,
        directive: &yaml_tag_directive_t<A>,
        allow_duplicates: bool,
    ) -> Result<(), yaml_error_t>
    where
        A: Copy,
        ensures there { gives_handle (seen_directive directive.now).handle self.old ≡ true
            → (refused result ≡ (if allow_duplicates then None else Some yaml_error_t.DuplicateDirective)) × (self.new ≡ self.old) }
        ensures added { gives_handle (seen_directive directive.now).handle self.old ≡ false
            → self.new ≡ (if is_ok result then self.old ++ seen_directive directive.now ∷ [] else self.old) }
        ensures memory { gives_handle (seen_directive directive.now).handle self.old ≡ false → IfErr result (λ e. e ≡ yaml_error_t.Memory) }
    {
        if self.gives(directive.handle.as_str()) {
            return if allow_duplicates {
                Ok(())
            } else {
                Err(yaml_error_t::DuplicateDirective)
            };
        }
        self.push_copy(directive).map_err(|_| yaml_error_t::Memory)
    }

    /// Leaves no directives; takes no memory.
    pub fn clear(&mut self)
        ensures { self.new ≡ [] }
    {
        self.list.clear();
        self.index = None;
    }

    /// Returns the number of directives.
    pub fn len(&self) -> usize
        ensures { result ≡ length self.now }
    {
        self.list.len()
    }

    /// Returns the directive at a place from 0 on, if there is one.
    pub fn get(&self, i: usize) -> Option<&yaml_tag_directive_t<A>>
        ensures { option_map (λ d. seen_directive d.now) result ≡ slice_get self.now i }
    {
        self.list.get(i)
    }

    /// Returns the number of the first directive whose prefix is shorter than the tag and begins it.
    pub(crate) fn first_fitting(&self, tag: &str) -> Option<usize>
        ensures { result ≡ position (fits tag.now) self.now }
    {
        first_prefix(self.list.as_slice(), &self.index, tag)
    }

    /// Returns the length in bytes of the prefix of a directive that is there.
    pub(crate) fn prefix_length(&self, number: usize) -> usize
        requires { number < length self.now }
        ensures { (d : TagDirective) → slice_get self.now number ≡ Some d → result ≡ length (encode_utf8_all d.prefix) }
    {
        self.list[number].prefix.as_str().len()
    }

    fn gives(&self, handle: &str) -> bool
        ensures { result ≡ gives_handle (chars handle.now) self.now }
    {
        some_handle_is(self.list.as_slice(), &self.index, handle)
    }

    /// Adds a copy of a directive. If a growth is refused, nothing is added, and the index is given up.
    fn push_copy(&mut self, directive: &yaml_tag_directive_t<A>) -> Result<(), AllocError>
    where
        A: Copy,
        ensures { self.new ≡ (if is_ok result then self.old ++ seen_directive directive.now ∷ [] else self.old) }
    {
        let alloc = *self.list.allocator();
        let copy = yaml_tag_directive_t {
            handle: String::from_str(alloc, directive.handle.as_str())?,
            prefix: String::from_str(alloc, directive.prefix.as_str())?,
        };
        let index = index_with(alloc, self.index.take(), self.list.len(), &copy)?;
        self.list.push(copy)?;
        self.index = index;
        Ok(())
    }
}

/// Returns the index after one more directive, of this number.
fn index_with<A: Allocator + Copy>(
    alloc: A,
    before: Option<Box<Index<A>, A>>,
    number: usize,
    directive: &yaml_tag_directive_t<A>,
) -> Result<Option<Box<Index<A>, A>>, AllocError>
    ensures { IfOk result (λ index. (list : List (Directive A)) → number ≡ length list → IsIndexed 8 before list
        → IsIndexed 8 index (list ++ directive.now ∷ [])) }
{
    let mut index = match before {
        Some(index) => index,
        None => {
            if number != SCANNED {
                return Ok(None);
            }
            Box::new(alloc, Index::new(alloc))?
        }
    };
    index.add(directive, number.saturating_sub(SCANNED))?;
    Ok(Some(index))
}

fn some_handle_is<A: Allocator>(
    directives: &[yaml_tag_directive_t<A>],
    index: &Option<Box<Index<A>, A>>,
    handle: &str,
) -> bool
    requires { IsIndexed 8 index.now directives.now }
    ensures { result ≡ list_any (has_handle handle.now) directives.now }
{
    match index {
        Some(index) => { scan_handles(&directives[..SCANNED], handle) || index.has_handle(handle) }
        None => scan_handles(directives, handle),
    }
}

fn scan_handles<A: Allocator>(directives: &[yaml_tag_directive_t<A>], handle: &str) -> bool
    ensures { result ≡ list_any (has_handle handle.now) directives.now }
{
    directives
        .iter()
        .any(|directive| directive.handle.as_str() == handle)
}

fn first_prefix<A: Allocator>(
    directives: &[yaml_tag_directive_t<A>],
    index: &Option<Box<Index<A>, A>>,
    tag: &str,
) -> Option<usize>
    requires indexed { IsIndexed 8 index.now directives.now }
    requires small { length directives.now < 2 ^ 63 }
    ensures { result ≡ position (λ d. begins_and_is_shorter (string_bytes d.prefix) tag.now) directives.now }
{
    match index {
        Some(index) => match scan_prefixes(&directives[..SCANNED], tag) {
            Some(number) => Some(number),
            None => match index.first_fitting(tag) {
                Some(place) => Some(SCANNED + place),
                None => None,
            },
        },
        None => scan_prefixes(directives, tag),
    }
}

fn scan_prefixes<A: Allocator>(directives: &[yaml_tag_directive_t<A>], tag: &str) -> Option<usize>
    ensures { result ≡ position (λ d. begins_and_is_shorter (string_bytes d.prefix) tag.now) directives.now }
{
    directives
        .iter()
        .position(|directive| extends_prefix(tag, directive.prefix.as_str()))
}

fn extends_prefix(tag: &str, prefix: &str) -> bool
    ensures { result ≡ begins_and_is_shorter prefix.now tag.now }
{
    prefix.len() < tag.len() && tag.starts_with(prefix)
}
