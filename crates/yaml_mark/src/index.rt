//! An index of directives, by their handles and prefixes.
ghost use Rattle.std.specs.Prelude.{◌≡◌, ℕ, Bool, List, ◌++◌, ◌∷◌, [], ◌||◌, ◌==◌, if◌then◌else◌, bytes_eq, length, string_bytes, position, OnOk, Option, None};
ghost use Rattle.std.specs.Prelude.{Some};
ghost use Rattle.std.specs.List.{list_any};
ghost use Rattle.std.specs.Option.{option_or};
ghost use Rattle.std.specs.BTreeMap.{get_by_text};
ghost use Rattle.std.specs.BTreeSet.{contains_text};
ghost use Rattle.yaml_base.specs.declared.directives.yaml_tag_directive_t.{yaml_tag_directive_t as Directive};
ghost use Rattle.yaml_mark.specs.Index.{Finds, earlier, fits_by, has_handle};
ghost use Rattle.yaml_mark.specs.Spelled.{begins_and_is_shorter};

use std::alloc::{AllocError, Allocator};
use std::collections::{BTreeMap, BTreeSet};
use yaml_base::yaml_tag_directive_t;

/// The handles of some directives, the places of their prefixes, and the lengths of these.
#[derive(Drop)]
pub(crate) struct Index<A: Allocator> {
    handles: BTreeSet<String<A>, A>,
    /// Each prefix with the place of the first directive that has it.
    prefixes: BTreeMap<String<A>, usize, A>,
    /// Each length of a prefix, once.
    lengths: Vec<usize, A>,
}

impl<A: Allocator> Index<A> {
    /// Makes an index of no directives; takes no memory.
    pub(crate) fn new(alloc: A) -> Index<A>
    where
        A: Copy,
        ensures { Finds result [] }
    {
        Index {
            handles: BTreeSet::new(alloc),
            prefixes: BTreeMap::new(alloc),
            lengths: Vec::new(alloc),
        }
    }

    /// Adds a directive at this place, which is the number of directives before it.
    pub(crate) fn add(
        &mut self,
        directive: &yaml_tag_directive_t<A>,
        place: usize,
    ) -> Result<(), AllocError>
    where
        A: Copy,
        ensures { OnOk result ((list : List (Directive A)) → place ≡ length list → Finds self.old list → Finds self.new (list ++ directive.now ∷ [])) }
    {
        let alloc = *self.lengths.allocator();
        let prefix = directive.prefix.as_str();
        add_text(alloc, &mut self.handles, directive.handle.as_str())?;
        add_first(alloc, &mut self.prefixes, prefix, place)?;
        add_length(&mut self.lengths, prefix.len())?;
        Ok(())
    }

    /// Returns whether a directive has this handle.
    pub(crate) fn has_handle(&self, handle: &str) -> bool
        ensures { (list : List (Directive A)) → Finds self.now list → result ≡ list_any (has_handle handle.now) list }
    {
        self.handles.contains(handle)
    }

    /// Returns the place of the first directive whose prefix is shorter than the tag and begins it. Each length that a prefix
    /// has takes one search.
    pub(crate) fn first_fitting(&self, tag: &str) -> Option<usize>
        ensures { (list : List (Directive A)) → Finds self.now list
            → result ≡ position (λ d. begins_and_is_shorter (string_bytes d.prefix) tag.now) list }
    {
        let mut first = None;
        for length in &self.lengths {
            first = earlier(first, self.first_of_length(tag, *length));
        }
        first
    }

    /// Returns the same for the prefixes of this length.
    fn first_of_length(&self, tag: &str, length: usize) -> Option<usize>
        ensures { (list : List (Directive A)) → Finds self.now list → result ≡ position (fits_by tag.now length) list }
    {
        if length >= tag.len() || !tag.is_char_boundary(length) {
            return None;
        }
        self.prefixes.get(&tag[..length]).copied()
    }
}

fn add_text<A: Allocator + Copy>(
    alloc: A,
    texts: &mut BTreeSet<String<A>, A>,
    text: &str,
) -> Result<(), AllocError>
    ensures { OnOk result ((bytes : List ℕ) → contains_text texts.new bytes ≡ (contains_text texts.old bytes || bytes_eq text.now bytes)) }
{
    let key = String::from_str(alloc, text)?;
    texts.insert(key)?;
    Ok(())
}

/// Adds a number to a text that has none.
fn add_first<A: Allocator + Copy>(
    alloc: A,
    numbers: &mut BTreeMap<String<A>, usize, A>,
    text: &str,
    number: usize,
) -> Result<(), AllocError>
    ensures { OnOk result ((bytes : List ℕ) → get_by_text numbers.new bytes
        ≡ option_or (get_by_text numbers.old bytes) (if bytes_eq text.now bytes then Some number else None)) }
{
    if numbers.contains_key(text) {
        return Ok(());
    }
    let key = String::from_str(alloc, text)?;
    numbers.insert(key, number)?;
    Ok(())
}

fn add_length<A: Allocator>(lengths: &mut Vec<usize, A>, length: usize) -> Result<(), AllocError>
    ensures { OnOk result ((test : ℕ → Bool) → list_any test lengths.new.items ≡ (list_any test lengths.old.items || test length)) }
{
    if !lengths.contains(&length) {
        lengths.push(length)?;
    }
    Ok(())
}

/// Returns the smaller of two numbers if both are there, else the one that is.
fn earlier(first: Option<usize>, second: Option<usize>) -> Option<usize>
    ensures { result ≡ earlier first second }
{
    match (first, second) {
        (Some(n), Some(m)) => Some(n.min(m)),
        (Some(n), None) => Some(n),
        (None, other) => other,
    }
}
