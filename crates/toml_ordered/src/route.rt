//! The way to the table in which a key is defined.
ghost use Rattle.std.specs.Prelude.{◌≡◌, [], ◌∷◌, MatchOption, option_and_then, option_map, string_bytes};
ghost use Rattle.toml_ordered.specs.Data.{TomlNodes, table};
ghost use Rattle.toml_ordered.specs.Reading.{steps_of};
ghost use Rattle.toml_ordered.specs.Tables as spec;

use crate::tree::Origin;

/// The way in which a key is passed.
#[derive(Clone, Copy)]
pub(crate) enum Way {
    /// As a part of a header.
    Header,
    /// As a part of a dotted key.
    Dots,
}

impl Way {
    /// Returns the origin of a table that a key makes by passing.
    pub(crate) fn origin(self) -> Origin
        ensures { result ≡ spec.made_by self }
    {
        match self {
            Way::Header => Origin::Implicit,
            Way::Dots => Origin::Dotted,
        }
    }

    /// Returns the origin of a table after a key passed it; `None` if it lets no key pass in this way.
    pub(crate) fn origin_after(self, origin: Origin) -> Option<Origin>
        ensures { (edit : spec.Edit) (inner : TomlNodes) → spec.passed self edit (table origin inner)
            ≡ option_and_then (λ after. option_map (table after) (edit inner)) result }
    {
        match self {
            Way::Header => match origin {
                Origin::Closed => None,
                Origin::Implicit | Origin::Dotted | Origin::Header => Some(origin),
            },
            Way::Dots => match origin {
                Origin::Closed | Origin::Header => None,
                Origin::Implicit | Origin::Dotted => Some(Origin::Dotted),
            },
        }
    }
}

/// The keys that are passed, those of a header first.
#[derive(Clone, Copy)]
pub(crate) struct Route<'a> {
    pub(crate) header: &'a [String],
    pub(crate) dots: &'a [String],
}

impl<'a> Route<'a> {
    /// Returns the first key and those after it.
    pub(crate) fn split(self) -> Option<(Way, &'a String, Route<'a>)>
        ensures { MatchOption result (steps_of self.entry ≡ []) (λ cut. steps_of self.entry ≡ (cut.0, string_bytes cut.1.now) ∷ steps_of cut.2) }
    {
        let Route { header, dots } = self;
        if let [key, rest @ ..] = header {
            return Some((Way::Header, key, Route { header: rest, dots }));
        }
        if let [key, rest @ ..] = dots {
            return Some((Way::Dots, key, Route { header, dots: rest }));
        }
        None
    }
}
