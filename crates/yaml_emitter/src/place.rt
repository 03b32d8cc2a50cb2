//! The place of a node, and the collections that are open around it.

ghost use Rattle.yaml_emitter.specs.Reach.{IsWithinReach};

use yaml_base::CollectionKind;

/// The role of a node. The first item or key of a flow collection writes its bracket; a value knows
/// whether its key is simple.
#[derive(Clone, Copy)]
pub(crate) enum Role {
    Root,
    Item { first: bool },
    Key { first: bool },
    Value { simple: bool },
}

/// The place of a node: whether it is in flow, its role, and the column of the entries around it.
#[derive(Clone, Copy)]
pub(crate) struct Place {
    pub in_flow: bool,
    pub role: Role,
    /// In characters; `None` at the root.
    pub column: Option<u32>,
    ghost reach: { IsWithinReach column },
}

/// An open collection: the place of its next entry, and whether the collection is itself a simple key.
#[derive(Clone, Copy)]
pub(crate) struct Frame {
    pub place: Place,
    pub simple: bool,
}

impl Role {
    ghost use Rattle.std.specs.Prelude.{◌≡◌, if◌then◌else◌};
    ghost use Rattle.yaml_base.specs.Layout.{is_key};
    ghost use Rattle.yaml_base.specs.Steps.{is_first, is_item};
    ghost use Rattle.yaml_emitter.specs.Places.{is_mapping, seen_role};

    pub(crate) fn is_key(self) -> bool
        ensures { result ≡ is_key (seen_role self) }
    {
        matches!(self, Role::Key { .. })
    }

    /// Returns whether a collection may end here: a mapping ends in place of a key, a sequence in place of an item.
    pub(crate) fn may_end(self, kind: CollectionKind) -> bool
        ensures { result ≡ (if is_mapping kind then is_key (seen_role self) else is_item (seen_role self)) }
    {
        match self {
            Role::Item { .. } => matches!(kind, CollectionKind::Sequence),
            Role::Key { .. } => matches!(kind, CollectionKind::Mapping),
            _ => false,
        }
    }

    /// Returns whether no entry of the collection is written yet.
    pub(crate) fn is_first(self) -> bool
        ensures { result ≡ is_first (seen_role self) }
    {
        match self {
            Role::Item { first } | Role::Key { first } => first,
            _ => false,
        }
    }
}

impl Place {
    ghost use Rattle.std.specs.Prelude.{◌≡◌, ◌≤◌, Some};
    ghost use Rattle.yaml_base.specs.Layout.{line_column, root_place};
    ghost use Rattle.yaml_emitter.specs.Places.{seen_place};
    ghost use Rattle.yaml_emitter.specs.Reach.{most_column};

    pub(crate) fn root() -> Place
        ensures { seen_place result ≡ root_place }
    {
        Place {
            in_flow: false,
            role: Role::Root,
            column: None,
        }
    }

    /// Returns the column at which a new line begins here.
    pub(crate) fn line_column(&self) -> u32
        ensures value { result ≡ line_column (seen_place self.now).column }
        ensures within { result ≤ most_column }
    {
        self.column.unwrap_or(0)
    }

    /// Returns this place with `column` filled in: 0 at the root.
    pub(crate) fn at_line(&self) -> Place
        ensures role { result.role ≡ self.now.role }
        ensures column { result.column ≡ Some (line_column (seen_place self.now).column) }
    {
        Place {
            in_flow: self.in_flow,
            role: self.role,
            column: Some(self.line_column()),
        }
    }
}
