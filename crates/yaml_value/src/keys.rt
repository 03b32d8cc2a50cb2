//! Whether the keys of maps must differ.
ghost use Rattle.std.specs.Prelude.{◌≡◌};

/// Whether the keys of each map must differ.
#[derive(Clone, Copy, Debug, Drop, PartialEq, Eq)]
pub enum Keys {
    /// No map has a key twice.
    Unique,
    /// A map may have a key more than once.
    MayRepeat,
}

/// The keys must differ.
impl Default for Keys {
    fn default() -> Self
        ensures { result ≡ Keys.Unique }
    {
        Keys::Unique
    }
}
