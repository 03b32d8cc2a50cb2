//! The version of the library.
ghost use Rattle.std.specs.Prelude.{◌≡◌};

/// Returns the version of the library: 10,000 times its first number, 100 times its second, and its third. See the header.
#[unsafe(no_mangle)]
pub extern "C" fn yaml_c_version() -> u32
    ensures { result ≡ 900 }
{
    900
}
