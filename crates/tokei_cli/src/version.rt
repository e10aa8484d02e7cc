//! The version that the program shows.
ghost use Rattle.std.specs.Prelude.{◌≡◌, codes};

pub(crate) const VERSION: &str = "15.0.0 compiled with serialization support: json";

/// The version, and the formats that can be written and read.
pub fn crate_version() -> &'static str
    ensures { result.now ≡ codes "15.0.0 compiled with serialization support: json" }
{
    VERSION
}
