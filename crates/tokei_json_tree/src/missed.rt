//! Why a text isn't read token by token.
use std::alloc::AllocError;

/// Why a text isn't read token by token.
pub enum Missed {
    /// An allocation failed.
    Memory,
    /// The text is another than such a reading is for, or no JSON: nothing more is said of it.
    Unusual,
}

impl From<AllocError> for Missed {
    ghost use Rattle.std.specs.Prelude.{◌≡◌};
    ghost use Rattle.tokei_json_tree.specs.declared.missed.Missed.TheVariants.{Memory};

    ghost from_gives = { λ _ e. e ≡ Memory };

    fn from(_refused: AllocError) -> Missed {
        Missed::Memory
    }
}
