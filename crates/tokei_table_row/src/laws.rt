//! Laws of the definitions: each function's contract is a law, and its body does nothing.
ghost use Rattle.tokei_table_row.specs.TrimLaws.{TrimStartDropsFront, TrimDropsEnds};

/// `trim_start` drops blanks at the front of a text, and what is left is empty or begins with a
/// byte that isn't blank.
pub fn trim_start_drops_the_front()
    ensures { TrimStartDropsFront }
{}

/// `trim` drops blanks at both ends of a text, and what is left is empty or has no blank at an end.
pub fn trim_drops_both_ends()
    ensures { TrimDropsEnds }
{}
