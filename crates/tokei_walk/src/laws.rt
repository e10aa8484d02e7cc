//! Laws of the definitions: each function's contract is a law, and its body does nothing.
ghost use Rattle.tokei_walk.specs.WalkLaws.{DescentMeetsKept, GrowthLasts, KeptAreFiles};

/// A descent through a sound tree meets exactly the files that the filter of all its places keeps,
/// in their order.
#[tactic(auto, using(crate::proofs::Chains::descent_is_filter))]
pub fn a_descent_meets_the_kept_files()
    ensures { DescentMeetsKept }
{}

/// Each kept file of a sound tree is a file of the tree: its content is refused only where the tree
/// says so.
#[tactic(auto, using(crate::proofs::KeptPlaces::kept_are_files))]
pub fn kept_files_are_files()
    ensures { KeptAreFiles }
{}

/// Notes that stay have grown, and those that grow twice have grown.
pub fn notes_stay_grown()
    ensures { GrowthLasts }
{}
