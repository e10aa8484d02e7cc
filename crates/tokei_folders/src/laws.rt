//! Laws of the definitions: each function's contract is a law, and its body does nothing.
ghost use Rattle.tokei_folders.specs.FolderLaws.{ReadsContent, ToldIsSound, JoinsNames};

/// A read answers the content of what stands at the place, or is refused where there is none.
#[tactic(auto, using(crate::proofs::Contents::reads_content))]
pub fn a_read_answers_the_content()
    ensures { ReadsContent }
{}

/// Folders that tell a tree tell a sound one.
#[tactic(auto, using(crate::proofs::Contents::sound_of))]
pub fn a_told_tree_is_sound()
    ensures { ToldIsSound }
{}

/// The names of a joined place are those of the folder and then those of the name.
pub fn a_joined_place_has_both_names()
    ensures { JoinsNames }
{}
