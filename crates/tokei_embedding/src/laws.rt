//! Laws of the definitions: each function's contract is a law, and its body does nothing.
ghost use Rattle.tokei_embedding.specs.BlockLaws.{FencesReach, TagsReach, DocsReach, TargetsReach};
ghost use Rattle.tokei_embedding.specs.BlockLaws.{NewlinesOpenNothing, DocsOpenBeforeBlanks, BlocksBeginWithOpeners};

/// A fence's block takes a byte or more, ends in the text, and takes two bytes at least beside what
/// it holds.
pub fn fences_reach()
    ensures { FencesReach }
{}

/// So does an element.
pub fn tags_reach()
    ensures { TagsReach }
{}

/// So does a block of doc comments.
pub fn docs_reach()
    ensures { DocsReach }
{}

/// So does a block of the target language.
pub fn targets_reach()
    ensures { TargetsReach }
{}

/// No block opens where a newline stands.
pub fn newlines_open_nothing()
    ensures { NewlinesOpenNothing }
{}

/// A block of doc comments opens at a blank of a line exactly where one opens at the byte behind
/// it.
pub fn docs_open_before_blanks()
    ensures { DocsOpenBeforeBlanks }
{}

/// No block opens where its opener doesn't stand, and none of doc comments where the rest of the
/// line holds no mark.
pub fn blocks_begin_with_openers()
    ensures { BlocksBeginWithOpeners }
{}
