//! Laws of the definitions alone: each is the contract of a function that does nothing.
ghost use Rattle.std.specs.Prelude.{◌<◌, ◌^◌, length};
ghost use Rattle.tokei_count.specs.PartLaw.{UnwalkedPartsStayPlain};
ghost use Rattle.tokei_count.specs.QuietLaw.{QuietTextsTakeNoSteps};
ghost use Rattle.tokei_count.specs.ReadingLaws.{ReadingsAreShallow, ReadingsKnowTheirLanguages};
ghost use Rattle.tokei_count.specs.Spelling.{ItemsSpellText, TextsAreSpelled};
ghost use Rattle.tokei_count.specs.StepLaw.{OpeningsStepsWork, SkippingTakesNoMoreSteps};
ghost use Rattle.tokei_count.specs.WeightLaws.{LightReadingsFit, LinesWithinWeight, ShortReadingsFit};
ghost use Rattle.tokei_count.specs.WeightLaws.{StepsWithinWeight, WeightIsLength};

/// The items of a text spell it.
pub fn items_spell_text()
    ensures { ItemsSpellText }
{}

/// The items of each text spell it, by the blocks of a table's languages.
pub fn texts_are_spelled()
    ensures { TextsAreSpelled }
{}

/// A part of a text that isn't walked begins and ends in plain text, and no child breaks it off.
pub fn unwalked_parts_stay_plain()
    ensures { UnwalkedPartsStayPlain }
{}

/// The steps of a text are at least its openings and at most its work, through all children.
pub fn steps_lie_between()
    ensures { OpeningsStepsWork }
{}

/// A reading that skips takes at most the steps of the plain reading, through all children.
pub fn skipping_takes_no_more_steps()
    ensures { SkippingTakesNoMoreSteps }
{}

/// A text that isn't a notebook and holds no opener takes no steps.
pub fn quiet_texts_take_no_steps()
    ensures { QuietTextsTakeNoSteps }
{}

/// A text takes no more steps than it weighs.
pub fn steps_within_weight()
    ensures { StepsWithinWeight }
{}

/// A text and its children have no more lines than it weighs.
pub fn lines_within_weight()
    ensures { LinesWithinWeight }
{}

/// A reading fits the code's numbers wherever the weight of its text does.
pub fn light_readings_fit()
    ensures { LightReadingsFit }
{}

/// Without notebooks a text weighs its bytes.
pub fn weight_is_length()
    ensures { WeightIsLength }
{}

/// Without notebooks a reading fits the code's numbers wherever the length of its text does.
pub fn short_readings_fit()
    ensures { ShortReadingsFit }
{}

/// A reading holds no more levels of blobs than there are levels to read.
pub fn readings_are_shallow()
    ensures { ReadingsAreShallow }
{}

/// The blobs of a reading in a language of the table are of its languages alone, at every depth.
pub fn readings_know_their_languages()
    ensures { ReadingsKnowTheirLanguages }
{}

/// A text has fewer than 2^64 bytes.
pub fn lengths_fit(text: &[u8])
    ensures { length text.now < 2 ^ 64 }
{
    let _length = text.len();
}
