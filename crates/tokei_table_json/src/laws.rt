//! Laws of the definitions: each function's contract is a law, and its body does nothing.
ghost use Rattle.tokei_table_json.specs.RowLaws.{KindTellsHtml, OnlyHtmlHasTags};

/// The text of a row's kind tells whether the table says that the kind is `html`.
pub fn kind_tells_html()
    ensures { KindTellsHtml }
{}

/// Only a row of kind `html` has tags.
pub fn only_html_has_tags()
    ensures { OnlyHtmlHasTags }
{}
