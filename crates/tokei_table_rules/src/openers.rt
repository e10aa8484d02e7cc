//! The texts of a row that a line has to hold to be walked.
ghost use Rattle.std.specs.Prelude.{◌≡◌, ◌++◌, [], ◌∷◌, IfOk, OnOk, string_bytes};
ghost use Rattle.tokei_table_row.specs.RowOf.{tokens_of, pairs_of, row_of};
ghost use Rattle.tokei_table_rules.specs.Openers.{starts_of, tag_start, tag_starts, important_syntax, child_openers, openers};

use crate::family::Family;
use std::alloc::{AllocError, Global};
use tokei_table_row::Syntax;

pub(crate) fn add_word(alloc: Global, out: &mut Vec<String>, word: &str) -> Result<(), AllocError>
    ensures { OnOk result (tokens_of out.new.items ≡ tokens_of out.old.items ++ word.now ∷ []) }
{
    out.push(String::from_str(alloc, word)?)?;
    Ok(())
}

fn add_starts(
    alloc: Global,
    out: &mut Vec<String>,
    pairs: &[(String, String)],
) -> Result<(), AllocError>
    ensures { OnOk result
        (tokens_of out.new.items ≡ tokens_of out.old.items ++ starts_of (pairs_of pairs.now)) }
{
    for pair in pairs {
        add_word(alloc, out, pair.0.as_str())?;
    }
    Ok(())
}

/// Adds copies of the texts. It fails where memory runs out.
pub fn add_texts(alloc: Global, out: &mut Vec<String>, texts: &[String]) -> Result<(), AllocError>
    ensures { OnOk result
        (tokens_of out.new.items ≡ tokens_of out.old.items ++ tokens_of texts.now) }
{
    for text in texts {
        add_word(alloc, out, text.as_str())?;
    }
    Ok(())
}

fn tag_start(alloc: Global, tag: &str) -> Result<String, AllocError>
    ensures { IfOk result (λ s. string_bytes s ≡ tag_start tag.now) }
{
    let mut start = String::from_str(alloc, "<")?;
    start.push_str(tag)?;
    Ok(start)
}

fn add_tags(alloc: Global, out: &mut Vec<String>, tags: &[String]) -> Result<(), AllocError>
    ensures { OnOk result
        (tokens_of out.new.items ≡ tokens_of out.old.items ++ tag_starts (tokens_of tags.now)) }
{
    for tag in tags {
        out.push(tag_start(alloc, tag.as_str())?)?;
    }
    Ok(())
}

/// Adds what `important_syntax` answers.
fn add_important_syntax(
    alloc: Global,
    out: &mut Vec<String>,
    row: &Syntax,
) -> Result<(), AllocError>
    ensures { OnOk result
        (tokens_of out.new.items ≡ tokens_of out.old.items ++ important_syntax (row_of row.now)) }
{
    add_starts(alloc, out, &row.quotes)?;
    add_starts(alloc, out, &row.doc_quotes)?;
    add_starts(alloc, out, &row.multi_line_comments)?;
    add_starts(alloc, out, &row.nested_comments)?;
    add_texts(alloc, out, &row.important_syntax)?;
    add_tags(alloc, out, &row.contexts)
}

/// The starts of string literals, of documentation in them and of comments, the member
/// `important_syntax`, and in a row of kind `html` the tags with their bracket. It fails where
/// memory runs out.
pub fn important_syntax(alloc: Global, row: &Syntax) -> Result<Vec<String>, AllocError>
    ensures { IfOk result (λ v. tokens_of v.items ≡ important_syntax (row_of row.now)) }
{
    // The room for all of them at once, and for the string literals that `openers` adds.
    let number = (row.quotes.len() + row.doc_quotes.len())
        .saturating_add(row.multi_line_comments.len() + row.nested_comments.len())
        .saturating_add(row.important_syntax.len() + row.contexts.len())
        .saturating_add(row.verbatim_quotes.len());
    let mut out = Vec::with_capacity(alloc, number)?;
    add_important_syntax(alloc, &mut out, row)?;
    Ok(out)
}

fn add_child_openers(alloc: Global, out: &mut Vec<String>, family: Family) -> Result<(), AllocError>
    ensures { OnOk result
        (tokens_of out.new.items ≡ tokens_of out.old.items ++ child_openers family) }
{
    match family {
        Family::Plain | Family::Jupyter => Ok(()),
        Family::Markdown => add_word(alloc, out, "```"),
        Family::HtmlLike => {
            add_word(alloc, out, "<script")?;
            add_word(alloc, out, "<style")?;
            add_word(alloc, out, "<template")
        }
        Family::Rust => {
            add_word(alloc, out, "///")?;
            add_word(alloc, out, "//!")
        }
        Family::LinguaFranca => add_word(alloc, out, "{="),
    }
}

/// What `important_syntax` answers, then the starts of string literals in which a backslash means
/// itself, then what opens children. It fails where memory runs out.
pub fn openers(alloc: Global, row: &Syntax) -> Result<Vec<String>, AllocError>
    ensures { IfOk result (λ v. tokens_of v.items ≡ openers (row_of row.now)) }
{
    let mut out = important_syntax(alloc, row)?;
    add_starts(alloc, &mut out, &row.verbatim_quotes)?;
    add_child_openers(alloc, &mut out, Family::of_key(row.key.as_str()))?;
    Ok(out)
}
