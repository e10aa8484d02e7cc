//! Copies of rows, with further extensions.
ghost use Rattle.std.specs.Prelude.{◌≡◌, ◌++◌, map, IfOk, OnOk};
ghost use Rattle.tokei_table_rules.specs.Copies.{with_name, with_comments, with_quotes, with_finds, filled};
ghost use Rattle.tokei_table_rules.specs.Extended.{gained, with_extensions, extensions_of};
ghost use Rattle.tokei_table_rules.specs.MetNames.{words_of};
ghost use Rattle.tokei_table_row.specs.RowOf.{pair_of, pairs_of, tokens_of, row_of};

use crate::known_texts::KnownTexts;
use crate::openers::{add_texts, add_word};
use std::alloc::{AllocError, Global};
use tokei_table_row::Syntax;

fn copy_of_pair(alloc: Global, pair: &(String, String)) -> Result<(String, String), AllocError>
    ensures { IfOk result (λ p. pair_of p ≡ pair_of pair.now) }
{
    let opener = String::from_str(alloc, pair.0.as_str())?;
    let closer = String::from_str(alloc, pair.1.as_str())?;
    Ok((opener, closer))
}

fn add_pairs(
    alloc: Global,
    out: &mut Vec<(String, String)>,
    pairs: &[(String, String)],
) -> Result<(), AllocError>
    ensures { OnOk result (pairs_of out.new.items ≡ pairs_of out.old.items ++ pairs_of pairs.now) }
{
    for pair in pairs {
        out.push(copy_of_pair(alloc, pair)?)?;
    }
    Ok(())
}

/// Gives the copy the row's name, its kind and its truth values.
fn copy_name(alloc: Global, copy: &mut Syntax, row: &Syntax) -> Result<(), AllocError>
    ensures { OnOk result (row_of copy.new ≡ with_name (row_of copy.old) (row_of row.now)) }
{
    copy.name = String::from_str(alloc, row.name.as_str())?;
    copy.kind = String::from_str(alloc, row.kind.as_str())?;
    copy.nested = row.nested;
    copy.literate = row.literate;
    copy.blank = row.blank;
    Ok(())
}

/// Adds the row's comments, its further texts and its tags to the copy.
fn copy_comments(alloc: Global, copy: &mut Syntax, row: &Syntax) -> Result<(), AllocError>
    ensures { OnOk result (row_of copy.new ≡ with_comments (row_of copy.old) (row_of row.now)) }
{
    add_texts(alloc, &mut copy.line_comment, &row.line_comment)?;
    add_pairs(
        alloc,
        &mut copy.multi_line_comments,
        &row.multi_line_comments,
    )?;
    add_pairs(alloc, &mut copy.nested_comments, &row.nested_comments)?;
    add_texts(alloc, &mut copy.important_syntax, &row.important_syntax)?;
    add_texts(alloc, &mut copy.contexts, &row.contexts)
}

/// Adds the row's string literals to the copy.
fn copy_quotes(alloc: Global, copy: &mut Syntax, row: &Syntax) -> Result<(), AllocError>
    ensures { OnOk result (row_of copy.new ≡ with_quotes (row_of copy.old) (row_of row.now)) }
{
    add_pairs(alloc, &mut copy.quotes, &row.quotes)?;
    add_pairs(alloc, &mut copy.verbatim_quotes, &row.verbatim_quotes)?;
    add_pairs(alloc, &mut copy.doc_quotes, &row.doc_quotes)
}

/// Adds what the row is found by to the copy.
fn copy_finds(alloc: Global, copy: &mut Syntax, row: &Syntax) -> Result<(), AllocError>
    ensures { OnOk result (row_of copy.new ≡ with_finds (row_of copy.old) (row_of row.now)) }
{
    add_texts(alloc, &mut copy.extensions, &row.extensions)?;
    add_texts(alloc, &mut copy.filenames, &row.filenames)?;
    add_texts(alloc, &mut copy.path_suffixes, &row.path_suffixes)?;
    add_texts(alloc, &mut copy.mime, &row.mime)?;
    add_texts(alloc, &mut copy.shebangs, &row.shebangs)?;
    add_texts(alloc, &mut copy.env, &row.env)
}

/// Copies the row into the new one of its key, and adds the extensions to its own.
fn fill(
    alloc: Global,
    copy: &mut Syntax,
    row: &Syntax,
    extensions: &[String],
) -> Result<(), AllocError>
    ensures { OnOk result (row_of copy.new
        ≡ with_extensions (filled (row_of copy.old) (row_of row.now)) (tokens_of extensions.now)) }
{
    copy_name(alloc, copy, row)?;
    copy_comments(alloc, copy, row)?;
    copy_quotes(alloc, copy, row)?;
    copy_finds(alloc, copy, row)?;
    add_texts(alloc, &mut copy.extensions, extensions)
}

/// Adds the texts to the known ones. It fails where memory runs out.
fn add_known<'a>(known: &mut KnownTexts<'a>, texts: &'a [String]) -> Result<(), AllocError>
    ensures { OnOk result (known.new ≡ known.old ++ tokens_of texts.now) }
{
    for text in texts {
        known.add(text.as_str())?;
    }
    Ok(())
}

/// The extensions of all rows, in their order. It fails where memory runs out.
pub fn all_extensions<'a>(alloc: Global, rows: &'a [Syntax]) -> Result<KnownTexts<'a>, AllocError>
    ensures { IfOk result (λ known. known ≡ extensions_of (map row_of rows.now)) }
{
    let mut known = KnownTexts::new(alloc);
    for row in rows {
        add_known(&mut known, &row.extensions)?;
    }
    Ok(known)
}

/// Those of the listed extensions that aren't known yet, each once, which are known from then on.
/// It fails where memory runs out.
pub fn gained<'a>(
    alloc: Global,
    known: &mut KnownTexts<'a>,
    listed: &[&'a str],
) -> Result<Vec<String>, AllocError>
    ensures gained { IfOk result (λ v. tokens_of v.items ≡ gained known.old (words_of listed.now)) }
    ensures known { OnOk result
        (known.new ≡ known.old ++ gained known.old (words_of listed.now)) }
{
    let mut out = Vec::new(alloc);
    for extension in listed {
        if known.add_new(*extension)? {
            add_word(alloc, &mut out, *extension)?;
        }
    }
    Ok(out)
}

/// The row with further extensions at the end of its own. It fails where memory runs out.
pub fn with_extensions(
    alloc: Global,
    row: &Syntax,
    extensions: &[String],
) -> Result<Syntax, AllocError>
    ensures { IfOk result (λ s. row_of s
        ≡ with_extensions (row_of row.now) (tokens_of extensions.now)) }
{
    let mut extended = Syntax::new(alloc, row.key.as_str())?;
    fill(alloc, &mut extended, row, extensions)?;
    Ok(extended)
}
