//! Whether a text names two rows.
ghost use Rattle.std.specs.Prelude.{◌≡◌, ◌++◌, ◌||◌, ◌<◌, ℕ, List, length, take, true, false, map, bytes_eq};
ghost use Rattle.std.specs.Prelude.{is_some, IfOk, IfSome, OnOk, OnErr};
ghost use Rattle.std.specs.Cmp.Lexicographic.{slice_cmp};
ghost use Rattle.std.specs.List.{IsAllAdjacentAnswer};
ghost use Rattle.std.specs.Ordering.{is_lt, nat_cmp};
ghost use Rattle.tokei_table_row.specs.RowOf.{row_of};
ghost use Rattle.tokei_table_row.specs.FirstRows.{has_name};
ghost use Rattle.tokei_table_rules.specs.MetNames.{is_met, was_met, words_of};
ghost use Rattle.tokei_table_rules.specs.RowNames.{shares_name, names_twice, shares_earlier, keys_of, other_names_of};

use std::alloc::{AllocError, Global};
use std::collections::BTreeMap;
use tokei_table_row::Syntax;

/// Whether the text is the row's key or its name.
pub(crate) fn has_name(row: &Syntax, word: &[u8]) -> bool
    ensures { result ≡ has_name word.now (row_of row.now) }
{
    row.key.as_bytes() == word || row.name.as_bytes() == word
}

/// Whether the name was met.
pub(crate) fn is_met<'a>(names: &BTreeMap<&'a str, ()>, name: &str) -> bool
    ensures { result ≡ is_met names.now name.now }
{
    names.get(name).is_some()
}

/// Adds the name to those that were met.
pub(crate) fn add_name<'a>(
    names: &mut BTreeMap<&'a str, ()>,
    name: &'a str,
) -> Result<(), AllocError>
    ensures added { OnOk result
        ((q : List ℕ) → is_met names.new q ≡ (is_met names.old q || bytes_eq name.now q)) }
    ensures kept { OnErr result ((q : List ℕ) → is_met names.new q ≡ is_met names.old q) }
{
    match names.insert(name, ()) {
        Ok(_) => Ok(()),
        Err(_refused) => Err(AllocError),
    }
}

/// Adds the row's key and its name to those that were met, and tells whether one was met before.
fn add_names<'a>(names: &mut BTreeMap<&'a str, ()>, row: &'a Syntax) -> Result<bool, AllocError>
    ensures met { IfOk result (λ met. met ≡ was_met (is_met names.old) (row_of row.now)) }
    ensures added { OnOk result
        ((q : List ℕ) → is_met names.new q ≡ (is_met names.old q || has_name q (row_of row.now))) }
{
    let key = row.key.as_str();
    let name = row.name.as_str();
    let key_met = is_met(names, key);
    let name_met = is_met(names, name);
    add_name(names, key)?;
    add_name(names, name)?;
    Ok(key_met || name_met)
}

/// The first row of which a name was met in the rows before it. It fails where memory runs out.
pub fn second_of_name(alloc: Global, rows: &[Syntax]) -> Result<Option<usize>, AllocError>
    ensures within { IfOk result (λ o. IfSome o (λ place. place < length rows.now)) }
    ensures found { IfOk result (λ o. is_some o ≡ names_twice (map row_of rows.now)) }
    ensures shares { IfOk result (λ o. IfSome o
        (λ place. shares_earlier (map row_of rows.now) place ≡ true)) }
    ensures first { IfOk result (λ o. IfSome o
        (λ place. names_twice (take place (map row_of rows.now)) ≡ false)) }
{
    let mut names = BTreeMap::new(alloc);
    for (place, row) in rows.iter().enumerate() {
        if add_names(&mut names, row)? {
            return Ok(Some(place));
        }
    }
    Ok(None)
}

/// The name of one row that is a name of the other one too.
pub fn shared_name<'a>(row: &'a Syntax, other: &Syntax) -> Option<&'a str>
    ensures found { is_some result ≡ shares_name (row_of row.now) (row_of other.now) }
    ensures shared { IfSome result (λ name. (has_name name.now (row_of row.now) ≡ true)
        × (has_name name.now (row_of other.now) ≡ true)) }
{
    if has_name(other, row.key.as_bytes()) {
        Some(row.key.as_str())
    } else if has_name(other, row.name.as_bytes()) {
        Some(row.name.as_str())
    } else {
        None
    }
}

/// Adds the key of each row.
fn add_keys<'a>(texts: &mut Vec<&'a str>, rows: &'a [Syntax]) -> Result<(), AllocError>
    ensures { OnOk result
        (words_of texts.new.items ≡ words_of texts.old.items ++ keys_of (map row_of rows.now)) }
{
    for row in rows {
        texts.push(row.key.as_str())?;
    }
    Ok(())
}

/// Adds the name of each row whose name isn't its key.
fn add_other_names<'a>(texts: &mut Vec<&'a str>, rows: &'a [Syntax]) -> Result<(), AllocError>
    ensures { OnOk result (words_of texts.new.items
        ≡ words_of texts.old.items ++ other_names_of (map row_of rows.now)) }
{
    for row in rows {
        let name = row.name.as_str();
        if name != row.key.as_str() {
            texts.push(name)?;
        }
    }
    Ok(())
}

/// Whether each text is below the next one, byte by byte.
fn ascend(texts: &[&str]) -> bool
    ensures { IsAllAdjacentAnswer (λ x y b. b ≡ is_lt (slice_cmp nat_cmp x.now y.now))
        texts.now result }
{
    texts.is_sorted_by(|text, next| *text < *next)
}

/// Whether a text is key or name of two rows. It fails where memory runs out.
pub fn names_twice(alloc: Global, rows: &[Syntax]) -> Result<bool, AllocError>
    ensures { IfOk result (λ twice. twice ≡ names_twice (map row_of rows.now)) }
{
    // The keys stand before the names, since a sort is quick where much is in order already.
    let mut texts = Vec::with_capacity(alloc, rows.len())?;
    add_keys(&mut texts, rows)?;
    add_other_names(&mut texts, rows)?;
    texts.sort()?;
    Ok(!ascend(&texts))
}
