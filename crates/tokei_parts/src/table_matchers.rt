//! What the texts of all languages of a table are searched and walked with.
ghost use Rattle.std.specs.Prelude.{◌≡◌, ◌+◌, ◌<◌, ◌++◌, [], ◌∷◌, length, map, take, IfOk, slice_index_or};
ghost use Rattle.tokei_table.specs.Lookups.{row_at};
ghost use Rattle.tokei_table.specs.WellFormed.{IsWellFormed};
ghost use Rattle.tokei_parts.specs.Matchers.{Matchers, matchers_of};
ghost use Rattle.tokei_parts.specs.TableMatchers.{behind};

use crate::alike::{MARKS, are_alike, mark_of};
use crate::matchers::LanguageMatchers;
use std::alloc::{AllocError, Global};
use std::marker::Model;
use std::rc::Rc;
use tokei_table::{LanguageTable, LanguageType};

/// The matchers of each language of a table, in its order. Languages of which the table says the
/// same share theirs. Contracts see the list of the matchers.
#[derive(Drop)]
pub struct TableMatchers<'t> {
    all: Vec<Rc<LanguageMatchers<'t>>>,
}

impl<'t> Model for TableMatchers<'t> {
    ghost use Rattle.std.specs.Prelude.{List};
    ghost use Rattle.tokei_parts.specs.Matchers.{Matchers};
    ghost use Rattle.tokei_parts.specs.TableMatchers.{behind};

    ghost Value = { List Matchers };

    ghost view = { λ m. behind m.all.items };
}

/// Adds matchers of a language of the table. It fails where memory runs out.
fn push_new<'t>(
    all: &mut Vec<Rc<LanguageMatchers<'t>>>,
    alloc: Global,
    table: &'t LanguageTable,
    language: LanguageType,
) -> Result<(), AllocError>
    requires { language < length table.now }
    ensures { IfOk result (λ _. behind all.new.items
        ≡ behind all.old.items ++ matchers_of (row_at table.now language) ∷ []) }
{
    let made = LanguageMatchers::new(alloc, table, language)?;
    let shared = Rc::new(alloc, made)?;
    all.push(shared)?;
    Ok(())
}

/// Adds those at the place once more. It fails where memory runs out.
fn push_again<'t>(all: &mut Vec<Rc<LanguageMatchers<'t>>>, place: usize) -> Result<(), AllocError>
    requires { place < length all.old.items }
    ensures { IfOk result (λ _. (d : Matchers) → behind all.new.items
        ≡ behind all.old.items ++ slice_index_or (behind all.old.items) place d ∷ []) }
{
    let shared = all[place].clone()?;
    all.push(shared)?;
    Ok(())
}

/// Adds the matchers of the table's next language. Another one may be named whose matchers it
/// shares, if it has some by now and the table says the same of both. It fails where memory runs
/// out.
fn push_matchers<'t>(
    all: &mut Vec<Rc<LanguageMatchers<'t>>>,
    alloc: Global,
    table: &'t LanguageTable,
    like: Option<LanguageType>,
    language: LanguageType,
) -> Result<(), AllocError>
    requires known { language < length table.now }
    requires next { behind all.old.items ≡ map matchers_of (take language table.now) }
    ensures { IfOk result (λ _. behind all.new.items
        ≡ map matchers_of (take (language + 1) table.now)) }
{
    if let Some(other) = like {
        if other.index() < all.len() {
            let syntax = table.syntax(other);
            if are_alike(syntax, table.syntax(language)) {
                return push_again(all, other.index());
            }
        }
    }
    push_new(all, alloc, table, language)
}

impl<'t> TableMatchers<'t> {
    /// The matchers of each language of the table. It fails where memory runs out.
    pub fn new(alloc: Global, table: &'t LanguageTable) -> Result<TableMatchers<'t>, AllocError>
        ensures matchers { IfOk result (λ m. m ≡ map matchers_of table.now) }
        ensures well_formed { IfOk result (λ _. IsWellFormed table.now) }
    {
        let languages = LanguageType::list(alloc, table)?;
        let mut all = Vec::with_capacity(alloc, table.len())?;
        // the last language of each mark
        let mut last = [None; MARKS];
        for (language, _) in languages.as_slice() {
            let mark = mark_of(table.syntax(*language));
            push_matchers(&mut all, alloc, table, last[mark], *language)?;
            last[mark] = Some(*language);
        }
        Ok(TableMatchers { all })
    }

    /// The matchers of a language of the table.
    pub fn of(&self, language: LanguageType) -> &LanguageMatchers<'t>
        requires { language < length self.now }
        ensures { (d : Matchers) → result.now ≡ slice_index_or self.entry.now language d }
    {
        self.all[language.index()].as_ref()
    }
}
