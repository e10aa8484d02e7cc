//! Laws of tables and of languages.
ghost use Rattle.std.specs.Prelude.{◌≡◌, fold, nat_eq};
ghost use Rattle.std.specs.Hash as fed;
ghost use Rattle.std.specs.Ordering.{nat_cmp};
ghost use Rattle.tokei_table.specs.TableLaws.{ExtendedTablesAreWellFormed};
ghost use Rattle.tokei_table.specs.WellFormed.{IsWellFormed};

use crate::language_type::LanguageType;
use crate::table::LanguageTable;
use std::cmp::Ordering;
use std::hash::{Hash, Hasher};

/// Every table is well formed.
pub fn tables_are_well_formed(table: &LanguageTable)
    ensures { IsWellFormed table.now }
{
    let _len = table.len();
}

/// A well-formed table is well formed when languages have gained extensions.
pub fn extended_tables_are_well_formed()
    ensures { ExtendedTablesAreWellFormed }
{}

/// Languages are equal by `==` exactly where their places are.
pub fn equality_is_of_places(language: LanguageType, other: LanguageType) -> bool
    ensures { result ≡ nat_eq language other }
{
    language == other
}

/// The order of languages is that of their places, so the table's.
pub fn order_is_of_places(language: LanguageType, other: LanguageType) -> Ordering
    ensures { result ≡ nat_cmp language other }
{
    language.cmp(&other)
}

/// A language is hashed as its place is.
pub fn hash_is_of_places<H: Hasher>(language: LanguageType, state: &mut H)
    ensures { state.new ≡ fold H.write state.old (fed.usize language) }
{
    language.hash(state);
}
