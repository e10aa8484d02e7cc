//! Which language of a table a word, a MIME type, a file's name or a script's head stands for. Of
//! two languages the first in the table is answered.
ghost use Rattle.std.specs.Prelude.{◌≡◌, ◌<◌, length, not, IfOk, IfSome};
ghost use Rattle.std.specs.Char.{is_ascii_uppercase};
ghost use Rattle.std.specs.List.{list_any};
ghost use Rattle.tokei_table_rules.specs.Lookups.{first_where, has_name, has_name_in_any_case, has_mime};
ghost use Rattle.tokei_table_rules.specs.Lookups.{has_extension, from_file_name, from_lowered_name};
ghost use Rattle.tokei_table_rules.specs.Shebangs.{from_shebang};

use crate::language_type::LanguageType;
use crate::table::LanguageTable;
use std::alloc::{AllocError, Global};
pub use tokei_table_rules::lookups::has_extension;
use tokei_table_rules::lookups::{
    in_head, in_lowered_name, with_extension, with_mime, with_name, with_name_in_any_case,
};

fn language(found: Option<usize>) -> Option<LanguageType>
    ensures { result ≡ found }
{
    match found {
        Some(at) => Some(LanguageType::at(at)),
        None => None,
    }
}

/// Whether a name has no letter that a look-up lowers.
fn is_lowered(name: &str) -> bool
    ensures { result ≡ not (list_any is_ascii_uppercase name.now) }
{
    for byte in name.as_bytes() {
        if byte.is_ascii_uppercase() {
            return false;
        }
    }
    true
}

/// The language of a file of that name, which is in lower case.
fn of_lowered(table: &LanguageTable, name: &[u8]) -> Option<LanguageType>
    ensures value { result ≡ from_lowered_name table.now name.now }
    ensures of_table { IfSome result (λ l. l < length table.now) }
{
    language(in_lowered_name(table.indexed_rows(), name))
}

impl LanguageType {
    /// The language with that key or name.
    pub fn from_name(table: &LanguageTable, name: &str) -> Option<LanguageType>
        ensures value { result ≡ first_where (has_name name.now) table.now }
        ensures of_table { IfSome result (λ l. l < length table.now) }
    {
        language(with_name(table.indexed_rows(), name))
    }

    /// The language whose name is that word in any ASCII case.
    pub fn from_str(table: &LanguageTable, word: &str) -> Option<LanguageType>
        ensures value { result ≡ first_where (has_name_in_any_case word.now) table.now }
        ensures of_table { IfSome result (λ l. l < length table.now) }
    {
        language(with_name_in_any_case(table.indexed_rows(), word))
    }

    /// The language with that MIME type.
    pub fn from_mime(table: &LanguageTable, mime: &str) -> Option<LanguageType>
        ensures value { result ≡ first_where (has_mime mime.now) table.now }
        ensures of_table { IfSome result (λ l. l < length table.now) }
    {
        language(with_mime(table.rows(), mime.as_bytes()))
    }

    /// The language with that extension, without its dot and as it stands.
    pub fn from_file_extension(table: &LanguageTable, extension: &str) -> Option<LanguageType>
        ensures value { result ≡ first_where (has_extension extension.now) table.now }
        ensures of_table { IfSome result (λ l. l < length table.now) }
    {
        language(with_extension(table.indexed_rows(), extension.as_bytes()))
    }

    /// The language of a file of that name, whatever it holds: by the whole name, else by a suffix
    /// of it, else by its extension, each in ASCII lower case. It fails where memory runs out.
    pub fn from_file_name(
        alloc: Global,
        table: &LanguageTable,
        name: &str,
    ) -> Result<Option<LanguageType>, AllocError>
        ensures value { IfOk result (λ o. o ≡ from_file_name table.now name.now) }
        ensures of_table { IfOk result (λ o. IfSome o (λ l. l < length table.now)) }
    {
        // most names have no capital, and so needn't be copied
        if is_lowered(name) {
            return Ok(of_lowered(table, name.as_bytes()));
        }
        let mut lowered = String::from_str(alloc, name)?;
        lowered.make_ascii_lowercase();
        Ok(of_lowered(table, lowered.as_bytes()))
    }

    /// The language of a script with that head, of which the first line of the first 128 bytes is
    /// looked at: its first word names the program, or the second does where the first is
    /// `#!/usr/bin/env`.
    pub fn from_shebang_bytes(table: &LanguageTable, head: &[u8]) -> Option<LanguageType>
        ensures value { result ≡ from_shebang table.now head.now }
        ensures of_table { IfSome result (λ l. l < length table.now) }
    {
        language(in_head(table.rows(), head))
    }
}
