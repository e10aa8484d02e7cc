//! The texts that a line has to hold to be walked.
ghost use Rattle.std.specs.Prelude.{◌≡◌, ◌<◌, length, true, IfOk};
ghost use Rattle.std.specs.List.{list_all};
ghost use Rattle.tokei_table_rules.specs.Lookups.{row_at};
ghost use Rattle.tokei_table_rules.specs.Openers.{important_syntax, openers};
ghost use Rattle.tokei_table_row.specs.FirstOpener.{is_nonempty};
ghost use Rattle.tokei_table_row.specs.RowOf.{tokens_of};

use crate::language_type::LanguageType;
use crate::table::LanguageTable;
use std::alloc::{AllocError, Global};
use tokei_table_rules::openers::{important_syntax, openers};

impl LanguageType {
    /// The starts of string literals, of documentation in them and of comments, the member
    /// `important_syntax`, and in a language of kind `html` the tags with their bracket. It fails
    /// where memory runs out.
    pub fn important_syntax(
        self,
        alloc: Global,
        table: &LanguageTable,
    ) -> Result<Vec<String>, AllocError>
        requires { self < length table.now }
        ensures { IfOk result (λ v. tokens_of v.items ≡ important_syntax (row_at table.now self)) }
    {
        important_syntax(alloc, table.syntax(self))
    }

    /// What `important_syntax` answers, then the starts of string literals in which a backslash
    /// means itself, then what opens children. It fails where memory runs out.
    pub fn openers(self, alloc: Global, table: &LanguageTable) -> Result<Vec<String>, AllocError>
        requires { self < length table.now }
        ensures value { IfOk result (λ v. tokens_of v.items ≡ openers (row_at table.now self)) }
        ensures nonempty { IfOk result (λ v. list_all is_nonempty (tokens_of v.items) ≡ true) }
    {
        openers(alloc, table.syntax(self))
    }
}
