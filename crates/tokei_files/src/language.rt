//! The language in which a file is counted.
ghost use Rattle.std.specs.Prelude.{◌≡◌, ◌<◌, length, IfOk, IfSome};
ghost use Rattle.tokei_folders.specs.Answers.{Told};
ghost use Rattle.tokei_files.specs.Files.{counts, language_of_file};
ghost use Rattle.tokei_files.specs.Seen.{counting_of};
ghost use Rattle.tokei_folders.specs.AsTheyWere.{AsTheyWere};

use crate::counting::Counting;
use crate::paths::language_of_path;
use std::alloc::AllocError;
use tokei_folders::Folders;
use tokei_table::LanguageType;
use tokei_walk::KeptFile;

impl Counting<'_, '_> {
    /// Whether files of the language are counted.
    fn counts(&self, language: LanguageType) -> bool
        ensures { result ≡ counts (counting_of self.now).types language }
    {
        match self.types {
            None => true,
            Some(types) => types.contains(&language),
        }
    }

    /// The language in which a file is counted, if in any.
    pub fn language<F: Folders>(
        &self,
        folders: &mut F,
        file: &KeptFile,
    ) -> Result<Option<LanguageType>, AllocError>
        ensures folders { AsTheyWere F.tree F.memory_faults folders.old folders.new result }
        ensures told { Told (F.tree folders.old) (λ t. IfOk result (λ o.
            o ≡ language_of_file (counting_of self.now) t file.now)) }
        ensures of_table { IfOk result (λ o. IfSome o (λ l. l < length self.now.counter.now)) }
    {
        let table = self.counter.table();
        match language_of_path(self.alloc, table, folders, file.place.as_str())? {
            Some(language) if self.counts(language) => Ok(Some(language)),
            _ => Ok(None),
        }
    }
}
