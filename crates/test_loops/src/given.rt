//! What tests give to calls: texts, files, a table of two languages, and earlier lines of one.
use std::alloc::{AllocError, Global};
use tokei_folders::Fault;
use tokei_languages::{Language, Languages};
use tokei_memory::MemoryFolders;
use tokei_table::{LanguageTable, LanguageType};
use tokei_table_json::{FromJson, TableError};

/// The words as owned texts.
pub fn texts(alloc: Global, words: &[&str]) -> Result<Vec<String>, AllocError> {
    let mut texts = Vec::new(alloc);
    for word in words {
        texts.push(String::from_str(alloc, word)?)?;
    }
    Ok(texts)
}

/// Folders in memory that hold files of these places and contents.
pub fn files(alloc: Global, contents: &[(&str, &str)]) -> Result<MemoryFolders, Fault> {
    let mut folders = MemoryFolders::new(alloc);
    for (place, content) in contents {
        folders.add_file(place, content.as_bytes())?;
    }
    Ok(folders)
}

/// A table of C and D.
pub fn two_languages(alloc: Global) -> Result<LanguageTable, TableError> {
    LanguageTable::from_json(alloc, br#"{"languages":{"C":{"extensions":["c"]},"D":{}}}"#)
}

/// Languages of which that one has seven lines of code; `None` where there is no memory for it.
pub fn seven_lines(alloc: Global, language: LanguageType) -> Option<Languages> {
    let mut languages = Languages::new(alloc);
    let mut seven = Language::new(alloc);
    seven.code = 7;
    match languages.insert(language, seven) {
        Ok(_none) => Some(languages),
        Err(_) => None,
    }
}
