//! What a configuration adds to a language.
ghost use Rattle.std.specs.Prelude.{◌≡◌, []};

use std::alloc::Global;

/// What a configuration adds to a language.
#[derive(Debug, Drop)]
pub struct LanguageConfig {
    /// The extensions that the language gains, where no language has them yet.
    pub extensions: Vec<String>,
}

impl LanguageConfig {
    /// Adds no extension; takes no memory.
    pub fn new(alloc: Global) -> LanguageConfig
        ensures { result.extensions.items ≡ [] }
    {
        LanguageConfig {
            extensions: Vec::new(alloc),
        }
    }

    /// Puts these extensions in the place of those that were there.
    pub fn extensions(&mut self, extensions: Vec<String>)
        ensures { self.new.extensions ≡ extensions }
    {
        self.extensions = extensions;
    }
}
