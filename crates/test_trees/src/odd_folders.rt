//! Folders that are watched, of which each may have a name that is no text.
ghost use Rattle.std.specs.Prelude.{◌≡◌};

use tokei_folders::{Above, Fault, Folders, Kind, Listing};

/// Folders whose calls are counted. They tell no tree.
#[derive(Drop)]
pub struct Watched<F> {
    pub inner: F,
    /// Whether each has a name more, which isn't UTF-8.
    pub unnamed: bool,
    pub calls: u64,
    /// Of these those of `read`.
    pub reads: u64,
}

impl<F: Folders> Watched<F> {
    fn count(&mut self)
        ensures { self.new.inner ≡ self.old.inner }
    {
        self.calls = self.calls.saturating_add(1);
    }
}

impl<F: Folders> Folders for Watched<F> {
    ghost use Rattle.std.specs.Prelude.{None};

    ghost tree = { λ _. None };

    ghost memory_faults = { λ s. F.memory_faults s.inner };

    ghost sound = { λ _. tt };

    fn kind(&mut self, place: &str) -> Result<Kind, Fault> {
        self.count();
        self.inner.kind(place)
    }

    fn list(&mut self, place: &str) -> Result<Listing, Fault> {
        self.count();
        let mut listed = self.inner.list(place);
        if let (Ok(listing), true) = (&mut listed, self.unnamed) {
            listing.unnamed = 1;
        }
        listed
    }

    fn read(&mut self, place: &str) -> Result<Vec<u8>, Fault> {
        self.count();
        self.reads = self.reads.saturating_add(1);
        self.inner.read(place)
    }

    fn head(&mut self, place: &str) -> Result<Vec<u8>, Fault> {
        self.count();
        self.inner.head(place)
    }

    fn above(&mut self, place: &str) -> Result<Vec<Above>, Fault> {
        self.count();
        self.inner.above(place)
    }
}
