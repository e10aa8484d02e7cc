//! Why calls on places were refused.
use std::alloc::{AllocError, Global};
use std::collections::BTreeMap;
use std::io::Error;

/// A refused call: its place, and why.
#[derive(Drop)]
pub(crate) struct Refusal {
    pub place: String,
    pub error: Error,
}

/// The system's error of the last refused call on each place. Where memory for one fails, it isn't
/// kept.
#[derive(Drop)]
pub(crate) struct Refusals {
    errors: BTreeMap<String, Error>,
}

impl Refusals {
    /// Those of no call.
    pub(crate) fn new(alloc: Global) -> Refusals {
        Refusals {
            errors: BTreeMap::new(alloc),
        }
    }

    /// Keeps a refusal.
    fn put(&mut self, refusal: Refusal) {
        let Refusal { place, error } = refusal;
        let _kept = self.errors.insert(place, error);
    }

    /// Keeps why a call on a place was refused.
    pub(crate) fn keep(&mut self, alloc: Global, place: &str, error: Error) {
        if let Ok(place) = String::from_str(alloc, place) {
            self.put(Refusal { place, error });
        }
    }

    /// Keeps all of these.
    pub(crate) fn keep_all(&mut self, refusals: Vec<Refusal>) {
        for refusal in refusals {
            self.put(refusal);
        }
    }

    /// Why the last refused call on a place was refused, in the system's words; empty where that
    /// isn't kept.
    pub(crate) fn words(&self, alloc: Global, place: &str) -> Result<String, AllocError> {
        match self.errors.get(place) {
            Some(error) => format!(in alloc; "{error}"),
            None => Ok(String::new(alloc)),
        }
    }
}
