//! Texts that are known, of which one is found without a walk over them.
ghost use Rattle.std.specs.Prelude.{◌≡◌, ◌++◌, [], ◌∷◌, not, if◌then◌else◌, IfOk, OnOk};
ghost use Rattle.tokei_table_row.specs.Bytes.{holds};

use crate::names::{add_name, is_met};
use std::alloc::{AllocError, Global};
use std::collections::BTreeMap;
use std::marker::Model;

/// Texts in the order in which they were added. Contracts see them as a list.
#[derive(Drop)]
pub struct KnownTexts<'a> {
    texts: Vec<&'a str>,
    met: BTreeMap<&'a str, ()>,
}

impl<'a> Model for KnownTexts<'a> {
    ghost use Rattle.std.specs.Prelude.{ℕ, List};
    ghost use Rattle.tokei_table_rules.specs.MetNames.{words_of, AreMet};

    ghost Value = { List (List ℕ) };

    ghost view = { λ k. words_of k.texts.items };

    ghost invariant = { λ k. AreMet k.met (words_of k.texts.items) };
}

impl<'a> KnownTexts<'a> {
    /// No texts.
    pub fn new(alloc: Global) -> KnownTexts<'a>
        ensures { result ≡ [] }
    {
        KnownTexts {
            texts: Vec::new(alloc),
            met: BTreeMap::new(alloc),
        }
    }

    /// Adds the text, be it known or not. It fails where memory runs out.
    pub fn add(&mut self, text: &'a str) -> Result<(), AllocError>
        ensures { OnOk result (self.new ≡ self.old ++ text.now ∷ []) }
    {
        self.texts.push(text)?;
        match add_name(&mut self.met, text) {
            Ok(()) => Ok(()),
            Err(refused) => {
                let _last = self.texts.pop();
                Err(refused)
            }
        }
    }

    /// Adds the text unless it is known, and tells whether it was added. It fails where memory runs
    /// out.
    pub fn add_new(&mut self, text: &'a str) -> Result<bool, AllocError>
        ensures added { IfOk result (λ added. added ≡ not (holds self.old text.now)) }
        ensures texts { IfOk result (λ added. self.new
            ≡ (if added then self.old ++ text.now ∷ [] else self.old)) }
    {
        if is_met(&self.met, text) {
            return Ok(false);
        }
        self.add(text)?;
        Ok(true)
    }
}
