//! What the texts of a language are searched for openers with.
ghost use Rattle.std.specs.Prelude.{◌≡◌, ℕ, ◌<◌, ◌||◌, true, drop, length, IfOk, IfSome};
ghost use Rattle.tokei_bytes.specs.Slots.{in_slots};
ghost use Rattle.tokei_table.specs.Bytes.{begins_with_one};
ghost use Rattle.tokei_table.specs.FirstOpener.{first_opener, is_first};
ghost use Rattle.tokei_table.specs.Lookups.{row_at};
ghost use Rattle.tokei_table.specs.Openers.{openers};
ghost use Rattle.tokei_table_search.specs.Tellers.{AreTellers};

use std::alloc::{AllocError, Global};
use std::marker::Model;
use tokei_table::{LanguageTable, LanguageType};
use tokei_table_search::{OpenerIndex, Tellers};

/// What the texts of a language are searched for openers with. Contracts see its openers.
#[derive(Drop)]
pub struct SharedMatchers {
    openers: OpenerIndex,
}

impl Model for SharedMatchers {
    ghost use Rattle.std.specs.Prelude.{ℕ, List};

    ghost Value = { List (List ℕ) };

    ghost view = { λ m. m.openers };
}

impl SharedMatchers {
    /// The matchers of a language of the table. It fails where memory runs out.
    pub fn new(
        alloc: Global,
        table: &LanguageTable,
        language: LanguageType,
    ) -> Result<SharedMatchers, AllocError>
        requires { language < length table.now }
        ensures { IfOk result (λ m. m ≡ openers (row_at table.now language)) }
    {
        SharedMatchers::init(alloc, table, language)
    }

    /// The same.
    pub fn init(
        alloc: Global,
        table: &LanguageTable,
        language: LanguageType,
    ) -> Result<SharedMatchers, AllocError>
        requires { language < length table.now }
        ensures { IfOk result (λ m. m ≡ openers (row_at table.now language)) }
    {
        let texts = language.openers(alloc, table)?;
        let openers = OpenerIndex::of_texts(alloc, texts)?;
        Ok(SharedMatchers { openers })
    }

    /// The least place of the text at which an opener stands, None where none does. It takes no
    /// memory.
    pub fn first_in(&self, text: &[u8]) -> Option<usize>
        ensures { result ≡ first_opener self.now text.now }
    {
        self.openers.first_in(text)
    }

    /// Whether an opener stands at the place of the text.
    #[inline(always)]
    pub(crate) fn stands_at(&self, text: &[u8], at: usize) -> bool
        requires { at < length text.now }
        ensures { result ≡ begins_with_one self.now (drop at text.now) }
    {
        self.openers.stands_at(text, at)
    }

    /// The bytes that tell the openers, where slots have room for them.
    pub(crate) fn tellers(&self) -> Option<Tellers>
        ensures { IfSome result (λ t. AreTellers t self.now) }
    {
        self.openers.tellers()
    }

    /// Puts the first byte of each opener into the slot of its low half in one of two tables;
    /// whether each stands in one then, beside those alone that stood in one before.
    pub(crate) fn put_firsts(&self, slots: &mut [u8; 16], others: &mut [u8; 16]) -> bool
        ensures { result ≡ true → (x : ℕ) → in_slots slots.new others.new x
            ≡ (in_slots slots.old others.old x || is_first self.now x) }
    {
        self.openers.put_firsts(slots, others)
    }
}
