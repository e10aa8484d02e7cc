//! Sets of bytes that a text is searched for.
ghost use Rattle.std.specs.Prelude.{◌≡◌, ℕ, ◌<◌, ◌≤◌, ◌==◌, ◌||◌, ◌⊎◌, true, false, length, replicate, IfSome};
ghost use Rattle.std.specs.Prelude.{slice_index};
ghost use Rattle.tokei_bytes.specs.ByteSets.{AreSlotted, AreSlottedAlone, HasFew, is_in, with_one};
ghost use Rattle.tokei_bytes.specs.FirstPlace.{IsFirstPlace};
ghost use Rattle.tokei_bytes.specs.OneOf.{is_one_of};
ghost use Rattle.tokei_bytes.specs.Slots.{in_slots, is_slotted};

use crate::one_of::first_of_four;
use crate::slots::{NO_SLOTS, first_slotted, put_slot, slotted_end};
use std::marker::Model;

/// How many bytes are searched for at once.
pub(crate) const FEW: u8 = 4;

/// A set of bytes. Contracts see a flag for each byte, which says whether it is in the set.
#[derive(Drop)]
pub struct ByteSet {
    flags: [bool; 256],
    /// The first `count` of them are the bytes of the set, where those are at most four, and each
    /// is one where there are any.
    few: [u8; 4],
    count: u8,
    /// Each byte of the set, and no other, in the slot of its low half, where `has_slots`, here or
    /// in `others`; here alone where `is_slotted`.
    slots: [u8; 16],
    others: [u8; 16],
    has_slots: bool,
    is_slotted: bool,
}

impl Model for ByteSet {
    ghost use Rattle.std.specs.Prelude.{◌≡◌, Bool, List, length};
    ghost use Rattle.tokei_bytes.specs.ByteSets.{AreSlotted, AreSlottedAlone, HasFew};

    ghost Value = { List Bool };

    ghost view = { λ s. s.flags };

    ghost invariant = { λ s. (length s.flags ≡ 256) × (HasFew s.flags s.few s.count
        × (AreSlotted s.flags s.slots s.others s.has_slots
        × AreSlottedAlone s.flags s.slots s.is_slotted)) };
}

/// The byte in front of the first three of some few, or that byte alone where there are none.
pub(crate) fn with_one(few: [u8; 4], count: u8, byte: u8) -> [u8; 4]
    ensures { result ≡ with_one few count byte }
{
    if count == 0 {
        [byte; 4]
    } else {
        [byte, few[0], few[1], few[2]]
    }
}

/// Puts the byte that isn't `put` yet into its slot, where the others have theirs; whether all
/// have.
fn put_beside(put: bool, others: &mut [u8; 16], have_slots: bool, byte: u8) -> bool
    ensures before { result ≡ true → have_slots ≡ true }
    ensures stays { result ≡ true → (x : ℕ) → is_slotted others.old x ≡ true
        → is_slotted others.new x ≡ true }
    ensures put { result ≡ true → put ≡ false → is_slotted others.new byte ≡ true }
    ensures only { (x : ℕ) → is_slotted others.new x ≡ true
        → (is_slotted others.old x ≡ true) ⊎ (x ≡ byte) }
{
    have_slots && (put || put_slot(others, byte))
}

impl ByteSet {
    /// The set of no bytes.
    pub fn empty() -> ByteSet
        ensures { result ≡ replicate 256 false }
    {
        ByteSet {
            flags: [false; 256],
            few: [0; 4],
            count: 0,
            slots: NO_SLOTS,
            others: NO_SLOTS,
            has_slots: true,
            is_slotted: true,
        }
    }

    /// Puts the byte into the set.
    pub fn insert(&mut self, byte: u8)
        ensures long { length self.new ≡ length self.old }
        ensures each { (x : ℕ) → is_in self.new x ≡ (is_in self.old x || (x == byte)) }
    {
        if self.flags[byte as usize] {
            return;
        }
        self.flags[byte as usize] = true;
        let alone = put_slot(&mut self.slots, byte);
        self.is_slotted = self.is_slotted && alone;
        self.has_slots = put_beside(alone, &mut self.others, self.has_slots, byte);
        if self.count <= FEW {
            self.few = with_one(self.few, self.count, byte);
            self.count += 1;
        }
    }

    /// Whether the byte is in the set.
    #[inline(always)]
    pub fn has(&self, byte: u8) -> bool
        ensures { result ≡ is_in self.now byte }
    {
        self.flags[byte as usize]
    }

    /// Two tables of slots, in one of which each byte of the set stands, and no other byte, where no
    /// three of them have the same low half. The second one has none where no two have.
    pub fn slots(&self) -> Option<([u8; 16], [u8; 16])>
        ensures { IfSome result (λ tables. (b : ℕ) → b < 256
            → in_slots tables.0 tables.1 b ≡ is_in self.now b) }
    {
        if self.has_slots {
            Some((self.slots, self.others))
        } else {
            None
        }
    }

    /// The bytes of the set, some more than once, where they are one to four.
    #[inline(always)]
    fn few(&self) -> Option<[u8; 4]>
        ensures holds { IfSome result (λ few. (b : ℕ) → b < 256 → is_in self.now b ≡ true
            → is_one_of few b ≡ true) }
        ensures held { IfSome result (λ few. (b : ℕ) → is_one_of few b ≡ true
            → is_in self.now b ≡ true) }
    {
        if self.count == 0 || FEW < self.count {
            return None;
        }
        Some(self.few)
    }

    /// The first place of the text, from `from` to before `to`, whose byte is in the set, or `to`
    /// where none is. A place counts the bytes of the text before it.
    #[inline(always)]
    pub fn clear_end(&self, text: &[u8], from: usize, to: usize) -> usize
        requires order { from ≤ to }
        requires within { to ≤ length text.now }
        ensures { IsFirstPlace (is_in self.now) text.now from to result }
    {
        if self.is_slotted {
            return first_slotted(self.slots, text, from, to);
        }
        match self.few() {
            Some(few) => first_of_four(few, text, from, to),
            None => self.clear_end_of_many(text, from, to),
        }
    }

    /// The same where the set has more bytes. It stands in no caller's code, which mostly has few.
    #[inline(never)]
    fn clear_end_of_many(&self, text: &[u8], from: usize, to: usize) -> usize
        requires order { from ≤ to }
        requires within { to ≤ length text.now }
        ensures { IsFirstPlace (is_in self.now) text.now from to result }
    {
        let mut at = self.clear_blocks(text, from, to);
        while at < to && !self.has(text[at]) {
            at += 1;
        }
        at
    }

    /// Up to which place, from `from` on and no further than `to`, blocks of the text have no byte
    /// of the set: `from` itself, where the bytes have no slots.
    #[inline(always)]
    fn clear_blocks(&self, text: &[u8], from: usize, to: usize) -> usize
        requires order { from ≤ to }
        requires within { to ≤ length text.now }
        ensures low { from ≤ result }
        ensures high { result ≤ to }
        ensures passed { (p : ℕ) → from ≤ p → p < result
            → is_in self.now (slice_index text.now p) ≡ false }
    {
        if !self.has_slots {
            return from;
        }
        to.min(slotted_end(self.slots, self.others, text, from, to))
    }
}
