//! Sets of bytes that take little memory.
ghost use Rattle.std.specs.Prelude.{◌≡◌, ℕ, ◌<◌, ◌≤◌, ◌==◌, ◌||◌, true, false, length, replicate, IfSome};
ghost use Rattle.tokei_bytes.specs.BitSets.{flags_of};
ghost use Rattle.tokei_bytes.specs.ByteSets.{HasFew, is_in};
ghost use Rattle.tokei_bytes.specs.FirstPlace.{IsFirstPlace};
ghost use Rattle.tokei_bytes.specs.OneOf.{is_one_of};

use crate::byte_set::{FEW, with_one};
use crate::one_of::{first_of_four, first_of_two_or_four};
use std::marker::Model;

/// How many bytes one word has bits for.
const WORD: u8 = 64;

/// A set of bytes, by a bit for each. Contracts see a flag for each byte, which says whether it is
/// in the set.
#[derive(Drop)]
pub struct BitSet {
    /// The lowest bit of the first is that of the byte 0.
    words: [u64; 4],
    /// The first `count` of them are the bytes of the set, where those are at most four, and each
    /// is one where there are any.
    few: [u8; 4],
    count: u8,
}

impl Model for BitSet {
    ghost use Rattle.std.specs.Prelude.{◌≡◌, Bool, List, length};
    ghost use Rattle.tokei_bytes.specs.ByteSets.{HasFew};
    ghost use Rattle.tokei_bytes.specs.BitSets.{flags_of};

    ghost Value = { List Bool };

    ghost view = { λ s. flags_of s.words };

    ghost invariant = { λ s. (length s.words ≡ 4) × HasFew (flags_of s.words) s.few s.count };
}

impl BitSet {
    /// The set of no bytes.
    pub fn empty() -> BitSet
        ensures { result ≡ replicate 256 false }
    {
        BitSet {
            words: [0; 4],
            few: [0; 4],
            count: 0,
        }
    }

    /// Puts the byte into the set.
    pub fn insert(&mut self, byte: u8)
        ensures long { length self.new ≡ length self.old }
        ensures each { (x : ℕ) → is_in self.new x ≡ (is_in self.old x || (x == byte)) }
    {
        if self.has(byte) {
            return;
        }
        self.words[(byte / WORD) as usize] |= 1 << (byte % WORD);
        if self.count <= FEW {
            self.few = with_one(self.few, self.count, byte);
            self.count += 1;
        }
    }

    /// Puts each byte into the set.
    pub fn fill(&mut self)
        ensures { self.new ≡ replicate 256 true }
    {
        self.words = [u64::MAX; 4];
        self.few = [0; 4];
        self.count = FEW + 1;
    }

    /// Whether the byte is in the set.
    #[inline(always)]
    pub fn has(&self, byte: u8) -> bool
        ensures { result ≡ is_in self.now byte }
    {
        (self.words[(byte / WORD) as usize] >> (byte % WORD)) & 1 == 1
    }

    /// The bytes of the set, some more than once, where they are one to four.
    #[inline(always)]
    pub fn few(&self) -> Option<[u8; 4]>
        ensures holds { IfSome result (λ few. (b : ℕ) → b < 256 → is_in self.now b ≡ true
            → is_one_of few b ≡ true) }
        ensures held { IfSome result (λ few. (b : ℕ) → is_one_of few b ≡ true
            → is_in self.now b ≡ true) }
    {
        if self.count == 0 || FEW < self.count {
            return None;
        }
        Some(self.few)
    }

    /// The first place of the text, from `from` to before `to`, whose byte is in the set, or `to`
    /// where none is. A place counts the bytes of the text before it.
    #[inline(always)]
    pub fn clear_end(&self, text: &[u8], from: usize, to: usize) -> usize
        requires order { from ≤ to }
        requires within { to ≤ length text.now }
        ensures { IsFirstPlace (is_in self.now) text.now from to result }
    {
        match self.few() {
            Some(few) => first_of_two_or_four(few, text, from, to),
            None => self.clear_end_of_many(text, from, to),
        }
    }

    /// The same for the bytes of the set and another one.
    #[inline(always)]
    pub fn clear_end_with(&self, other: u8, text: &[u8], from: usize, to: usize) -> usize
        requires order { from ≤ to }
        requires within { to ≤ length text.now }
        ensures { IsFirstPlace (λ x. x == other || is_in self.now x) text.now from to result }
    {
        if self.count == 0 {
            return first_of_four([other; 4], text, from, to);
        }
        if self.count < FEW {
            let few = [self.few[0], self.few[1], self.few[2], other];
            return first_of_four(few, text, from, to);
        }
        let mut at = from;
        while at < to && text[at] != other && !self.has(text[at]) {
            at += 1;
        }
        at
    }

    /// What `clear_end` answers where the bytes aren't one to four. It stands in no caller's code,
    /// which mostly has few.
    #[inline(never)]
    fn clear_end_of_many(&self, text: &[u8], from: usize, to: usize) -> usize
        requires order { from ≤ to }
        requires within { to ≤ length text.now }
        ensures { IsFirstPlace (is_in self.now) text.now from to result }
    {
        let mut at = from;
        while at < to && !self.has(text[at]) {
            at += 1;
        }
        at
    }
}
