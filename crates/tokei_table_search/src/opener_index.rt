//! The openers of a language, ready for a search of a text.
ghost use Rattle.std.specs.Prelude.{◌≡◌, ◌↔◌, ◌+◌, ◌≤◌, ◌<◌, ℕ, List, ◌∷◌, length, map, drop, slice_index, ◌||◌, true};
ghost use Rattle.std.specs.Prelude.{false};
ghost use Rattle.std.specs.Prelude.{IfOk, IfSome, IsSome, OnOk, MatchOption};
ghost use Rattle.std.specs.List.{list_all};
ghost use Rattle.tokei_table_row.specs.FirstOpener.{first_opener, is_first, is_first_of, is_nonempty};
ghost use Rattle.tokei_bytes.specs.OneOf.{is_one_of};
ghost use Rattle.tokei_bytes.specs.Slots.{in_slots, is_slotted};
ghost use Rattle.tokei_table_search.specs.OpenerGroups.{IsGroupOf, AreGroupsOf};
ghost use Rattle.tokei_table_row.specs.Bytes.{begins_with_one};
ghost use Rattle.tokei_table_search.specs.NearBytes.{SameBytes, AreNear};
ghost use Rattle.tokei_table_search.specs.NearBytes.{SameSlotted, AreSlots};
ghost use Rattle.tokei_table_search.specs.Tellers.{AreTellers};
ghost use Rattle.memchr.specs.Find.{IsFirstByte};
ghost use Rattle.tokei_table_row.specs.RowOf.{tokens_of};

use crate::opener_group::OpenerGroup;
use crate::tellers::{Tellers, tellers_of};
use memchr::{memchr, memchr2, memchr3};
use std::alloc::{AllocError, Global};
use std::marker::Model;
use tokei_bytes::{
    BLOCK, NO_SLOTS, first_of_two_or_four, first_slotted, next_pair, put_slot, put_slot_of_two,
    told_end,
};
use tokei_table_row::ext::begins_with_one;

/// How many bytes are searched at first for more than three bytes.
const FIRST_BLOCK: usize = 64;

/// The most bytes that are searched at a time for more than three bytes, or for bytes by those
/// behind them.
const LARGEST_BLOCK: usize = 4096;

/// How close a byte that can begin an opener stands to the place behind another one, where such are
/// taken to come often.
const CLOSE: usize = 8;

/// How many bytes are searched at first for bytes by those behind them.
const FIRST_WIDTH: usize = 32;

/// How many bytes are close by. Further ahead the searches of `memchr` are quicker.
const NEAR: usize = 256;

/// The openers of a language, and what can follow each first byte of theirs. Contracts see it as
/// the list of the openers.
#[derive(Drop)]
pub struct OpenerIndex {
    /// As they were given.
    openers: Vec<String>,
    firsts: Vec<u8>,
    /// The first bytes, where they are one to four; those that are fewer than four are named more
    /// than once.
    near: Option<[u8; 4]>,
    /// The first bytes, each in the slot of its low half, where there are some and no two of them
    /// have the same.
    slots: Option<[u8; 16]>,
    /// For each of the first bytes what can follow it.
    groups: Vec<OpenerGroup>,
    /// The bytes that tell its openers, where slots have room for them.
    tellers: Option<Tellers>,
    /// Whether it is searched by the bytes that tell its openers.
    by_two: bool,
}

impl Model for OpenerIndex {
    ghost use Rattle.std.specs.Prelude.{ℕ, List, IfSome};

    ghost Value = { List (List ℕ) };

    ghost use Rattle.tokei_table_search.specs.NearBytes.{AreNear, AreSlots};
    ghost use Rattle.tokei_table_search.specs.OpenerGroups.{IsIndexOf};
    ghost use Rattle.tokei_table_search.specs.Tellers.{AreTellers};
    ghost use Rattle.tokei_table_row.specs.RowOf.{tokens_of};

    ghost view = { λ x. tokens_of x.openers.items };

    ghost invariant = { λ x. IsIndexOf (tokens_of x.openers.items) x.firsts.items x.groups.items
        × (AreNear x.near x.firsts.items × (AreSlots x.slots x.firsts.items
        × IfSome x.tellers (λ t. AreTellers t (tokens_of x.openers.items)))) };
}

#[inline(always)]
fn is_one_of(bytes: &[u8], byte: u8) -> bool
    ensures { result ≡ is_one_of bytes.now byte }
{
    for known in bytes {
        if byte == *known {
            return true;
        }
    }
    false
}

fn add_first(firsts: &mut Vec<u8>, opener: &[u8]) -> Result<(), AllocError>
    ensures { OnOk result ((x : ℕ) →
        is_one_of firsts.new.items x ≡ (is_one_of firsts.old.items x || is_first_of x opener.now)) }
{
    match opener {
        [] => Ok(()),
        [first, ..] => {
            if is_one_of(firsts, *first) {
                return Ok(());
            }
            firsts.push(*first)?;
            Ok(())
        }
    }
}

/// The distinct first bytes of the openers.
fn first_bytes(alloc: Global, openers: &[String]) -> Result<Vec<u8>, AllocError>
    ensures { IfOk result (λ v. (x : ℕ)
        → is_one_of v.items x ≡ is_first (tokens_of openers.now) x) }
{
    let mut firsts = Vec::with_capacity(alloc, openers.len())?;
    for opener in openers {
        add_first(&mut firsts, opener.as_bytes())?;
    }
    Ok(firsts)
}

/// The bytes of the list, where they are one to four.
fn near_of(firsts: &[u8]) -> Option<[u8; 4]>
    ensures same { AreNear result firsts.now }
    ensures some { IsSome result ↔ (0 < length firsts.now × length firsts.now ≤ 4) }
{
    match firsts {
        [a] => Some([*a, *a, *a, *a]),
        [a, b] => Some([*a, *b, *a, *b]),
        [a, b, c] => Some([*a, *b, *c, *a]),
        [a, b, c, d] => Some([*a, *b, *c, *d]),
        _ => None,
    }
}

/// The bytes of the list in their slots, where there are some and each has one of its own.
fn slots_of(firsts: &[u8]) -> Option<[u8; 16]>
    ensures { AreSlots result firsts.now }
{
    if firsts.is_empty() {
        return None;
    }
    let mut slots = NO_SLOTS;
    if put_all(&mut slots, firsts) {
        Some(slots)
    } else {
        None
    }
}

/// Puts each byte of the list into its slot; whether none that had one of these was put there
/// before.
fn put_all(slots: &mut [u8; 16], bytes: &[u8]) -> bool
    ensures { result ≡ true → (x : ℕ)
        → is_slotted slots.new x ≡ (is_slotted slots.old x || is_one_of bytes.now x) }
{
    for byte in bytes {
        if !put_slot(slots, *byte) {
            return false;
        }
    }
    true
}

/// Puts each byte of the list into its slot in one of two tables; whether each stands in one then.
fn put_all_in_two(slots: &mut [u8; 16], others: &mut [u8; 16], bytes: &[u8]) -> bool
    ensures { result ≡ true → (x : ℕ) → in_slots slots.new others.new x
        ≡ (in_slots slots.old others.old x || is_one_of bytes.now x) }
{
    for byte in bytes {
        if !put_slot_of_two(slots, others, *byte) {
            return false;
        }
    }
    true
}

/// For each of the first bytes what can follow it.
fn groups_of(
    alloc: Global,
    firsts: &[u8],
    openers: &[String],
) -> Result<Vec<OpenerGroup>, AllocError>
    requires { list_all is_nonempty (tokens_of openers.now) ≡ true }
    ensures { IfOk result (λ v. AreGroupsOf (tokens_of openers.now) firsts.now v.items) }
{
    let mut groups = Vec::with_capacity(alloc, firsts.len())?;
    for byte in firsts {
        match groups.push(OpenerGroup::new(alloc, *byte, openers)?) {
            Ok(()) => {}
            Err(_refused) => return Err(AllocError),
        }
    }
    Ok(groups)
}

/// The first place of the text whose byte is in the list of at most three.
#[inline(always)]
fn first_of_few(bytes: &[u8], text: &[u8]) -> Option<usize>
    requires { length bytes.now ≤ 3 }
    ensures { IsFirstByte (is_one_of bytes.now) text.now result }
{
    match bytes {
        [] => None,
        [a] => memchr(*a, text),
        [a, b] => memchr2(*a, *b, text),
        [a, b, c, ..] => memchr3(*a, *b, *c, text),
    }
}

/// The first place of the text whose byte is in the list, by searches for three bytes at a time,
/// each up to where the one before it ended.
fn first_of(bytes: &[u8], text: &[u8]) -> Option<usize>
    ensures { IsFirstByte (is_one_of bytes.now) text.now result }
{
    match bytes {
        [a, b, c, others @ ..] => match memchr3(*a, *b, *c, text) {
            Some(n) => match first_of(others, &text[..n]) {
                Some(m) => Some(m),
                None => Some(n),
            },
            None => first_of(others, text),
        },
        _ => first_of_few(bytes, text),
    }
}

/// The same, in growing blocks, so that no search goes far past what another one finds.
fn first_in_blocks(bytes: &[u8], text: &[u8]) -> Option<usize>
    ensures { IsFirstByte (is_one_of bytes.now) text.now result }
{
    let mut from = 0;
    let mut width = FIRST_BLOCK;
    while from < text.len() {
        let end = from + width.min(text.len() - from);
        if let Some(n) = first_of(bytes, &text[from..end]) {
            return Some(from + n);
        }
        from = end;
        width = (width * 2).min(LARGEST_BLOCK);
    }
    None
}

/// The first place of the text whose byte is in the list.
fn first_of_any(bytes: &[u8], text: &[u8]) -> Option<usize>
    ensures { IsFirstByte (is_one_of bytes.now) text.now result }
{
    if bytes.len() <= 3 {
        first_of_few(bytes, text)
    } else {
        first_in_blocks(bytes, text)
    }
}

/// The first place of the text, from a place on, whose byte is in the list; the text's length where
/// there is none. It stands in no caller's code, since most hits are close by.
#[inline(never)]
fn first_among(bytes: &[u8], text: &[u8], from: usize) -> usize
    requires { from ≤ length text.now }
    ensures low { from ≤ result }
    ensures within { result ≤ length text.now }
    ensures passed { (k : ℕ) → from ≤ k → k < result
        → is_one_of bytes.now (slice_index text.now k) ≡ false }
    ensures found { result < length text.now
        → is_one_of bytes.now (slice_index text.now result) ≡ true }
{
    match first_of_any(bytes, &text[from..]) {
        Some(n) => from + n,
        None => text.len(),
    }
}

/// The same, where up to four bytes are searched for, named by both lists: mostly the first place
/// is close by.
#[inline(always)]
fn first_near(near: [u8; 4], bytes: &[u8], text: &[u8], from: usize) -> usize
    requires order { from ≤ length text.now }
    requires same { SameBytes near bytes.now }
    ensures low { from ≤ result }
    ensures within { result ≤ length text.now }
    ensures passed { (k : ℕ) → from ≤ k → k < result
        → is_one_of bytes.now (slice_index text.now k) ≡ false }
    ensures found { result < length text.now
        → is_one_of bytes.now (slice_index text.now result) ≡ true }
{
    let end = from + NEAR.min(text.len() - from);
    let at = first_of_two_or_four(near, text, from, end);
    if at < end {
        return at;
    }
    first_among(bytes, text, end)
}

/// The same by the slots of the bytes: one look-up tests for all of them.
#[inline(always)]
fn first_slotted_near(slots: [u8; 16], bytes: &[u8], text: &[u8], from: usize) -> usize
    requires order { from ≤ length text.now }
    requires same { SameSlotted slots bytes.now }
    ensures low { from ≤ result }
    ensures within { result ≤ length text.now }
    ensures passed { (k : ℕ) → from ≤ k → k < result
        → is_one_of bytes.now (slice_index text.now k) ≡ false }
    ensures found { result < length text.now
        → is_one_of bytes.now (slice_index text.now result) ≡ true }
{
    let end = from + NEAR.min(text.len() - from);
    let at = first_slotted(slots, text, from, end);
    if at < end {
        return at;
    }
    first_among(bytes, text, end)
}

/// Whether openers are searched by two bytes: where more than four first bytes, or a letter or a
/// digit, can begin one. Such stand often where no opener does.
fn goes_by_two(firsts: &[u8]) -> bool {
    if firsts.len() > 4 {
        return true;
    }
    for first in firsts {
        if first.is_ascii_alphanumeric() {
            return true;
        }
    }
    false
}

impl OpenerIndex {
    /// Whether none of the texts is empty.
    pub fn are_nonempty(texts: &[&str]) -> bool
        ensures { result ≡ list_all is_nonempty (map (λ t. t.now) texts.now) }
    {
        for text in texts {
            if text.as_bytes().is_empty() {
                return false;
            }
        }
        true
    }

    /// The index of these openers, of which none is empty. It fails where memory runs out.
    pub fn new(alloc: Global, openers: &[&str]) -> Result<OpenerIndex, AllocError>
        requires { list_all is_nonempty (map (λ o. o.now) openers.now) ≡ true }
        ensures { IfOk result (λ x. x ≡ map (λ o. o.now) openers.now) }
    {
        let mut owned = Vec::with_capacity(alloc, openers.len())?;
        for opener in openers {
            owned.push(String::from_str(alloc, *opener)?)?;
        }
        OpenerIndex::of_texts(alloc, owned)
    }

    /// The same, of owned texts.
    pub fn of_texts(alloc: Global, openers: Vec<String>) -> Result<OpenerIndex, AllocError>
        requires { list_all is_nonempty (tokens_of openers.items) ≡ true }
        ensures { IfOk result (λ x. x ≡ tokens_of openers.items) }
    {
        let firsts = first_bytes(alloc, &openers)?;
        let near = near_of(&firsts);
        let slots = slots_of(&firsts);
        let groups = groups_of(alloc, &firsts, &openers)?;
        let tellers = tellers_of(&openers);
        let by_two = goes_by_two(&firsts);
        Ok(OpenerIndex {
            openers,
            firsts,
            near,
            slots,
            groups,
            tellers,
            by_two,
        })
    }

    /// Puts the first byte of each opener into the slot of its low half in one of two tables;
    /// whether each stands in one then, beside those alone that stood in one before.
    pub fn put_firsts(&self, slots: &mut [u8; 16], others: &mut [u8; 16]) -> bool
        ensures { result ≡ true → (x : ℕ) → in_slots slots.new others.new x
            ≡ (in_slots slots.old others.old x || is_first self.now x) }
    {
        put_all_in_two(slots, others, &self.firsts)
    }

    /// The bytes that tell the openers, where slots have room for them.
    #[inline(always)]
    pub fn tellers(&self) -> Option<Tellers>
        ensures { IfSome result (λ t. AreTellers t self.now) }
    {
        self.tellers
    }

    /// What can follow the byte in the openers that begin with it, where there are any.
    #[inline(always)]
    fn group_of(&self, byte: u8) -> Option<&OpenerGroup>
        ensures { MatchOption result
            ((t : List ℕ) → begins_with_one self.entry.now (byte ∷ t) ≡ false)
            (λ g. IsGroupOf byte self.entry.now g.now) }
    {
        for (i, first) in self.firsts.iter().enumerate() {
            if byte == *first {
                return Some(&self.groups[i]);
            }
        }
        None
    }

    /// The first place, from a place on, at which an opener can stand by its first byte; the text's
    /// length where there is none.
    #[inline(always)]
    fn next_near(&self, text: &[u8], from: usize) -> usize
        requires { from ≤ length text.now }
        ensures low { from ≤ result }
        ensures within { result ≤ length text.now }
        ensures none { (k : ℕ) → from ≤ k → k < result
            → begins_with_one self.now (drop k text.now) ≡ false }
    {
        match (self.slots, self.near) {
            (Some(slots), _) => first_slotted_near(slots, &self.firsts, text, from),
            (None, Some(near)) => first_near(near, &self.firsts, text, from),
            (None, None) => first_among(&self.firsts, text, from),
        }
    }

    /// The same by the bytes that tell an opener; in the text's last block by first bytes. It
    /// stands in no caller's code, since few languages are searched so.
    #[inline(never)]
    fn next_told(&self, tellers: &Tellers, text: &[u8], from: usize) -> usize
        requires order { from ≤ length text.now }
        requires told { AreTellers tellers.now self.now }
        ensures low { from ≤ result }
        ensures within { result ≤ length text.now }
        ensures none { (k : ℕ) → from ≤ k → k < result
            → begins_with_one self.now (drop k text.now) ≡ false }
    {
        let at = told_end(
            tellers.alone,
            tellers.firsts,
            tellers.seconds,
            text,
            from,
            text.len(),
        );
        if BLOCK < text.len() - at {
            return at;
        }
        first_among(&self.firsts, text, at)
    }

    /// The first place, from a place on, at which an opener can stand by its first bytes; the
    /// text's length where there is none.
    #[inline(always)]
    fn next_first(&self, text: &[u8], from: usize) -> usize
        requires { from ≤ length text.now }
        ensures low { from ≤ result }
        ensures within { result ≤ length text.now }
        ensures none { (k : ℕ) → from ≤ k → k < result
            → begins_with_one self.now (drop k text.now) ≡ false }
    {
        if self.by_two {
            if let Some(tellers) = &self.tellers {
                return self.next_told(tellers, text, from);
            }
        }
        self.next_near(text, from)
    }

    /// Whether an opener stands at the place, with whose byte those of the group begin. Mostly the
    /// second byte tells.
    #[inline(always)]
    fn stands(&self, group: &OpenerGroup, text: &[u8], at: usize) -> bool
        requires inside { at < length text.now }
        requires group { IsGroupOf (slice_index text.now at) self.now group.now }
        ensures { result ≡ begins_with_one self.now (drop at text.now) }
    {
        if at + 1 < text.len() {
            let second = text[at + 1];
            if group.wholes.has(second) {
                return true;
            }
            if !group.seconds.has(second) {
                return false;
            }
        }
        begins_with_one(&group.openers, &text[at..])
    }

    /// Whether an opener stands at the place of the text.
    #[inline(always)]
    pub fn stands_at(&self, text: &[u8], at: usize) -> bool
        requires { at < length text.now }
        ensures { result ≡ begins_with_one self.now (drop at text.now) }
    {
        match self.group_of(text[at]) {
            Some(group) => self.stands(group, text, at),
            None => false,
        }
    }

    /// Whether an opener stands at the place. Those of the group begin with the byte, which mostly
    /// stands there before one with which some of them go on.
    #[inline(always)]
    fn stands_by_group(&self, group: &OpenerGroup, byte: u8, text: &[u8], at: usize) -> bool
        requires inside { at < length text.now }
        requires group { IsGroupOf byte self.now group.now }
        ensures { result ≡ begins_with_one self.now (drop at text.now) }
    {
        if text[at] != byte {
            return self.stands_at(text, at);
        }
        if at + 1 < text.len() && group.wholes.has(text[at + 1]) {
            return true;
        }
        begins_with_one(&group.openers, &text[at..])
    }

    /// Up to which place no opener stands, from a place on and mostly no further than `to`. The
    /// byte, with which those of the group begin, is told by the one behind it. It stands in no
    /// caller's code, since it is rarely run.
    #[inline(never)]
    fn passed_by_pairs(
        &self,
        group: &OpenerGroup,
        byte: u8,
        text: &[u8],
        from: usize,
        to: usize,
    ) -> usize
        requires order { from ≤ to }
        requires inside { to ≤ length text.now }
        requires group { IsGroupOf byte self.now group.now }
        ensures low { from ≤ result }
        ensures within { result ≤ length text.now }
        ensures none { (k : ℕ) → from ≤ k → k < result
            → begins_with_one self.now (drop k text.now) ≡ false }
    {
        let mut at = from;
        if let (Some(near), Some(seconds)) = (self.near, group.seconds.few()) {
            while at < to {
                at = next_pair(near, byte, seconds, text, at, to);
                if to <= at || self.stands_by_group(group, byte, text, at) {
                    return at;
                }
                at += 1;
            }
        }
        at
    }

    /// Up to which place no opener stands, from a place on at which one of the group can stand but
    /// doesn't. In the `width` bytes behind it other places are passed over that need no more than
    /// a look at two bytes.
    #[inline(always)]
    fn passed(&self, group: &OpenerGroup, text: &[u8], at: usize, width: usize) -> usize
        requires inside { at < length text.now }
        requires group { IsGroupOf (slice_index text.now at) self.now group.now }
        ensures low { at < result }
        ensures within { result ≤ length text.now }
        ensures none { (k : ℕ) → at + 1 ≤ k → k < result
            → begins_with_one self.now (drop k text.now) ≡ false }
    {
        let from = at + 1;
        if width == 0 {
            return group.passed(text[at], text, from);
        }
        let to = from + width.min(text.len() - from);
        self.passed_by_pairs(group, text[at], text, from, to)
    }

    /// The least place of the text at which some opener stands, None where there is none. It takes
    /// no memory.
    pub fn first_in(&self, text: &[u8]) -> Option<usize>
        ensures { result ≡ first_opener self.now text.now }
    {
        let mut from = 0;
        // how far bytes are told by those behind them: where such come close behind one another
        let mut width = 0;
        while from < text.len() {
            let at = self.next_first(text, from);
            if at == text.len() {
                return None;
            }
            width = if at - from < CLOSE {
                (width * 2 + FIRST_WIDTH).min(LARGEST_BLOCK)
            } else {
                0
            };
            from = match self.group_of(text[at]) {
                Some(group) => {
                    if self.stands(group, text, at) {
                        return Some(at);
                    }
                    self.passed(group, text, at, width)
                }
                None => at + 1,
            };
        }
        None
    }
}
