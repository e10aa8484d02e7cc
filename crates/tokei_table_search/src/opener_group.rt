//! What can follow a first byte of openers.
ghost use Rattle.std.specs.Prelude.{◌≡◌, ◌+◌, ◌≤◌, ◌<◌, ◌||◌, ℕ, true, false, length};
ghost use Rattle.std.specs.Prelude.{slice_index, List, ◌∷◌, IfOk, OnOk};
ghost use Rattle.std.specs.List.{list_all};
ghost use Rattle.tokei_table_row.specs.FirstOpener.{is_first_of, is_nonempty};
ghost use Rattle.tokei_table_search.specs.OpenerGroups.{goes_on_with, is_whole_with, goes_on_behind};
ghost use Rattle.tokei_table_search.specs.OpenerGroups.{is_whole_behind, IsGroupOf};
ghost use Rattle.tokei_table_row.specs.RowOf.{tokens_of};
ghost use Rattle.tokei_table_row.specs.Bytes.{begins, begins_with_one};
ghost use Rattle.tokei_bytes.specs.ByteSets.{is_in};

use std::alloc::{AllocError, Global};
use tokei_bytes::BitSet;
use tokei_table_row::ext::holds;

/// What can follow one first byte of some openers, in those of them that begin with it.
#[derive(Drop)]
pub(crate) struct OpenerGroup {
    /// The bytes with which one of the openers can go on behind its first one.
    pub seconds: BitSet,
    /// The bytes with which one of the openers stands wherever they follow its first one.
    pub wholes: BitSet,
    /// Those of the openers that begin with the byte, each once.
    pub openers: Vec<String>,
}

/// Whether the byte is the first one of the opener.
fn is_first_of(byte: u8, opener: &[u8]) -> bool
    ensures { result ≡ is_first_of byte opener.now }
{
    match opener {
        [] => false,
        [first, ..] => byte == *first,
    }
}

/// Adds the bytes with which the opener can go on behind its first one.
fn add_seconds(seconds: &mut BitSet, opener: &[u8])
    requires { length seconds.old ≡ 256 }
    ensures long { length seconds.new ≡ 256 }
    ensures each { (y : ℕ) → y < 256
        → is_in seconds.new y ≡ (is_in seconds.old y || goes_on_with y opener.now) }
{
    match opener {
        [_, second, ..] => seconds.insert(*second),
        _ => seconds.fill(),
    }
}

/// Adds the bytes wherever which the opener stands, if they follow its first one.
fn add_wholes(wholes: &mut BitSet, opener: &[u8])
    requires { length wholes.old ≡ 256 }
    ensures long { length wholes.new ≡ 256 }
    ensures each { (y : ℕ) → y < 256
        → is_in wholes.new y ≡ (is_in wholes.old y || is_whole_with y opener.now) }
{
    match opener {
        [] | [_] => wholes.fill(),
        [_, second] => wholes.insert(*second),
        [_, _, _, ..] => {}
    }
}

/// Adds what can follow the byte in the opener, where it begins with that one.
fn add_opener(seconds: &mut BitSet, wholes: &mut BitSet, byte: u8, opener: &[u8])
    requires seconds { length seconds.old ≡ 256 }
    requires wholes { length wholes.old ≡ 256 }
    ensures seconds_long { length seconds.new ≡ 256 }
    ensures wholes_long { length wholes.new ≡ 256 }
    ensures seconds { (y : ℕ) → y < 256
        → is_in seconds.new y ≡ (is_in seconds.old y || goes_on_behind byte y opener.now) }
    ensures wholes { (y : ℕ) → y < 256
        → is_in wholes.new y ≡ (is_in wholes.old y || is_whole_behind byte y opener.now) }
{
    if is_first_of(byte, opener) {
        add_seconds(seconds, opener);
        add_wholes(wholes, opener);
    }
}

/// Adds the opener, where it begins with the byte and isn't among the others yet.
fn add_own(alloc: Global, own: &mut Vec<String>, byte: u8, opener: &str) -> Result<(), AllocError>
    requires { is_nonempty opener.now ≡ true }
    ensures { OnOk result ((t : List ℕ) → begins_with_one (tokens_of own.new.items) (byte ∷ t)
        ≡ (begins_with_one (tokens_of own.old.items) (byte ∷ t) || begins opener.now (byte ∷ t))) }
{
    if is_first_of(byte, opener.as_bytes()) && !holds(own, opener.as_bytes()) {
        own.push(String::from_str(alloc, opener)?)?;
    }
    Ok(())
}

impl OpenerGroup {
    /// The group of those of the openers, none of them empty, that begin with the byte.
    pub(crate) fn new(
        alloc: Global,
        byte: u8,
        openers: &[String],
    ) -> Result<OpenerGroup, AllocError>
        requires { list_all is_nonempty (tokens_of openers.now) ≡ true }
        ensures { IfOk result (λ g. IsGroupOf byte (tokens_of openers.now) g) }
    {
        let mut group = OpenerGroup {
            seconds: BitSet::empty(),
            wholes: BitSet::empty(),
            openers: Vec::new(alloc),
        };
        for opener in openers {
            add_opener(
                &mut group.seconds,
                &mut group.wholes,
                byte,
                opener.as_bytes(),
            );
            add_own(alloc, &mut group.openers, byte, opener.as_str())?;
        }
        Ok(group)
    }

    /// Up to which place the text, from a place on, goes on with the byte alone and each time with
    /// a byte behind it with which none of the openers goes on.
    #[inline(always)]
    pub(crate) fn passed(&self, byte: u8, text: &[u8], from: usize) -> usize
        requires { from ≤ length text.now }
        ensures low { from ≤ result }
        ensures within { result ≤ length text.now }
        ensures inside { from < result → result < length text.now }
        ensures run { (k : ℕ) → from ≤ k → k < result → slice_index text.now k ≡ byte }
        ensures none { (k : ℕ) → from ≤ k → k < result
            → is_in self.now.seconds (slice_index text.now (k + 1)) ≡ false }
        ensures ends { result + 1 < length text.now → slice_index text.now result ≡ byte
            → is_in self.now.seconds (slice_index text.now (result + 1)) ≡ true }
    {
        let mut at = from;
        while at + 1 < text.len() && text[at] == byte && !self.seconds.has(text[at + 1]) {
            at += 1;
        }
        at
    }
}
