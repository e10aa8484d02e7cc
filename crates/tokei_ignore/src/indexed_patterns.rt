//! Patterns with an index of their keys, so that an entry isn't tried against all of them.
ghost use Rattle.std.specs.Prelude.{◌≡◌, ◌<◌, ◌≤◌, ◌-◌, [], length, max, replicate, IfOk};
ghost use Rattle.tokei_ignore.specs.Index.{IsIndex, indexed_from, slot_of as slot_of_key, latest_in as latest_in_slot, latest_of as latest_of_slot, latest_fitting};

use crate::keys::{key_of_extension, key_of_name, key_of_path, pattern_key};
use crate::patterns::Pattern;
use std::alloc::{AllocError, Global};
use std::marker::Model;
use tokei_folders::{Items, Text};

/// So many patterns are indexed; fewer are tried one by one.
pub const FEW: usize = 16;

/// So many patterns have slots of their own.
const MOST_SLOTTED: usize = 1_000_000;

/// Where the slots of keys lead, and the patterns: places counted from one, zero for none.
#[derive(Drop)]
struct Links {
    heads: Vec<usize>,
    earlier: Vec<usize>,
}

/// Patterns in order, which contracts see, with an index of their keys where they aren't few.
#[derive(Drop)]
pub struct IndexedPatterns {
    list: Items<Pattern>,
    links: Links,
}

impl Model for IndexedPatterns {
    ghost use Rattle.std.specs.Prelude.{◌≤◌, List, length};
    ghost use Rattle.tokei_ignore.specs.Index.{IsIndex, indexed_from};
    ghost use Rattle.tokei_ignore.specs.declared.patterns.Pattern.{Pattern};

    ghost Value = { List Pattern };

    ghost view = { λ x. x.list };

    ghost invariant = { λ x. indexed_from ≤ length x.list
        → IsIndex x.list x.links.heads.items x.links.earlier.items };
}

/// What is asked about an entry, and where the index leads.
#[derive(Drop)]
struct Search<'a> {
    list: &'a [Pattern],
    heads: &'a [usize],
    earlier: &'a [usize],
    names: &'a [Text],
    folder: bool,
}

/// The slot of a key among so many.
fn slot_of(count: usize, key: Option<usize>) -> usize
    requires { 0 < count }
    ensures value { result ≡ slot_of_key count key }
    ensures within { result ≤ count }
{
    match key {
        None => 0,
        Some(key) => key % count + 1,
    }
}

/// How many slots the keys of so many patterns have: more than patterns, so that few share one.
fn slots_for(patterns: usize) -> usize
    ensures some { 0 < result }
    ensures fits { result < usize.MAX }
{
    patterns.max(1).min(MOST_SLOTTED) * 8
}

/// So many slots that lead nowhere.
fn empty_heads(alloc: Global, count: usize) -> Result<Vec<usize>, AllocError>
    ensures { IfOk result (λ v. v.items ≡ replicate count 0) }
{
    let mut heads = Vec::new(alloc);
    heads.resize(count, 0)?;
    Ok(heads)
}

/// The index of patterns, in one pass over them.
fn linked(alloc: Global, list: &[Pattern]) -> Result<Links, AllocError>
    ensures { IfOk result (λ l. IsIndex list.now l.heads.items l.earlier.items) }
{
    let count = slots_for(list.len());
    let mut heads = empty_heads(alloc, count + 1)?;
    let mut earlier = Vec::new(alloc);
    for (place, pattern) in list.iter().enumerate() {
        let slot = slot_of(count, pattern_key(pattern));
        earlier.push(heads[slot])?;
        heads[slot] = place + 1;
    }
    Ok(Links { heads, earlier })
}

/// The place of a slot's last pattern that fits, where it is behind the best so far.
fn latest(search: &Search, slot: usize, best: usize) -> usize
    requires index { IsIndex search.now.list.now search.now.heads.now search.now.earlier.now }
    requires slot { slot < length search.now.heads.now }
    ensures { result ≡ max best (latest_in_slot (length search.now.heads.now - 1) slot
        search.now.list.now search.now.names.now search.now.folder) }
{
    let mut at = search.heads[slot];
    while at > best {
        let pattern = &search.list[at - 1];
        if pattern.fits(search.names, search.folder) {
            return at;
        }
        at = search.earlier[at - 1];
    }
    best
}

/// The same of a key's slot, where there is a key.
fn latest_of(search: &Search, key: Option<usize>, best: usize) -> usize
    requires { IsIndex search.now.list.now search.now.heads.now search.now.earlier.now }
    ensures { result ≡ max best (latest_of_slot (length search.now.heads.now - 1) key
        search.now.list.now search.now.names.now search.now.folder) }
{
    match key {
        None => best,
        Some(key) => latest(search, slot_of(search.heads.len() - 1, Some(key)), best),
    }
}

/// The place of the last pattern that fits, counted from one, or zero: of the patterns without key
/// and of those with a key of the entry's.
fn latest_of_all(search: &Search) -> usize
    requires { IsIndex search.now.list.now search.now.heads.now search.now.earlier.now }
    ensures place { result
        ≡ latest_fitting search.now.list.now search.now.names.now search.now.folder }
    ensures within { result ≤ length search.now.list.now }
{
    let best = latest_of(search, key_of_name(search.names), 0);
    let best = latest_of(search, key_of_extension(search.names), best);
    let best = latest_of(search, key_of_path(search.names), best);
    latest(search, 0, best)
}

impl IndexedPatterns {
    /// No pattern. It takes no memory.
    pub fn new(alloc: Global) -> IndexedPatterns
        ensures { result ≡ [] }
    {
        IndexedPatterns {
            list: Items::new(alloc),
            links: Links {
                heads: Vec::new(alloc),
                earlier: Vec::new(alloc),
            },
        }
    }

    /// These patterns with an index of their keys, where they aren't few.
    pub fn of(alloc: Global, list: Items<Pattern>) -> Result<IndexedPatterns, AllocError>
        ensures { IfOk result (λ x. x ≡ list) }
    {
        if list.len() < FEW {
            let links = Links {
                heads: Vec::new(alloc),
                earlier: Vec::new(alloc),
            };
            return Ok(IndexedPatterns { list, links });
        }
        let links = linked(alloc, list.as_slice())?;
        Ok(IndexedPatterns { list, links })
    }

    /// The patterns, in order.
    pub fn as_slice(&self) -> &[Pattern]
        ensures { result.now ≡ self.entry.now }
    {
        self.list.as_slice()
    }

    /// The place of the last pattern that fits, counted from one, or zero, where there is an index.
    /// It takes no memory.
    pub fn latest_fitting(&self, names: &[Text], folder: bool) -> usize
        requires { indexed_from ≤ length self.now }
        ensures place { result ≡ latest_fitting self.now names.now folder }
        ensures within { result ≤ length self.now }
    {
        let search = Search {
            list: self.list.as_slice(),
            heads: self.links.heads.as_slice(),
            earlier: self.links.earlier.as_slice(),
            names,
            folder,
        };
        latest_of_all(&search)
    }
}
