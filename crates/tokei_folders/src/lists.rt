//! A list that contracts see as its items.
ghost use Rattle.std.specs.Prelude.{◌≡◌, ◌≤◌, ◌==◌, length, [], ◌∷◌, ◌++◌, OnOk, OnErr, MatchOption, reverse as turned};
ghost use Rattle.std.specs.Slice.Iter.{iter_rest};
ghost use Rattle.tokei_folders.specs.Ends.{without_last};

use std::alloc::{AllocFailed, Global};
use std::marker::Model;
use std::mem;
use std::slice::Iter;

/// An owned list, which contracts see as its items in order.
#[derive(Drop)]
pub struct Items<T> {
    inner: Vec<T>,
}

impl<T> Model for Items<T> {
    ghost use Rattle.std.specs.Prelude.{List};

    ghost Value = { List T };

    ghost view = { λ l. l.inner.items };
}

impl<T> Items<T> {
    /// An empty list, which takes no memory.
    pub fn new(alloc: Global) -> Items<T>
        ensures { result ≡ [] }
    {
        Items {
            inner: Vec::new(alloc),
        }
    }

    /// The list of a vector's items. It takes no memory.
    pub fn from_vec(inner: Vec<T>) -> Items<T>
        ensures { result ≡ inner.items }
    {
        Items { inner }
    }

    /// The vector of the items. It takes no memory.
    pub fn into_vec(self) -> Vec<T>
        ensures { result.items ≡ self }
    {
        self.inner
    }

    /// How many items there are.
    pub fn len(&self) -> usize
        ensures { result ≡ length self.now }
    {
        self.inner.len()
    }

    /// Whether there is no item.
    pub fn is_empty(&self) -> bool
        ensures { result ≡ (length self.now == 0) }
    {
        self.inner.is_empty()
    }

    /// The items in order.
    pub fn iter(&self) -> Iter<'_, T>
        ensures { iter_rest result ≡ self.now }
    {
        self.inner.as_slice().iter()
    }

    /// The items.
    pub fn as_slice(&self) -> &[T]
        ensures { result.now ≡ self.now }
    {
        self.inner.as_slice()
    }

    /// Adds an item at the end; where memory is refused the list stays as it was.
    pub fn push(&mut self, item: T) -> Result<(), AllocFailed<T>>
        ensures ok { OnOk result (self.new ≡ self.old ++ item ∷ []) }
        ensures err { OnErr result (self.new ≡ self.old) }
        ensures fits { length self.new ≤ usize.MAX }
    {
        self.inner.push(item)
    }
}

impl<T> Items<T> {
    /// Takes all items out.
    pub fn take_all(&mut self) -> Items<T>
        ensures taken { result ≡ self.old }
        ensures left { self.new ≡ [] }
    {
        let alloc = *self.inner.allocator();
        let inner = mem::replace(&mut self.inner, Vec::new(alloc));
        Items { inner }
    }
}

impl<T> Items<T> {
    /// Takes the last item.
    pub fn pop(&mut self) -> Option<T>
        ensures { MatchOption result ((self.old ≡ []) × (self.new ≡ []))
            (λ last. self.old ≡ self.new ++ last ∷ []) }
    {
        self.inner.pop()
    }

    /// Turns the items round.
    pub fn reverse(&mut self)
        ensures turned { self.new ≡ turned self.old }
        ensures fits { length self.new ≤ usize.MAX }
    {
        self.inner.reverse();
    }
}

impl<T: Drop> Items<T> {
    /// Drops the last item, where there is one.
    #[tactic(auto, using(crate::proofs::ListEnds::without_last_of_take))]
    pub fn drop_last(&mut self)
        ensures { self.new ≡ without_last self.old }
    {
        let _last = self.inner.pop();
    }

    /// Drops all items.
    pub fn clear(&mut self)
        ensures { self.new ≡ [] }
    {
        self.inner.clear();
    }
}
