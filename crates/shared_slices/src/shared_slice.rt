//! A slice of a vector that has several owners.

ghost use Rattle.std.specs.Prelude.{◌≡◌, ◌↔◌, ◌≤◌, ◌+◌, List, [], length, take, drop, IfOk, IsTrue};

use std::alloc::{AllocError, Global};
use std::fmt;
use std::marker::Model;
use std::ops::DerefSlice;
use std::sync::Arc;

/// A slice of a vector that has several owners, as one text of a constant pool is of the units of all. Contracts see
/// the list of its items.
#[derive(Drop)]
pub struct SharedSlice<T> {
    whole: Arc<Vec<T>>,
    start: u32,
    len: u32,
}

impl<T> Model for SharedSlice<T> {
    ghost Value = { List T };

    ghost view = { λ a. take a.len (drop a.start a.whole.value.items) };

    ghost invariant = { λ a. a.start + a.len ≤ length a.whole.value.items };
}

impl<T> SharedSlice<T> {
    /// All items of a vector. No item is copied.
    pub fn new(alloc: Global, items: Vec<T>) -> Result<Self, AllocError>
    where
        T: Drop,
        ensures { IfOk result (λ slice. slice ≡ items.items) }
    {
        let Ok(len) = u32::try_from(items.len()) else {
            return Err(AllocError);
        };
        let whole = Arc::new(alloc, items)?;
        Ok(SharedSlice {
            whole,
            start: 0,
            len,
        })
    }

    // The slice of `len` items from `start` on. A number of more than 32 bits counts as want of memory.
    pub(crate) fn within(whole: &Arc<Vec<T>>, start: usize, len: usize) -> Result<Self, AllocError>
        requires { start + len ≤ length whole.now.value.items }
        ensures { IfOk result (λ slice. slice ≡ take len (drop start whole.now.value.items)) }
    {
        let (Ok(start), Ok(len)) = (u32::try_from(start), u32::try_from(len)) else {
            return Err(AllocError);
        };
        let whole = Arc::try_clone(whole)?;
        Ok(SharedSlice { whole, start, len })
    }

    /// The items in order.
    pub fn as_slice(&self) -> &[T]
        ensures { result.now ≡ self.now }
    {
        let start = self.start as usize;
        &self.whole.as_slice()[start..start + self.len as usize]
    }

    /// How many items there are.
    pub fn len(&self) -> usize
        ensures { result ≡ length self.now }
    {
        self.len as usize
    }

    /// Whether there is no item.
    pub fn is_empty(&self) -> bool
        ensures { IsTrue result ↔ (self.now ≡ []) }
    {
        self.len == 0
    }
}

impl<T: fmt::Debug> fmt::Debug for SharedSlice<T> {
    fn fmt<W: fmt::Write>(&self, f: &mut fmt::Formatter<W>) -> fmt::Result {
        f.debug_list().entries(self.as_slice()).finish()
    }
}

impl<T> DerefSlice for SharedSlice<T> {
    type Elem = T;

    ghost deref_gives = { λ items xs. xs ≡ items };

    fn deref(&self) -> &[T]
        ensures { result.now ≡ self.now }
    {
        self.as_slice()
    }
}

/// A copy is one more owner of the same items.
impl<T: Drop> Clone for SharedSlice<T> {
    ghost is_clone = { λ v w. v ≡ w };

    fn clone(&self) -> Result<Self, AllocError> {
        Ok(SharedSlice {
            whole: Arc::try_clone(&self.whole)?,
            start: self.start,
            len: self.len,
        })
    }
}

impl<T: PartialEq> PartialEq for SharedSlice<T> {
    ghost use Rattle.std.specs.Cmp.Lexicographic.{pointwise, lists_per};

    ghost eq = { λ x y. pointwise T.eq x y };

    ghost laws = { lists_per T.laws };

    fn eq(&self, other: &Self) -> bool {
        PartialEq::eq(&self.as_slice(), &other.as_slice())
    }
}

impl<T: Eq> Eq for SharedSlice<T> {
    ghost use Rattle.std.specs.Cmp.Lexicographic.{lists_equiv};

    ghost laws = { lists_equiv T.Eq.laws };
}
