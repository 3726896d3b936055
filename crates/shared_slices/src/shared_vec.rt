//! A vector that can have several owners.

ghost use Rattle.std.specs.Prelude.{◌≡◌, List, take, drop, IfOk};

use crate::SharedSlice;
use std::alloc::{AllocError, Global};
use std::marker::Model;
use std::sync::Arc;

/// A vector that shared slices are cut from. Contracts see the list of its items.
#[derive(Drop)]
pub struct SharedVec<T> {
    items: Arc<Vec<T>>,
}

impl<T> Model for SharedVec<T> {
    ghost Value = { List T };

    ghost view = { λ a. a.items.value.items };
}

impl<T> SharedVec<T> {
    /// Makes the vector one that can be shared. No item is copied.
    pub fn new(alloc: Global, items: Vec<T>) -> Result<Self, AllocError>
    where
        T: Drop,
        ensures { IfOk result (λ shared. shared ≡ items.items) }
    {
        Ok(SharedVec {
            items: Arc::new(alloc, items)?,
        })
    }

    /// The items in order.
    pub fn as_slice(&self) -> &[T]
        ensures { result.now ≡ self.now }
    {
        self.items.as_slice()
    }

    /// The slice of `len` items from `start` on, or of those that there are. Copies no item.
    pub fn slice(&self, start: usize, len: usize) -> Result<SharedSlice<T>, AllocError>
        ensures { IfOk result (λ slice. slice ≡ take len (drop start self.now)) }
    {
        let start = start.min(self.items.len());
        let len = len.min(self.items.len() - start);
        SharedSlice::within(&self.items, start, len)
    }
}

impl SharedVec<u8> {
    /// These bytes as a slice. Where they are those from the index on, none is copied.
    pub fn slice_of(
        &self,
        alloc: Global,
        start: usize,
        bytes: &[u8],
    ) -> Result<SharedSlice<u8>, AllocError>
        ensures { IfOk result (λ slice. slice ≡ bytes.now) }
    {
        let slice = self.slice(start, bytes.len())?;
        if slice.as_slice() == bytes {
            return Ok(slice);
        }
        SharedSlice::new(alloc, Vec::from_slice(alloc, bytes)?)
    }
}
