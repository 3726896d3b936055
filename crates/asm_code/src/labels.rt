//! The places of the labels of a method.

ghost use Rattle.std.specs.Prelude.{◌≡◌, ℕ, List, Some, None, IsSomeAnd, OnOk, IfOk, Err};
ghost use Rattle.std.specs.Option.{option_copied};
ghost use Rattle.asm_code.specs.Places.{place_of, Places};

use std::alloc::{AllocError, Global};
use std::collections::BTreeMap;

/// The pcs of labels by their names.
#[derive(Drop)]
pub struct Labels {
    pub places: BTreeMap<Vec<u8>, u16>,
}

impl Labels {
    /// No label has a place. This takes no memory.
    pub fn new(alloc: Global) -> Self
        ensures { (label : List ℕ) → place_of result label ≡ None }
    {
        Labels {
            places: BTreeMap::new(alloc),
        }
    }

    /// The pc of a label. `None`: it has no place.
    pub fn place(&self, label: &[u8]) -> Option<u16>
        ensures { result ≡ place_of self.now label.now }
    {
        self.places.get(label).copied()
    }

    /// Gives a label, which has no place, the place `pc`.
    pub fn add(&mut self, alloc: Global, label: &[u8], pc: u16) -> Result<(), AllocError>
        requires { place_of self.old label.now ≡ None }
        ensures { OnOk result (Places self.old label.now pc self.new) }
    {
        let key = Vec::from_slice(alloc, label)?;
        self.places.insert(key, pc)?;
        Ok(())
    }
}
