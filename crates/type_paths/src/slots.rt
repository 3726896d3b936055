//! The types of a path, and the slots that they take.

ghost use Rattle.std.specs.Prelude.{◌≡◌, IfOk, length};
ghost use Rattle.instruction_rows.specs.Contents.{types_of};
ghost use Rattle.type_paths.specs.Paths.{count_on, path, types_on};

use crate::paths::Paths;
use instruction_rows::is_wide;
use items::Items;
use stack_maps::VType;
use std::alloc::{AllocError, Global};

/// How many slots a value of the type takes.
pub fn width(t: VType) -> u32
    ensures { result ≡ length (types_of t) }
{
    if is_wide(t) { 2 } else { 1 }
}

impl Paths {
    /// The types of a path, the first of them first. `None`: one of them isn't known.
    pub fn types(&self, alloc: Global, n: usize) -> Result<Option<Items<VType>>, AllocError>
        ensures { IfOk result (λ ts. ts ≡ types_on (path self.now n)) }
    {
        let mut types = Vec::new(alloc);
        let mut node = n;
        while let Some(top) = self.top(node) {
            let Some(t) = top.item else {
                return Ok(None);
            };
            types.push(t)?;
            node = top.below as usize;
        }
        types.reverse();
        Ok(Some(Items::from(types)))
    }

    /// How many slots the types of a path take. `None`: one of them isn't known.
    pub fn slot_count(&self, n: usize) -> Option<usize>
        ensures { result ≡ count_on (path self.now n) }
    {
        match self.slots(n) {
            Some(slots) => Some(slots as usize),
            None => None,
        }
    }
}
