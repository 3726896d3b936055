//! Sets of classes.

ghost use Rattle.std.specs.Prelude.{◌≡◌, ◌<◌, ℕ, false, [], ◌∷◌, ◌++◌, get_or, vec_len, OnOk};
ghost use Rattle.link_rules.specs.Hierarchy.{is_among};

use items::NoMemory;
use std::alloc::Global;
use std::marker::Model;

/// Classes in the order in which they were added. Whether a class is among them takes constant time.
#[derive(Drop)]
pub struct ClassSet {
    list: Vec<u32>,
    flags: Vec<bool>,
}

impl Model for ClassSet {
    ghost use Rattle.std.specs.Prelude.{ℕ, List};

    ghost Value = { List ℕ };

    ghost use Rattle.link_resolution.specs.Sets.{list_of, IsMarked};

    ghost view = { list_of };

    ghost invariant = { IsMarked };
}

// Adds flags that aren't set, up to that of a class.
fn reach(flags: &mut Vec<bool>, class: u32) -> Result<(), NoMemory>
    ensures long_enough { OnOk result (class < vec_len flags.new) }
    ensures same { (c : ℕ) → get_or flags.new.items c false ≡ get_or flags.old.items c false }
{
    if flags.len() <= class as usize {
        flags.resize(class as usize + 1, false)?;
    }
    Ok(())
}

impl ClassSet {
    /// No classes. This takes no memory.
    pub fn new(alloc: Global) -> Self
        ensures { result ≡ [] }
    {
        ClassSet {
            list: Vec::new(alloc),
            flags: Vec::new(alloc),
        }
    }

    /// The classes in their order.
    pub fn as_slice(&self) -> &[u32]
        ensures { result.now ≡ self.now }
    {
        &self.list
    }

    /// Whether a class is among them.
    pub fn has(&self, class: u32) -> bool
        ensures { result ≡ is_among self.now class }
    {
        match self.flags.get(class as usize) {
            Some(flag) => *flag,
            None => false,
        }
    }

    /// Adds a class after all others.
    pub fn add(&mut self, class: u32) -> Result<(), NoMemory>
        ensures { OnOk result (self.new ≡ self.old ++ class ∷ []) }
    {
        reach(&mut self.flags, class)?;
        self.list.push(class)?;
        self.flags[class as usize] = true;
        Ok(())
    }
}
