//! Texts, and the number of each.

ghost use Rattle.std.specs.Prelude.{◌≡◌, [], ◌∷◌, ◌++◌, None, length, slice_get, OnOk, OnErr};
ghost use Rattle.std.specs.Option.{option_copied};
ghost use Rattle.link_model.specs.Numbering as spec;

use items::{Items, NoMemory};
use link_resolution::TextNumbers;
use std::alloc::Global;
use std::marker::Model;

/// Texts in the order in which they came. The number of a text is the first place where it is.
#[derive(Drop)]
pub struct Names {
    texts: Vec<Items<u16>>,
    numbers: TextNumbers,
}

impl Model for Names {
    ghost use Rattle.std.specs.Prelude.{ℕ, List};

    ghost Value = { List (List ℕ) };

    ghost use Rattle.link_numbers.specs.Names.{texts_of, IsNumbered};

    ghost view = { texts_of };

    ghost invariant = { IsNumbered };
}

impl Names {
    /// No texts. This takes no memory.
    pub fn new(alloc: Global) -> Self
        ensures { result ≡ [] }
    {
        Names {
            texts: Vec::new(alloc),
            numbers: TextNumbers::new(alloc),
        }
    }

    /// How many texts there are.
    pub fn count(&self) -> u32
        ensures { result ≡ length self.now }
    {
        self.texts.len() as u32
    }

    /// The number of a text. `None`: it isn't there.
    pub fn number(&self, text: &[u16]) -> Option<u32>
        ensures { result ≡ spec.number_of self.now text.now }
    {
        self.numbers.number(text)
    }

    /// The text of a number. `None`: no text has it.
    pub fn text(&self, number: u32) -> Option<&Items<u16>>
        ensures { option_copied result ≡ slice_get self.now number }
    {
        self.texts.get(number as usize)
    }

    // Adds a text that isn't there. Where memory runs out, as it counts past 2^32 texts, nothing changes.
    fn add_new(&mut self, alloc: Global, text: &[u16]) -> Result<(), NoMemory>
        requires { spec.number_of self.old text.now ≡ None }
        ensures ok { OnOk result (self.new ≡ self.old ++ text.now ∷ []) }
        ensures err { OnErr result (self.new ≡ self.old) }
    {
        if self.texts.len() >= u32::MAX as usize {
            return Err(NoMemory);
        }
        let number = self.texts.len() as u32;
        let copy = Vec::from_slice(alloc, text)?;
        self.texts.push(Items::from(copy))?;
        match self.numbers.add_new(alloc, text, number) {
            Ok(()) => Ok(()),
            Err(error) => {
                self.texts.pop();
                Err(error)
            }
        }
    }

    /// Adds a text, unless it is there. Where memory runs out, as it counts past 2^32 texts, nothing changes.
    pub fn add(&mut self, alloc: Global, text: &[u16]) -> Result<(), NoMemory>
        ensures ok { OnOk result (self.new ≡ spec.with_name self.old text.now) }
        ensures err { OnErr result (self.new ≡ self.old) }
    {
        if self.number(text).is_some() {
            return Ok(());
        }
        self.add_new(alloc, text)
    }

    /// Puts a text after all others, also where it is among them. Where memory runs out, as it counts past 2^32 texts, nothing changes.
    pub fn push(&mut self, alloc: Global, text: &[u16]) -> Result<(), NoMemory>
        ensures ok { OnOk result (self.new ≡ self.old ++ text.now ∷ []) }
        ensures err { OnErr result (self.new ≡ self.old) }
    {
        if self.number(text).is_none() {
            return self.add_new(alloc, text);
        }
        if self.texts.len() >= u32::MAX as usize {
            return Err(NoMemory);
        }
        let copy = Vec::from_slice(alloc, text)?;
        self.texts.push(Items::from(copy))?;
        Ok(())
    }
}
