//! The constant pool.

ghost use Rattle.std.specs.Prelude.{◌≡◌, ◌==◌, ◌∷◌, ◌++◌, ◌<◌, ◌≤◌, [], None, length, count_by, IfOk, OnOk};
ghost use Rattle.class_model.specs.declared.constant.Const.TheVariants.{Unused};
ghost use Rattle.asm_pool.specs.Keys.{key_of};
ghost use Rattle.asm_pool.specs.Mentions as spec;
ghost use Rattle.asm_pool.specs.Places.{IsPool, Mentions, at_text};

use crate::error::PoolError;
use crate::key::{append, key_of};
use class_model::Const;
use items::Items;
use shared_slices::SharedSlice;
use std::alloc::{AllocError, Global};
use std::collections::BTreeMap;

/// The most entries of a pool, with the one at index 0 (JVMS 4.1).
const MOST_ENTRIES: usize = 65_535;

/// The most bytes of a text (JVMS 4.4.7).
const MOST_BYTES: usize = 65_535;

/// A constant pool that grows. Each call gives the index of a constant: that of its first mention, or the next after
/// the others. After an error the pool is of no use.
#[derive(Drop)]
pub struct Pool {
    pub alloc: Global,
    pub entries: Items<Const>,
    /// The indexes of the constants by their keys.
    pub places: BTreeMap<Vec<u16>, u16>,
}

// The units of a text in ASCII.
fn units_of(alloc: Global, text: &[u8]) -> Result<SharedSlice<u16>, AllocError>
    ensures { IfOk result (λ units. units ≡ text.now) }
{
    let mut units = Vec::with_capacity(alloc, text.len())?;
    append(&mut units, text)?;
    SharedSlice::new(alloc, units)
}

fn zeros_in(text: &[u8]) -> usize
    ensures value { result ≡ count_by (λ u. u == 0) text.now }
    ensures bound { result ≤ length text.now }
{
    text.iter().filter(|byte| **byte == 0).count()
}

// Whether the text has at most 65,535 bytes as modified UTF-8, where a zero takes two (JVMS 4.4.7).
fn is_short(text: &[u8]) -> bool
    ensures { result ≡ spec.is_short text.now }
{
    text.len() <= MOST_BYTES && text.len() + zeros_in(text) <= MOST_BYTES
}

// How many entries the constant has.
fn width_of(constant: &Const) -> usize
    ensures { result ≡ length (spec.slots_of constant.now) }
{
    match constant {
        Const::Long(_) => 2,
        _ => 1,
    }
}

fn push_slots(entries: &mut Items<Const>, constant: Const) -> Result<(), AllocError>
    ensures { OnOk result (entries.new ≡ entries.old ++ spec.slots_of constant) }
{
    match constant {
        Const::Long(n) => {
            entries.push(Const::Long(n))?;
            entries.push(Const::Unused)
        }
        other => entries.push(other),
    }
}

impl Pool {
    /// A pool without constants.
    pub fn new(alloc: Global) -> Result<Self, AllocError>
        ensures { IfOk result (λ pool. IsPool pool × (pool.entries ≡ Unused ∷ [])) }
    {
        let mut entries = Items::new(alloc);
        entries.push(Const::Unused)?;
        Ok(Pool {
            alloc,
            entries,
            places: BTreeMap::new(alloc),
        })
    }

    // Adds a constant that the pool doesn't have.
    fn add(&mut self, key: Vec<u16>, constant: Const) -> Result<u16, PoolError>
        requires pool { IsPool self.old }
        requires its_key { key.items ≡ key_of constant }
        requires some { 0 < length key.items }
        requires free { at_text self.old.places key.items ≡ None }
        ensures { Mentions result self.new (spec.mentioned_at None constant self.old.entries) }
    {
        let index = self.entries.len();
        if MOST_ENTRIES < index + width_of(&constant) {
            return Err(PoolError::Full);
        }
        self.places.insert(key, index as u16)?;
        push_slots(&mut self.entries, constant)?;
        Ok(index as u16)
    }

    fn mention(&mut self, constant: Const) -> Result<u16, PoolError>
        requires pool { IsPool self.old }
        requires some { 0 < length (key_of constant) }
        ensures { Mentions result self.new (spec.mentioned constant self.old.entries) }
    {
        let key = key_of(self.alloc, &constant)?;
        match self.places.get(key.as_slice()).copied() {
            Some(index) => Ok(index),
            None => self.add(key, constant),
        }
    }

    /// The index of a text in ASCII.
    pub fn text(&mut self, text: &[u8]) -> Result<u16, PoolError>
        requires { IsPool self.old }
        ensures { Mentions result self.new (spec.text text.now self.old.entries) }
    {
        if !is_short(text) {
            return Err(PoolError::Full);
        }
        let units = units_of(self.alloc, text)?;
        self.mention(Const::Utf8(units))
    }

    /// The index of an int.
    pub fn int(&mut self, value: i32) -> Result<u16, PoolError>
        requires { IsPool self.old }
        ensures { Mentions result self.new (spec.int value self.old.entries) }
    {
        self.mention(Const::Integer(value))
    }

    /// The index of a long.
    pub fn long(&mut self, value: i64) -> Result<u16, PoolError>
        requires { IsPool self.old }
        ensures { Mentions result self.new (spec.long value self.old.entries) }
    {
        self.mention(Const::Long(value))
    }

    /// The index of a class.
    pub fn class(&mut self, name: &[u8]) -> Result<u16, PoolError>
        requires { IsPool self.old }
        ensures { Mentions result self.new (spec.class name.now self.old.entries) }
    {
        let name = self.text(name)?;
        self.mention(Const::Class(name))
    }

    /// The index of a String.
    pub fn string(&mut self, text: &[u8]) -> Result<u16, PoolError>
        requires { IsPool self.old }
        ensures { Mentions result self.new (spec.string text.now self.old.entries) }
    {
        let text = self.text(text)?;
        self.mention(Const::Text(text))
    }

    // The index of a name with a descriptor.
    fn name_and_type(&mut self, name: &[u8], descriptor: &[u8]) -> Result<u16, PoolError>
        requires { IsPool self.old }
        ensures { Mentions result self.new
            (spec.name_and_type name.now descriptor.now self.old.entries) }
    {
        let name = self.text(name)?;
        let descriptor = self.text(descriptor)?;
        self.mention(Const::NameAndType(name, descriptor))
    }

    /// The index of a field, by its class, its name and its descriptor.
    #[tactic(auto, unfolding(crate::specs::Mentions::field))]
    pub fn field(&mut self, class: &[u8], name: &[u8], descriptor: &[u8]) -> Result<u16, PoolError>
        requires { IsPool self.old }
        ensures { Mentions result self.new
            (spec.field class.now name.now descriptor.now self.old.entries) }
    {
        let class = self.class(class)?;
        let member = self.name_and_type(name, descriptor)?;
        self.mention(Const::Fieldref(class, member))
    }

    /// The index of a method of a class, by its class, its name and its descriptor.
    #[tactic(auto, unfolding(crate::specs::Mentions::method))]
    pub fn method(&mut self, class: &[u8], name: &[u8], descriptor: &[u8]) -> Result<u16, PoolError>
        requires { IsPool self.old }
        ensures { Mentions result self.new
            (spec.method class.now name.now descriptor.now self.old.entries) }
    {
        let class = self.class(class)?;
        let member = self.name_and_type(name, descriptor)?;
        self.mention(Const::Methodref(class, member))
    }

    /// The index of a method of an interface, by the interface, its name and its descriptor.
    #[tactic(auto, unfolding(crate::specs::Mentions::interface_method))]
    pub fn interface_method(
        &mut self,
        class: &[u8],
        name: &[u8],
        descriptor: &[u8],
    ) -> Result<u16, PoolError>
        requires { IsPool self.old }
        ensures { Mentions result self.new
            (spec.interface_method class.now name.now descriptor.now self.old.entries) }
    {
        let class = self.class(class)?;
        let member = self.name_and_type(name, descriptor)?;
        self.mention(Const::InterfaceMethodref(class, member))
    }
}
