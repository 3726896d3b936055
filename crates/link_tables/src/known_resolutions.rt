//! What constants are known to mean: many instructions name the same.

ghost use Rattle.std.specs.Prelude.{◌≡◌, None, Some, not, IfOk, IfSome, OnOk, replicate, slice_get, slice_set};
ghost use Rattle.link_tables.specs.KnownResolutions.{Knows, is_derived, known_for, noted, use_resolution};
ghost use Rattle.link_tables.specs.Linkings.{linking_in};
ghost use Rattle.link_tables.specs.ResolutionTables.{Extends};

use crate::resolution_table::add_resolution;
use crate::sites::{Linker, array_of_named, field_at, method_at, named_class, push_at};
use class_model::Const;
use items::NoMemory;
use link_model::Resolution;
use std::alloc::Global;

/// What an instruction takes its constant for: a value, a field, a method, one from which invokespecial selects, a class, or the elements of
/// an array.
#[derive(Clone, Copy, PartialEq, Eq)]
pub enum Use {
    Value,
    Field,
    Method,
    Special,
    Class,
    Elements,
}

impl Use {
    // Whether what the instruction names is derived from what the constant means.
    fn is_derived(self) -> bool
        ensures { result ≡ is_derived self }
    {
        matches!(self, Use::Special | Use::Elements)
    }
}

/// The number of what a constant means where it is used so.
#[derive(Clone, Copy)]
pub struct KnownResolution {
    pub used: Use,
    pub number: u32,
}

/// What the constants of a pool are known to mean, by index: what they mean directly, and what is derived from that. The same constant
/// may serve for both in turn.
#[derive(Drop)]
pub struct KnownResolutions {
    pub direct: Vec<Option<KnownResolution>>,
    pub derived: Vec<Option<KnownResolution>>,
}

// What is known of this use of the constant at an index.
fn find(known: &[Option<KnownResolution>], used: Use, index: u16) -> Option<u32>
    ensures { IfSome result (λ n. slice_get known.now index
        ≡ Some (Some (record { used = used; number = n }))) }
{
    match known.get(usize::from(index)) {
        Some(Some(entry)) if entry.used == used => Some(entry.number),
        _ => None,
    }
}

fn note(known: &mut [Option<KnownResolution>], used: Use, number: u32, index: u16)
    ensures { known.new ≡
        slice_set known.old index (Some (record { used = used; number = number })) }
{
    let index = usize::from(index);
    if index < known.len() {
        known[index] = Some(KnownResolution { used, number });
    }
}

impl KnownResolutions {
    /// A table for a pool of this size, in which nothing is known.
    pub fn new(alloc: Global, constants: usize) -> Result<Self, NoMemory>
        ensures direct { IfOk result (λ known. known.direct.items ≡ replicate constants None) }
        ensures derived { IfOk result (λ known. known.derived.items ≡ replicate constants None) }
    {
        Ok(KnownResolutions {
            direct: vec![in alloc; None; constants]?,
            derived: vec![in alloc; None; constants]?,
        })
    }

    // The number of what the constant at an index means where it is used so.
    fn find(&self, used: Use, index: u16) -> Option<u32>
        ensures { IfSome result (λ n. slice_get (known_for (is_derived used) self.now) index
            ≡ Some (Some (record { used = used; number = n }))) }
    {
        if used.is_derived() {
            find(&self.derived, used, index)
        } else {
            find(&self.direct, used, index)
        }
    }

    fn note(&mut self, used: Use, number: u32, index: u16)
        ensures direct { self.new.direct.items ≡ noted (not (is_derived used))
            self.old.direct.items index (record { used = used; number = number }) }
        ensures derived { self.new.derived.items ≡ noted (is_derived used)
            self.old.derived.items index (record { used = used; number = number }) }
    {
        if used.is_derived() {
            note(&mut self.derived, used, number, index);
        } else {
            note(&mut self.direct, used, number, index);
        }
    }
}

// What the constant at an index means where it is used so.
fn resolution_for(
    alloc: Global,
    l: Linker,
    class: u32,
    pool: &[Const],
    used: Use,
    index: u16,
) -> Result<Resolution, NoMemory>
    ensures { IfOk result (λ n. n ≡ use_resolution (linking_in l.entry) class pool.now used index) }
{
    match used {
        Use::Value => push_at(l, pool, index),
        Use::Field => field_at(alloc, l, pool, index),
        Use::Method => method_at(alloc, l, class, pool, false, index),
        Use::Special => method_at(alloc, l, class, pool, true, index),
        Use::Class => named_class(alloc, l, pool, index),
        Use::Elements => array_of_named(alloc, l, pool, index),
    }
}

/// The number of what the constant at an index means where it is used so. What isn't known yet is looked for, and added to the table.
pub fn known_number(
    alloc: Global,
    l: Linker,
    class: u32,
    pool: &[Const],
    known: &mut KnownResolutions,
    table: &mut Vec<Resolution>,
    used: Use,
    index: u16,
) -> Result<u32, NoMemory>
    requires { Knows (linking_in l) class pool.now table.old.items known.old }
    ensures number { IfOk result (λ n. slice_get table.new.items n ≡
        Some (use_resolution (linking_in l.entry) class pool.now used index)) }
    ensures extends { OnOk result (Extends table.old.items table.new.items) }
    ensures known { OnOk result
        (Knows (linking_in l.entry) class pool.now table.new.items known.new) }
{
    if let Some(number) = known.find(used, index) {
        return Ok(number);
    }
    let resolution = resolution_for(alloc, l, class, pool, used, index)?;
    let number = add_resolution(table, resolution)?;
    known.note(used, number, index);
    Ok(number)
}
