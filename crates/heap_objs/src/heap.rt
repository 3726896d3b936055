//! A heap of objects, and the calls that change it (JVMS 2.5.3).

ghost use Rattle.std.specs.Prelude.{◌≡◌, ◌↔◌, ◌+◌, ◌-◌, ◌/◌, ◌^◌, ◌<◌, ◌≤◌, [], length, replicate, is_some, slice_get, Some, Err, IfOk, IsSome, OnErr, OnOk};
ghost use Rattle.state_model.specs.Objects.{instance, text};
ghost use Rattle.heap_objs.specs.Heap.{cells_of, class_at, made, units_at, values_at, with_cells, with_object, with_value};

use crate::error::HeapError;
use crate::table::{Entry, next_number, small_len};
use instruction_rows::Value;
use items::NoMemory;
use std::alloc::Global;
use std::marker::Model;

/// The objects of a program, by number from 0 in the order in which they were made, and how many cells they use of those that
/// there are.
#[derive(Drop)]
pub struct Heap {
    table: Vec<Entry>,
    values: Vec<Value>,
    units: Vec<u16>,
    cells: u32,
    used: u32,
}

impl Model for Heap {
    ghost use Rattle.heap_objs.specs.Heap.{Heap};

    ghost Value = { Heap };

    ghost use Rattle.heap_objs.specs.Layout.{IsHeap, seen};

    ghost view = { seen };

    ghost invariant = { IsHeap };
}

impl Heap {
    /// Makes a heap with this many cells and no object. This takes no memory.
    pub fn new(alloc: Global, cells: u32) -> Self
        ensures { result ≡ record { objects = []; cells = cells; used = 0 } }
    {
        Heap {
            table: Vec::new(alloc),
            values: Vec::new(alloc),
            units: Vec::new(alloc),
            cells,
            used: 0,
        }
    }

    /// Makes an object of the opening heap, which uses no cell: its number.
    pub fn opening_object(&mut self, class: u32, values: &[Value]) -> Result<u32, NoMemory>
        ensures number { IfOk result (λ o. o ≡ length self.old.objects) }
        ensures ok { OnOk result (self.new ≡ with_object (instance class values.now) self.old) }
        ensures err { OnErr result (self.new ≡ self.old) }
    {
        let len = small_len(values.len())?;
        let number = next_number(&mut self.table)?;
        let start = self.values.len();
        self.values.extend_from_slice(values)?;
        self.table.push_reserved(Entry {
            class: Some(class),
            start,
            len,
        });
        Ok(number)
    }

    /// Makes a String of the opening heap, which uses no cell: its number.
    pub fn opening_text(&mut self, units: &[u16]) -> Result<u32, NoMemory>
        ensures number { IfOk result (λ o. o ≡ length self.old.objects) }
        ensures ok { OnOk result (self.new ≡ with_object (text units.now) self.old) }
        ensures err { OnErr result (self.new ≡ self.old) }
    {
        let len = small_len(units.len())?;
        let number = next_number(&mut self.table)?;
        let start = self.units.len();
        self.units.extend_from_slice(units)?;
        self.table.push_reserved(Entry {
            class: None,
            start,
            len,
        });
        Ok(number)
    }

    // Makes an array that uses no cell.
    fn uncounted_array(&mut self, class: u32, len: u32, first: Value) -> Result<u32, NoMemory>
        ensures number { IfOk result (λ o. o ≡ length self.old.objects) }
        ensures ok { OnOk result
            (self.new ≡ with_object (instance class (replicate len first)) self.old) }
        ensures err { OnErr result (self.new ≡ self.old) }
    {
        let number = next_number(&mut self.table)?;
        let start = self.values.len();
        self.values.resize(start + len as usize, first)?;
        self.table.push_reserved(Entry {
            class: Some(class),
            start,
            len,
        });
        Ok(number)
    }

    /// How many cells are left.
    pub fn room(&self) -> u32
        ensures { result ≡ self.now.cells - self.now.used }
    {
        self.cells - self.used
    }

    // Counts cells of an object that was made.
    fn count_cells(&mut self, cells: u32)
        requires { self.old.used + cells ≤ self.old.cells }
        ensures { self.new ≡ with_cells cells self.old }
    {
        self.used += cells;
    }

    /// Makes an object of a class, with the values of its fields: its number. `Full` comes exactly where the cells in use and those of
    /// the object are more than there are. After an error nothing has changed.
    pub fn object(&mut self, class: u32, values: &[Value]) -> Result<u32, HeapError>
        ensures full { (result ≡ Err HeapError.Full)
            ↔ (self.old.cells < self.old.used + cells_of (instance class values.now)) }
        ensures number { IfOk result (λ o. o ≡ length self.old.objects) }
        ensures ok { OnOk result (self.new ≡ made (instance class values.now) self.old) }
        ensures err { OnErr result (self.new ≡ self.old) }
    {
        if values.len() >= self.room() as usize {
            return Err(HeapError::Full);
        }
        let number = self.opening_object(class, values)?;
        self.count_cells(1 + values.len() as u32);
        Ok(number)
    }

    /// Makes an array of a class, whose elements have one value: its number. `Full` comes exactly where the cells in use and those of
    /// the array are more than there are. After an error nothing has changed.
    pub fn array(&mut self, class: u32, len: u32, first: Value) -> Result<u32, HeapError>
        ensures full { (result ≡ Err HeapError.Full)
            ↔ (self.old.cells < self.old.used + cells_of (instance class (replicate len first))) }
        ensures number { IfOk result (λ o. o ≡ length self.old.objects) }
        ensures ok { OnOk result (self.new ≡ made (instance class (replicate len first)) self.old) }
        ensures err { OnErr result (self.new ≡ self.old) }
    {
        if len >= self.room() {
            return Err(HeapError::Full);
        }
        let number = self.uncounted_array(class, len, first)?;
        self.count_cells(1 + len);
        Ok(number)
    }

    /// Makes a String: its number. `Full` comes exactly where the cells in use and those of the String are more than there are. After
    /// an error nothing has changed.
    pub fn text(&mut self, units: &[u16]) -> Result<u32, HeapError>
        ensures full { (result ≡ Err HeapError.Full)
            ↔ (self.old.cells < self.old.used + cells_of (text units.now)) }
        ensures number { IfOk result (λ o. o ≡ length self.old.objects) }
        ensures ok { OnOk result (self.new ≡ made (text units.now) self.old) }
        ensures err { OnErr result (self.new ≡ self.old) }
    {
        let cells = text_cells(units.len());
        if cells >= self.room() as usize {
            return Err(HeapError::Full);
        }
        let number = self.opening_text(units)?;
        self.count_cells(1 + cells as u32);
        Ok(number)
    }

    /// The value of an object at an index.
    #[inline(always)]
    pub fn get(&self, o: u32, i: u32) -> Value
        requires { i < length (values_at self.now.objects o) }
        ensures { slice_get (values_at self.now.objects o) i ≡ Some result }
    {
        let entry = self.table[o as usize];
        self.values[entry.start + i as usize]
    }

    /// Sets the value of an object at an index.
    #[inline(always)]
    pub fn set(&mut self, o: u32, i: u32, value: Value)
        requires { i < length (values_at self.old.objects o) }
        ensures { self.new ≡ record self.old { objects = with_value o i value self.old.objects } }
    {
        let entry = self.table[o as usize];
        self.values[entry.start + i as usize] = value;
    }

    /// The class of an object that is no String.
    #[inline(always)]
    pub fn class_of(&self, o: u32) -> u32
        requires { IsSome (class_at self.now.objects o) }
        ensures { class_at self.now.objects o ≡ Some result }
    {
        let entry = self.table[o as usize];
        match entry.class {
            Some(class) => class,
            None => unreachable!(),
        }
    }

    /// How many values an object has that is no String.
    #[inline(always)]
    pub fn len(&self, o: u32) -> u32
        requires { IsSome (class_at self.now.objects o) }
        ensures { result ≡ length (values_at self.now.objects o) }
    {
        let entry = self.table[o as usize];
        entry.len
    }

    /// The units of a String.
    pub fn units(&self, o: u32) -> &[u16]
        requires { IsSome (units_at self.now.objects o) }
        ensures { units_at self.now.objects o ≡ Some result.now }
    {
        let entry = self.table[o as usize];
        let (_, behind) = self.units.split_at(entry.start);
        let (units, _) = behind.split_at(entry.len as usize);
        units
    }

    /// Whether an object is a String.
    #[inline(always)]
    pub fn is_text(&self, o: u32) -> bool
        requires { o < length self.now.objects }
        ensures { result ≡ is_some (units_at self.now.objects o) }
    {
        let entry = self.table[o as usize];
        entry.class.is_none()
    }

    /// How many objects there are.
    pub fn count(&self) -> usize
        ensures { result ≡ length self.now.objects }
    {
        self.table.len()
    }

    /// How many cells are in use, at most as many as there are.
    pub fn used(&self) -> u32
        ensures used { result ≡ self.now.used }
        ensures most { result ≤ self.now.cells }
    {
        self.used
    }
}

// How many cells the units of a String take.
fn text_cells(units: usize) -> usize
    ensures { result ≡ (units + 7) / 8 }
{
    units / 8 + usize::from(units % 8 != 0)
}
