//! The constant pool of a class file that is made (JVMS 4.4).

ghost use Rattle.std.specs.Prelude.{◌≡◌, List, [], ◌∷◌, IfOk, position};
ghost use Rattle.class_model.specs.declared.constant.Const.{Const};
ghost use Rattle.class_model.specs.declared.constant.Const.TheVariants.{Unused};
ghost use Rattle.lib_table.specs.Pool as spec;

use class_grammar::is_same;
use class_model::Const;
use items::{Items, NoMemory};
use shared_slices::SharedSlice;
use std::alloc::Global;
use std::marker::Model;

fn is_utf8(constant: &Const, text: &[u16]) -> bool
    ensures { result ≡ spec.is_utf8 text.now constant.now }
{
    match constant {
        Const::Utf8(units) => units.as_slice() == text,
        _ => false,
    }
}

fn is_class(constant: &Const, name: u16) -> bool
    ensures { result ≡ spec.is_class name constant.now }
{
    match constant {
        Const::Class(n) => *n == name,
        _ => false,
    }
}

fn is_string(constant: &Const, text: u16) -> bool
    ensures { result ≡ spec.is_string text constant.now }
{
    match constant {
        Const::Text(n) => *n == text,
        _ => false,
    }
}

fn is_name_and_type(constant: &Const, name: u16, descriptor: u16) -> bool
    ensures { result ≡ spec.is_name_and_type name descriptor constant.now }
{
    match constant {
        Const::NameAndType(n, d) => *n == name && *d == descriptor,
        _ => false,
    }
}

fn is_field(constant: &Const, class: u16, member: u16) -> bool
    ensures { result ≡ spec.is_field class member constant.now }
{
    match constant {
        Const::Fieldref(c, m) => *c == class && *m == member,
        _ => false,
    }
}

fn is_method(constant: &Const, class: u16, member: u16) -> bool
    ensures { result ≡ spec.is_method class member constant.now }
{
    match constant {
        Const::Methodref(c, m) => *c == class && *m == member,
        _ => false,
    }
}

fn is_interface_method(constant: &Const, class: u16, member: u16) -> bool
    ensures { result ≡ spec.is_interface_method class member constant.now }
{
    match constant {
        Const::InterfaceMethodref(c, m) => *c == class && *m == member,
        _ => false,
    }
}

fn is_entry(wanted: &Const, entry: &Const) -> bool
    ensures { result ≡ spec.is_entry wanted.now entry.now }
{
    match wanted {
        Const::Utf8(units) => is_utf8(entry, units),
        Const::Class(name) => is_class(entry, *name),
        Const::Text(text) => is_string(entry, *text),
        Const::NameAndType(name, descriptor) => is_name_and_type(entry, *name, *descriptor),
        Const::Fieldref(class, member) => is_field(entry, *class, *member),
        Const::Methodref(class, member) => is_method(entry, *class, *member),
        Const::InterfaceMethodref(class, member) => is_interface_method(entry, *class, *member),
        _ => false,
    }
}

fn position_of(entries: &[Const], wanted: &Const) -> Option<usize>
    ensures { result ≡ position (spec.is_entry wanted.now) entries.now }
{
    entries.iter().position(|entry| is_entry(wanted, entry))
}

fn is_text(entry: &Const, text: &str) -> bool
    ensures { result ≡ spec.is_utf8 text.now entry.now }
{
    match entry {
        Const::Utf8(units) => is_same(units, text.as_bytes()),
        _ => false,
    }
}

fn position_of_text(entries: &[Const], text: &str) -> Option<usize>
    ensures { result ≡ position (spec.is_utf8 text.now) entries.now }
{
    entries.iter().position(|entry| is_text(entry, text))
}

// The index as a class file has it. One of more than two bytes counts as want of memory.
pub fn narrow(index: usize) -> Result<u16, NoMemory>
    ensures { IfOk result (λ n. n ≡ index) }
{
    if index > u16::MAX as usize {
        return Err(NoMemory);
    }
    Ok(index as u16)
}

// The units of a text in ASCII.
fn units_of(alloc: Global, text: &str) -> Result<SharedSlice<u16>, NoMemory>
    ensures { IfOk result (λ units. units ≡ text.now) }
{
    let bytes = text.as_bytes();
    let mut units = Vec::with_capacity(alloc, bytes.len())?;
    for byte in bytes {
        units.push(u16::from(*byte))?;
    }
    Ok(SharedSlice::new(alloc, units)?)
}

/// A constant pool that grows. Its value is the list of its entries.
#[derive(Drop)]
pub struct ConstantPool {
    alloc: Global,
    entries: Vec<Const>,
}

impl Model for ConstantPool {
    ghost Value = { List Const };

    ghost view = { λ p. p.entries.items };
}

impl ConstantPool {
    /// A pool without constants.
    pub fn new(alloc: Global) -> Result<Self, NoMemory>
        ensures { IfOk result (λ pool. pool ≡ Unused ∷ []) }
    {
        let mut entries = Vec::new(alloc);
        entries.push(Const::Unused)?;
        Ok(ConstantPool { alloc, entries })
    }

    /// The entries.
    pub fn into_entries(self) -> Items<Const>
        ensures { result ≡ self }
    {
        let ConstantPool { alloc: _, entries } = self;
        entries.into()
    }

    // The index at which the constant was found, or its index after the others.
    fn place_at(&mut self, found: Option<usize>, constant: Const) -> Result<u16, NoMemory>
        ensures { IfOk result
            (λ index. (index, self.new) ≡ spec.placed_at found constant self.old) }
    {
        if let Some(index) = found {
            return narrow(index);
        }
        let index = narrow(self.entries.len())?;
        self.entries.push(constant)?;
        Ok(index)
    }

    #[tactic(auto, unfolding(crate::specs::Pool::placed))]
    fn place(&mut self, constant: Const) -> Result<u16, NoMemory>
        ensures { IfOk result (λ index. (index, self.new) ≡ spec.placed constant self.old) }
    {
        let found = position_of(&self.entries, &constant);
        self.place_at(found, constant)
    }

    /// The index of a text in ASCII.
    #[tactic(auto, unfolding(crate::specs::Pool::placed))]
    pub fn text(&mut self, text: &str) -> Result<u16, NoMemory>
        ensures { IfOk result (λ index. (index, self.new) ≡ spec.text text.now self.old) }
    {
        if let Some(index) = position_of_text(&self.entries, text) {
            return narrow(index);
        }
        let units = units_of(self.alloc, text)?;
        self.place_at(None, Const::Utf8(units))
    }

    /// The index of a class.
    pub fn class(&mut self, name: &str) -> Result<u16, NoMemory>
        ensures { IfOk result (λ index. (index, self.new) ≡ spec.class name.now self.old) }
    {
        let name = self.text(name)?;
        self.place(Const::Class(name))
    }

    /// The index of a String.
    pub fn string(&mut self, text: &str) -> Result<u16, NoMemory>
        ensures { IfOk result (λ index. (index, self.new) ≡ spec.string text.now self.old) }
    {
        let text = self.text(text)?;
        self.place(Const::Text(text))
    }

    // The index of a name with a descriptor.
    fn name_and_type(&mut self, name: &str, descriptor: &str) -> Result<u16, NoMemory>
        ensures { IfOk result (λ index. (index, self.new) ≡
            spec.name_and_type name.now descriptor.now self.old) }
    {
        let name = self.text(name)?;
        let descriptor = self.text(descriptor)?;
        self.place(Const::NameAndType(name, descriptor))
    }

    /// The index of a field, by its class, its name and its descriptor.
    pub fn field(&mut self, class: &str, name: &str, descriptor: &str) -> Result<u16, NoMemory>
        ensures { IfOk result (λ index. (index, self.new) ≡
            spec.field class.now name.now descriptor.now self.old) }
    {
        let class = self.class(class)?;
        let member = self.name_and_type(name, descriptor)?;
        self.place(Const::Fieldref(class, member))
    }

    /// The index of a method of a class.
    pub fn method(&mut self, class: &str, name: &str, descriptor: &str) -> Result<u16, NoMemory>
        ensures { IfOk result (λ index. (index, self.new) ≡
            spec.method class.now name.now descriptor.now self.old) }
    {
        let class = self.class(class)?;
        let member = self.name_and_type(name, descriptor)?;
        self.place(Const::Methodref(class, member))
    }

    /// The index of a method of an interface.
    pub fn interface_method(
        &mut self,
        class: &str,
        name: &str,
        descriptor: &str,
    ) -> Result<u16, NoMemory>
        ensures { IfOk result (λ index. (index, self.new) ≡
            spec.interface_method class.now name.now descriptor.now self.old) }
    {
        let class = self.class(class)?;
        let member = self.name_and_type(name, descriptor)?;
        self.place(Const::InterfaceMethodref(class, member))
    }
}
