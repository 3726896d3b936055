//! The numbers of fields and methods.

ghost use Rattle.std.specs.Prelude.{◌≡◌, ◌+◌, Some, length, slice_get, IfOk};
ghost use Rattle.link_rules.specs.Members as spec;
ghost use Rattle.link_resolution.specs.Tables.{tabulate};

use class_model::ClassFile;
use items::NoMemory;
use link_resolution::Hierarchy;
use link_rules::MemberPlace;
use std::alloc::Global;
use std::marker::Model;

/// A program with the numbers of the first field and of the first method of each class.
#[derive(Drop)]
pub struct MemberNumbers {
    hierarchy: Hierarchy,
    fields: Vec<u32>,
    methods: Vec<u32>,
}

impl Model for MemberNumbers {
    ghost use Rattle.link_rules.specs.Program.{Program};

    ghost Value = { Program };

    ghost use Rattle.link_numbers.specs.MemberNumbers.{program_of, IsCounted};

    ghost view = { program_of };

    ghost invariant = { IsCounted };
}

// Adds a count of members to a number. Numbers from 2^32 on count as memory run out.
fn behind(number: u32, count: usize) -> Result<u32, NoMemory>
    ensures { IfOk result (λ n. n ≡ number + count) }
{
    let count = u32::try_from(count).map_err(|_| NoMemory)?;
    number.checked_add(count).ok_or(NoMemory)
}

fn first_fields(alloc: Global, files: &[ClassFile]) -> Result<Vec<u32>, NoMemory>
    ensures { IfOk result (λ v.
        v.items ≡ tabulate (spec.fields_before files.now) (length files.now)) }
{
    let mut firsts = Vec::new(alloc);
    let mut next = 0u32;
    for file in files {
        firsts.push(next)?;
        next = behind(next, file.fields.len())?;
    }
    Ok(firsts)
}

fn first_methods(alloc: Global, files: &[ClassFile]) -> Result<Vec<u32>, NoMemory>
    ensures { IfOk result (λ v.
        v.items ≡ tabulate (spec.methods_before files.now) (length files.now)) }
{
    let mut firsts = Vec::new(alloc);
    let mut next = 0u32;
    for file in files {
        firsts.push(next)?;
        next = behind(next, file.methods.len())?;
    }
    Ok(firsts)
}

// The number of a class in a table. A class that isn't there counts as memory run out: no place has one.
fn first_at(firsts: &[u32], class: u32) -> Result<u32, NoMemory>
    ensures { IfOk result (λ n. slice_get firsts.now class ≡ Some n) }
{
    match firsts.get(class as usize) {
        Some(first) => Ok(*first),
        None => Err(NoMemory),
    }
}

impl MemberNumbers {
    /// The numbers of a program's members. Numbers from 2^32 on count as memory run out.
    pub fn new(alloc: Global, hierarchy: Hierarchy) -> Result<Self, NoMemory>
        ensures { IfOk result (λ numbers. numbers ≡ hierarchy) }
    {
        let fields = first_fields(alloc, hierarchy.classes().files())?;
        let methods = first_methods(alloc, hierarchy.classes().files())?;
        Ok(MemberNumbers {
            hierarchy,
            fields,
            methods,
        })
    }

    /// The program.
    pub fn hierarchy(&self) -> &Hierarchy
        ensures { result.now ≡ self.now }
    {
        &self.hierarchy
    }

    /// The number of the first field of a class. A class that isn't there counts as memory run out.
    pub fn first_field(&self, class: u32) -> Result<u32, NoMemory>
        ensures { IfOk result (λ n. n ≡ spec.fields_before self.now.classes class) }
    {
        let first = first_at(&self.fields, class)?;
        Ok(first)
    }

    /// The number of the first method of a class. A class that isn't there counts as memory run out.
    pub fn first_method(&self, class: u32) -> Result<u32, NoMemory>
        ensures { IfOk result (λ n. n ≡ spec.methods_before self.now.classes class) }
    {
        let first = first_at(&self.methods, class)?;
        Ok(first)
    }

    /// The number of the field at a place.
    pub fn field_number(&self, at: MemberPlace) -> Result<u32, NoMemory>
        ensures { IfOk result (λ n. n ≡ spec.field_number self.now at) }
    {
        let first = first_at(&self.fields, at.class)?;
        let number = behind(first, at.index)?;
        Ok(number)
    }

    /// The number of the method at a place.
    pub fn method_number(&self, at: MemberPlace) -> Result<u32, NoMemory>
        ensures { IfOk result (λ n. n ≡ spec.method_number self.now at) }
    {
        let first = first_at(&self.methods, at.class)?;
        let number = behind(first, at.index)?;
        Ok(number)
    }
}
