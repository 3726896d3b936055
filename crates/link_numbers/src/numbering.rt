//! The numbers of classes and array types: the classes of the program by their places, then the other classes that its files name,
//! then the array types.

ghost use Rattle.std.specs.Prelude.{◌≡◌, ◌+◌, ◌<◌, ◌^◌, length, map, replicate, OnOk, IfOk};
ghost use Rattle.std.specs.List.{flat_map, fold};
ghost use Rattle.class_grammar.specs.Names.{is_like_method as method_like};
ghost use Rattle.link_rules.specs.Program.{own_name as name_of};
ghost use Rattle.link_model.specs.Infos.{codes_in, codes_of};
ghost use Rattle.link_model.specs.Numbering as spec;
ghost use Rattle.link_numbers.specs.Decodings as decodings;

use crate::codes::instrs_in;
use crate::kinds::{array_of_kind, array_of_primitive, kind_named, kind_of, signature_of};
use crate::names::Names;
use class_grammar::text_at;
use class_model::{ClassFile, Const, Member};
use descriptors::{ElementType, Kind, Signature};
use items::NoMemory;
use link_model::MethodCode;
use link_resolution::{Hierarchy, name_at, own_name};
use opcodes::{Instr, Op};
use std::alloc::Global;
use std::marker::Model;

/// The names of classes by number, and how deep the arrays of each type are.
#[derive(Drop)]
pub struct Numbering {
    names: Names,
    depths: Vec<u8>,
}

impl Model for Numbering {
    ghost use Rattle.link_model.specs.Numbering.{Numbering};

    ghost Value = { Numbering };

    ghost view = { λ a. record { names = a.names; depths = a.depths.items } };
}

/// The place of a type that is no array among all such types.
pub fn element_index(names: &Names, element: &ElementType) -> usize
    ensures { result ≡ spec.element_index names.now element.now }
{
    match element {
        ElementType::Bool => 0,
        ElementType::Byte => 1,
        ElementType::Char => 2,
        ElementType::Short => 3,
        ElementType::Int => 4,
        ElementType::Long => 5,
        ElementType::Float => 6,
        ElementType::Double => 7,
        ElementType::Class(name) => 8 + names.number(name).unwrap_or(names.count()) as usize,
    }
}

// Whether a text begins as the descriptor of a method does.
fn is_like_method(text: &[u16]) -> bool
    ensures { result ≡ method_like text.now }
{
    match text {
        [first, ..] => *first == b'(' as u16,
        [] => false,
    }
}

// The numbers of the classes of the program alone.
fn first_numbers(alloc: Global, files: &[ClassFile]) -> Result<Numbering, NoMemory>
    requires { length files.now < 2 ^ 32 }
    ensures { IfOk result (λ n. n ≡ record {
      names = map name_of files.now;
      depths = replicate (8 + length files.now) 0;
    }) }
{
    let mut names = Names::new(alloc);
    for file in files {
        names.push(alloc, own_name(file))?;
    }
    let mut depths = Vec::new(alloc);
    depths.resize(8 + files.len(), 0)?;
    Ok(Numbering { names, depths })
}

impl Numbering {
    // Adds a class, unless it is there.
    fn add_class(&mut self, alloc: Global, name: &[u16]) -> Result<(), NoMemory>
        ensures { OnOk result (self.new ≡ spec.with_class self.old name.now) }
    {
        if self.names.number(name).is_some() {
            return Ok(());
        }
        self.names.push(alloc, name)?;
        self.depths.push(0)?;
        Ok(())
    }

    fn add_element(&mut self, alloc: Global, element: &ElementType) -> Result<(), NoMemory>
        ensures { OnOk result (self.new ≡ spec.with_element self.old element.now) }
    {
        match element {
            ElementType::Class(name) => self.add_class(alloc, name),
            _ => Ok(()),
        }
    }

    // Notes an array with these last elements and dimensions.
    fn deepen(&mut self, element: &ElementType, dimensions: u8)
        ensures { self.new ≡ spec.deeper self.old element.now dimensions }
    {
        if dimensions == 0 {
            return;
        }
        let index = element_index(&self.names, element);
        if index < self.depths.len() {
            self.depths[index] = self.depths[index].max(dimensions);
        }
    }

    fn add_kind(&mut self, alloc: Global, kind: &Kind) -> Result<(), NoMemory>
        ensures { OnOk result (self.new ≡ spec.with_kind self.old kind.now) }
    {
        self.add_element(alloc, &kind.element)?;
        self.deepen(&kind.element, kind.dimensions);
        Ok(())
    }

    fn add_kinds(&mut self, alloc: Global, kinds: &[Kind]) -> Result<(), NoMemory>
        ensures { OnOk result (self.new ≡ fold spec.with_kind self.old kinds.now) }
    {
        for kind in kinds {
            self.add_kind(alloc, kind)?;
        }
        Ok(())
    }

    fn add_signature(&mut self, alloc: Global, signature: &Signature) -> Result<(), NoMemory>
        ensures { OnOk result (self.new ≡
            fold spec.with_kind self.old (spec.kinds_in_signature signature.now)) }
    {
        self.add_kinds(alloc, &signature.args)?;
        match &signature.result {
            Some(kind) => self.add_kind(alloc, kind),
            None => Ok(()),
        }
    }

    // The types in the descriptor of a field or a method.
    fn add_descriptor(&mut self, alloc: Global, text: &[u16]) -> Result<(), NoMemory>
        ensures { OnOk result (self.new ≡
            fold spec.with_kind self.old (spec.kinds_in_descriptor text.now)) }
    {
        if is_like_method(text) {
            let signature = signature_of(alloc, text)?;
            self.add_signature(alloc, &signature)
        } else {
            let kind = kind_of(alloc, text)?;
            self.add_kind(alloc, &kind)
        }
    }

    fn add_descriptor_at(
        &mut self,
        alloc: Global,
        pool: &[Const],
        index: u16,
    ) -> Result<(), NoMemory>
        ensures { OnOk result (self.new ≡
            fold spec.with_kind self.old (spec.kinds_at pool.now index)) }
    {
        match text_at(pool, index) {
            Some(text) => self.add_descriptor(alloc, text),
            None => Ok(()),
        }
    }

    // The class of a constant, by the index of its name.
    fn add_named(&mut self, alloc: Global, pool: &[Const], name: u16) -> Result<(), NoMemory>
        ensures { OnOk result (self.new ≡
            fold spec.with_kind self.old (spec.kinds_in_constant pool.now (Const.Class name))) }
    {
        match text_at(pool, name) {
            Some(text) => {
                let kind = kind_named(alloc, text)?;
                self.add_kind(alloc, &kind)
            }
            None => Ok(()),
        }
    }

    fn add_constant(
        &mut self,
        alloc: Global,
        pool: &[Const],
        constant: &Const,
    ) -> Result<(), NoMemory>
        ensures { OnOk result (self.new ≡
            fold spec.with_kind self.old (spec.kinds_in_constant pool.now constant.now)) }
    {
        match constant {
            Const::Class(name) => self.add_named(alloc, pool, *name),
            Const::NameAndType(_, descriptor) => self.add_descriptor_at(alloc, pool, *descriptor),
            Const::MethodType(descriptor) => self.add_descriptor_at(alloc, pool, *descriptor),
            _ => Ok(()),
        }
    }

    fn add_constants(&mut self, alloc: Global, pool: &[Const]) -> Result<(), NoMemory>
        ensures { OnOk result (self.new ≡
            fold spec.with_kind self.old (flat_map (spec.kinds_in_constant pool.now) pool.now)) }
    {
        for constant in pool {
            self.add_constant(alloc, pool, constant)?;
        }
        Ok(())
    }

    fn add_members(
        &mut self,
        alloc: Global,
        pool: &[Const],
        members: &[Member],
    ) -> Result<(), NoMemory>
        ensures { OnOk result (self.new ≡
            fold spec.with_kind self.old (flat_map (spec.kinds_in_member pool.now) members.now)) }
    {
        for member in members {
            self.add_descriptor_at(alloc, pool, member.descriptor)?;
        }
        Ok(())
    }

    // The array that an instruction makes.
    fn add_op(&mut self, alloc: Global, pool: &[Const], op: &Op) -> Result<(), NoMemory>
        ensures { OnOk result (self.new ≡
            fold spec.with_kind self.old (spec.kinds_in_op pool.now op.now)) }
    {
        match op {
            Op::NewArray(primitive) => self.add_kind(alloc, &array_of_primitive(*primitive)),
            Op::ANewArray(index) => {
                let kind = array_of_kind(kind_named(alloc, name_at(pool, *index))?);
                self.add_kind(alloc, &kind)
            }
            _ => Ok(()),
        }
    }

    fn add_instrs(
        &mut self,
        alloc: Global,
        pool: &[Const],
        instrs: &[Instr],
    ) -> Result<(), NoMemory>
        ensures { OnOk result (self.new ≡
            fold spec.with_kind self.old (flat_map (spec.kinds_in_instr pool.now) instrs.now)) }
    {
        for instr in instrs {
            self.add_op(alloc, pool, &instr.op)?;
        }
        Ok(())
    }

    fn add_codes(
        &mut self,
        alloc: Global,
        pool: &[Const],
        codes: &[Option<MethodCode>],
    ) -> Result<(), NoMemory>
        ensures { OnOk result (self.new ≡
            fold spec.with_kind self.old (flat_map (decodings.kinds_in pool.now) codes.now)) }
    {
        for code in codes {
            self.add_instrs(alloc, pool, instrs_in(code))?;
        }
        Ok(())
    }

    // The types of a file, whose methods have these codes.
    fn add_file(
        &mut self,
        alloc: Global,
        file: &ClassFile,
        codes: &[Option<MethodCode>],
    ) -> Result<(), NoMemory>
        requires { codes.now ≡ codes_in file.now }
        ensures { OnOk result (self.new ≡
            fold spec.with_kind self.old (spec.kinds_in_file file.now)) }
    {
        self.add_constants(alloc, &file.pool)?;
        self.add_members(alloc, &file.pool, &file.fields)?;
        self.add_members(alloc, &file.pool, &file.methods)?;
        self.add_codes(alloc, &file.pool, codes)?;
        Ok(())
    }

    /// The names of classes by number.
    pub fn names(&self) -> &Names
        ensures { result.now ≡ self.now.names }
    {
        &self.names
    }

    /// How deep the arrays of each type are, by the type's place.
    pub fn depths(&self) -> &[u8]
        ensures { result.now ≡ self.now.depths }
    {
        &self.depths
    }

    /// The numbers of a program, whose methods have these codes.
    pub fn new(
        alloc: Global,
        world: &Hierarchy,
        codes: &[Option<MethodCode>],
    ) -> Result<Self, NoMemory>
        requires { codes.now ≡ codes_of world.now }
        ensures { IfOk result (λ n. n ≡ spec.numbering_of world.now) }
    {
        let files = world.classes().files();
        let mut numbering = first_numbers(alloc, files)?;
        let mut rest = codes;
        for file in files {
            let (here, behind) = rest.split_at(file.methods.len());
            numbering.add_file(alloc, file, here)?;
            rest = behind;
        }
        Ok(numbering)
    }
}
