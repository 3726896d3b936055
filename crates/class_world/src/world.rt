//! Links a program, and answers what is asked of a linked one.

ghost use Rattle.std.specs.Prelude.{◌≡◌, ◌++◌, ℕ, List, Some, IfOk, OnOk, drop, slice_get, vec_len};
ghost use Rattle.std.specs.Option.{option_copied};
ghost use Rattle.items.specs.Memory.{OkUnless};
ghost use Rattle.link_rules.specs.declared.why.LinkWhy.{LinkWhy};
ghost use Rattle.link_rules.specs.Program as spec;
ghost use Rattle.link_rules.specs.Faults.{Links, link_fault};
ghost use Rattle.link_rules.specs.Hierarchy as hierarchy;
ghost use Rattle.link_rules.specs.Members as members;
ghost use Rattle.link_resolution.specs.Keys.{key_of};
ghost use Rattle.link_model.specs.World.{array_type};
ghost use Rattle.link_model.specs.Worlds.{world_of};
ghost use Rattle.link_model.specs.LookUps as asked;
ghost use Rattle.link_model.specs.MainMethod.{main_of};
ghost use Rattle.link_model.specs.Methods as methods;
ghost use Rattle.link_model.specs.Fields.{instance_fields, place};
ghost use Rattle.link_model.specs.Subtypes.{is_sub, type_below, type_of};
ghost use Rattle.class_world.specs.Numbers.{HasNumbers};

use crate::error::LinkError;
use crate::numbers::has_numbers;
use crate::subtypes;
use class_model::ClassFile;
use descriptors::Kind;
use items::NoMemory;
use link_checks::link_fault;
use link_model::{ArrayType, Site};
use link_resolution::{Classes, Hierarchy, MemberKey, select};
use link_rules::{Choice, LinkFault, MemberPlace};
use link_tables::Tables;
use std::alloc::Global;
use std::marker::Model;

/// The classes of a program that links, each by its number, which is its place in the list.
#[derive(Drop)]
pub struct World {
    tables: Tables,
}

impl Model for World {
    ghost use Rattle.link_rules.specs.Program.{Program};

    ghost Value = { Program };

    ghost use Rattle.class_world.specs.World.{program_of, IsLinked};

    ghost view = { program_of };

    ghost invariant = { IsLinked };
}

/// Links the built-in classes and those of the files. Where they don't link, the error names the first class with a fault and its
/// first fault (JVMS 5.3, 5.4).
pub fn link(
    alloc: Global,
    built_in: Vec<ClassFile>,
    files: Vec<ClassFile>,
) -> Result<World, LinkError>
    // The program that is answered has these classes, and it links.
    ensures found { IfOk result (λ world. world ≡ spec.program built_in.items files.items) }
    ensures linked { IfOk result Links }
    // Each thing has a number; a program with more of them counts as memory run out.
    ensures numbers { IfOk result (λ world. HasNumbers (world_of world)) }
    // A program that links is answered, unless memory ran out.
    ensures only { Links (spec.program built_in.items files.items)
        → OkUnless result LinkError.NoMemory
        (λ world. world ≡ spec.program built_in.items files.items) }
    // A refusal names the first fault.
    ensures bad { (class : List ℕ) (why : LinkWhy) → result ≡ Err (LinkError.Fault class why)
        → link_fault (spec.program built_in.items files.items)
        ≡ Some (record { class = class; why = why }) }
{
    let hierarchy = Hierarchy::new(alloc, Classes::new(alloc, built_in, files)?)?;
    match link_fault(alloc, &hierarchy)? {
        None => numbered(Tables::new(alloc, hierarchy)?),
        Some(LinkFault { class, why }) => Err(LinkError::Fault { class, why }),
    }
}

// The world of these tables, if each thing has a number.
fn numbered(tables: Tables) -> Result<World, LinkError>
    requires links { Links tables.program }
    requires world { tables ≡ world_of tables.program }
    ensures world { OkUnless result LinkError.NoMemory (λ world. world ≡ tables.program) }
    ensures numbers { IfOk result (λ world. HasNumbers (world_of world)) }
{
    if has_numbers(&tables) {
        Ok(World { tables })
    } else {
        Err(LinkError::NoMemory)
    }
}

impl World {
    /// That the program links (JVMS 5.3, 5.4), and that each of its things has a number. It does nothing.
    pub fn links(&self)
        ensures links { Links self.now }
        ensures numbers { HasNumbers (world_of self.now) }
    {
        let _ = self.tables.name_count();
    }

    /// The files of the classes, the built-in ones first.
    pub fn classes(&self) -> &[ClassFile]
        ensures { result.now ≡ self.now.classes }
    {
        self.tables.hierarchy().classes().files()
    }

    /// The files of the classes that aren't built in.
    pub fn files(&self) -> &[ClassFile]
        ensures { result.now ≡ drop self.now.built_in self.now.classes }
    {
        self.tables.hierarchy().classes().from_files()
    }

    /// The class of this name. `None`: the program has no such class.
    pub fn class_named(&self, name: &[u16]) -> Option<u32>
        ensures { result ≡ spec.class_named self.now name.now }
    {
        self.tables.hierarchy().classes().class_named(name)
    }

    /// The file of a class. `None`: there is no such class.
    pub fn file(&self, class: u32) -> Option<&ClassFile>
        ensures { option_copied result ≡ slice_get self.now.classes class }
    {
        self.tables.hierarchy().classes().file(class)
    }

    /// The superclass of a class; Object has none.
    pub fn parent(&self, class: u32) -> Option<u32>
        ensures { result ≡ hierarchy.parent_of self.now class }
    {
        self.tables.hierarchy().parent(class)
    }

    /// Whether the objects of a class or an array class are instances of another, in constant time (JVMS 6.5: checkcast, instanceof).
    pub fn is_sub(&self, class: u32, other: u32) -> bool
        ensures { result ≡ is_sub (world_of self.now) class other }
    {
        subtypes::is_sub(self, class, other)
    }

    /// Whether the objects of a class or an array class are of a type, in constant time (JVMS 6.5: aastore). A class that is no array class
    /// is the type of its objects without dimensions.
    pub fn is_of_type(&self, class: u32, kind: ArrayType) -> bool
        ensures { result ≡ type_below (world_of self.now) (type_of (world_of self.now) class) kind }
    {
        subtypes::is_of_type(self, class, kind)
    }

    /// The method of this key that the class itself declares. `None`: it declares none.
    pub fn method_named(&self, class: u32, key: MemberKey) -> Option<MemberPlace>
        ensures { result ≡ members.declared_method self.now (key_of key.entry) class }
    {
        self.tables.hierarchy().declared_method(key, class)
    }

    // The class in which selection begins.
    fn selecting_class(&self, class: u32) -> Option<u32>
        ensures { result ≡ methods.selecting_class (world_of self.now) class }
    {
        if self.array_type(class).is_some() {
            self.tables.object()
        } else {
            Some(class)
        }
    }

    /// What invokevirtual or invokeinterface of a method selects on an object of a class or an array class (JVMS 5.4.6). This goes up the
    /// superclasses. `None`: there is no method of this number.
    pub fn select(&self, alloc: Global, class: u32, method: u32) -> Result<Option<Choice>, NoMemory>
        ensures { IfOk result (λ choice.
            choice ≡ methods.choice_of (world_of self.now) class method) }
    {
        let Some(start) = self.selecting_class(class) else {
            return Ok(None);
        };
        let Some(at) = self.tables.method_place(method)? else {
            return Ok(None);
        };
        let choice = select(alloc, self.tables.hierarchy(), start, at)?;
        Ok(Some(choice))
    }

    /// What the instruction at a pc of a method names, in constant time; at a pc where none begins, nothing (JVMS 6.5).
    pub fn site(&self, method: u32, pc: u32) -> Site
        ensures { result ≡ asked.site (world_of self.now) method pc }
    {
        self.tables().site(method, pc)
    }

    /// The number of `public static void main(String[])` of the class of this name (JLS 12.1.4). `None`: there is no such class, or it declares
    /// no such method.
    pub fn main_of(&self, name: &[u16]) -> Option<u32>
        ensures { result ≡ main_of (world_of self.now) name.now }
    {
        self.tables().main_of(name)
    }

    /// The numbers of the fields of an object of a class, those of the superclass first, in constant time.
    pub fn instance_fields(&self, class: u32) -> &[u32]
        ensures { result.now ≡ instance_fields (world_of self.now) class }
    {
        self.tables().instance_fields(class)
    }

    /// The place of a field, in constant time: a static field's among all static fields, another's among the fields of an object of its
    /// class, and of each class below. `None`: there is no field of this number.
    pub fn place(&self, field: u32) -> Option<u32>
        ensures { result ≡ place (world_of self.now) field }
    {
        self.tables().place(field)
    }

    /// The number of an array class, by the type of its objects. `None`: the program has no array of such elements as deep.
    pub fn array_of(&self, kind: &Kind) -> Option<u32>
        ensures { result ≡ asked.array_of (world_of self.now) kind.now }
    {
        self.tables.array_of(kind)
    }

    /// The dimensions and the last elements of an array class, in constant time. `None`: the class is no array class.
    pub fn array_type(&self, class: u32) -> Option<ArrayType>
        ensures { result ≡ array_type (world_of self.now) class }
    {
        self.tables.array_type(class)
    }

    /// The number of the class of an array's elements, in constant time. `None`: the class is no array class, or its elements are
    /// primitive.
    pub fn element(&self, class: u32) -> Option<u32>
        ensures { result ≡ asked.element (world_of self.now) class }
    {
        self.tables.element(class)
    }

    /// The tables of the world: the numbers of names, array types, fields and methods, and what the constants of instructions mean.
    pub fn tables(&self) -> &Tables
        ensures { result.now ≡ world_of self.now }
    {
        &self.tables
    }
}
