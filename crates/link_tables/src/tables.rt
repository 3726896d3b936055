//! All tables of a world, and the look-ups in them.

ghost use Rattle.std.specs.Prelude.{◌≡◌, length, get_or, slice_get, codes, [], IfOk, IfSome};
ghost use Rattle.std.specs.Option.{option_copied};
ghost use Rattle.class_grammar.specs.Names.{object_class};
ghost use Rattle.link_rules.specs.Members as members;
ghost use Rattle.link_model.specs.World as spec;
ghost use Rattle.link_model.specs.LookUps as asked;
ghost use Rattle.link_model.specs.MainMethod.{main_of};
ghost use Rattle.link_model.specs.Methods.{method_place};
ghost use Rattle.link_model.specs.Resolutions.{meanings};
ghost use Rattle.link_model.specs.Fields.{instance_fields, place};
ghost use Rattle.link_model.specs.Pools as pools;
ghost use Rattle.link_model.specs.Strings.{strings_of};
ghost use Rattle.link_model.specs.Worlds.{world_of};
ghost use Rattle.link_model.specs.Infos.{codes_of};
ghost use Rattle.link_tables.specs.Parts.{AreNumbers, AreMembers, AreOfCodes};
ghost use Rattle.link_model.specs.Decoded.{IsDecoded, code_at};

use crate::code_tables::{CodeTables, code_tables};
use crate::instance_fields::row_at;
use crate::main_method::main_among;
use crate::member_tables::{MemberTables, member_tables};
use crate::number_tables::{NumberTables, number_tables};
use crate::pc_tables::index_by;
use crate::places::place_at;
use crate::resolutions::NumberedResolutions;
use class_grammar::class_name_at;
use descriptors::Kind;
use items::{Items, NoMemory};
use link_model::{ArrayType, FieldInfo, MethodCode, MethodInfo, Resolutions, Site};
use link_numbers::{ArrayNumbers, Codes, KnownClasses, MemberNumbers, Names, all_codes};
use link_resolution::{Hierarchy, dimensions_of, is_array_name, last_element, name_in};
use link_rules::MemberPlace;
use stack_maps::{Base, VType};
use std::alloc::Global;
use std::marker::Model;

/// A program and its tables.
#[derive(Drop)]
pub struct Tables {
    members: MemberNumbers,
    codes: Codes,
    number_tables: NumberTables,
    member_tables: MemberTables,
    code_tables: CodeTables,
}

impl Model for Tables {
    ghost use Rattle.link_model.specs.World.{World};

    ghost Value = { World };

    ghost use Rattle.link_tables.specs.Tables.{AreNumbered, world_in};

    ghost view = { world_in };

    ghost invariant = { AreNumbered };
}

// The class of the elements of an array type with this number.
fn element_of(class: u32, array: ArrayType) -> Option<u32>
    ensures { result ≡ asked.element_of class array }
{
    if array.dimensions != 1 {
        return Some(class.saturating_sub(1));
    }
    match array.base {
        Base::Class(element) => Some(element),
        _ => None,
    }
}

// The tables of a program, from its codes and the tables of each part.
fn tables_of(
    members: MemberNumbers,
    codes: Codes,
    number_tables: NumberTables,
    member_tables: MemberTables,
    code_tables: CodeTables,
) -> Tables
    requires codes { codes ≡ codes_of members }
    requires numbers { AreNumbers members number_tables }
    requires of_members { AreMembers members member_tables }
    requires of_codes { AreOfCodes members code_tables }
    ensures { result ≡ world_of members }
{
    Tables {
        members,
        codes,
        number_tables,
        member_tables,
        code_tables,
    }
}

impl Tables {
    /// The tables of a program. Numbers from 2^32 on count as memory run out.
    pub fn new(alloc: Global, hierarchy: Hierarchy) -> Result<Self, NoMemory>
        ensures { IfOk result (λ tables. tables ≡ world_of hierarchy) }
    {
        let members = MemberNumbers::new(alloc, hierarchy)?;
        let codes = all_codes(alloc, members.hierarchy())?;
        let numbers = number_tables(alloc, members.hierarchy(), codes.as_slice())?;
        let of_codes = code_tables(alloc, &members, &numbers.numbers, codes.as_slice())?;
        let of_members = member_tables(alloc, &members)?;
        Ok(tables_of(members, codes, numbers, of_members, of_codes))
    }

    /// The classes of the program.
    pub fn hierarchy(&self) -> &Hierarchy
        ensures { result.now ≡ self.now.program }
    {
        self.members.hierarchy()
    }

    /// The number of the class of this name. `None`: no pool or descriptor has the name.
    pub fn name_number(&self, name: &[u16]) -> Option<u32>
        ensures { result ≡ spec.name_number self.now name.now }
    {
        self.number_tables.numbers.names().number(name)
    }

    /// How many names have a number. The array types have those after them.
    pub fn name_count(&self) -> u32
        ensures { result ≡ length self.now.names }
    {
        self.number_tables.numbers.names().count()
    }

    /// The name of a class, where it is no array class; else none.
    pub fn name(&self, n: u32) -> &[u16]
        ensures { result.now ≡ get_or self.now.names n [] }
    {
        match self.number_tables.numbers.names().text(n) {
            Some(name) => name,
            None => &[],
        }
    }

    /// The texts of the Strings that constants are, in the order of their numbers.
    pub fn strings(&self) -> &Names
        ensures { result.now ≡ strings_of self.now.program }
    {
        &self.code_tables.strings
    }

    /// The array types, in the order of their numbers after those of the names.
    pub fn arrays(&self) -> &[ArrayType]
        ensures { result.now ≡ self.now.arrays }
    {
        &self.number_tables.arrays
    }

    /// The fields, in the order of their numbers.
    pub fn fields(&self) -> &[FieldInfo]
        ensures { result.now ≡ self.now.fields }
    {
        &self.member_tables.fields
    }

    /// A field. `None`: there is no field of this number.
    pub fn field(&self, n: u32) -> Option<&FieldInfo>
        ensures { option_copied result ≡ slice_get self.now.fields n }
    {
        self.member_tables.fields.get(n as usize)
    }

    /// The number of java/lang/Object.
    pub fn object(&self) -> Option<u32>
        ensures { result ≡ spec.name_number self.now object_class }
    {
        self.number_tables.known.object
    }

    /// The number of java/lang/Cloneable.
    pub fn cloneable(&self) -> Option<u32>
        ensures { result ≡ spec.name_number self.now (codes "java/lang/Cloneable") }
    {
        self.number_tables.known.cloneable
    }

    /// The number of java/io/Serializable.
    pub fn serializable(&self) -> Option<u32>
        ensures { result ≡ spec.name_number self.now (codes "java/io/Serializable") }
    {
        self.number_tables.known.serializable
    }

    /// The number of java/lang/String.
    pub fn string(&self) -> Option<u32>
        ensures { result ≡ spec.name_number self.now (codes "java/lang/String") }
    {
        self.number_tables.known.string
    }

    /// The number of java/lang/Throwable.
    pub fn throwable(&self) -> Option<u32>
        ensures { result ≡ spec.name_number self.now (codes "java/lang/Throwable") }
    {
        self.number_tables.known.throwable
    }

    /// How many methods there are.
    pub fn method_count(&self) -> u32
        ensures { result ≡ length self.now.methods }
    {
        self.member_tables.methods.len() as u32
    }

    /// The methods, in the order of their numbers.
    pub fn methods(&self) -> &[MethodInfo]
        ensures { result.now ≡ self.now.methods }
    {
        &self.member_tables.methods
    }

    /// A method. `None`: there is no method of this number.
    pub fn method(&self, n: u32) -> Option<&MethodInfo>
        ensures { option_copied result ≡ slice_get self.now.methods n }
    {
        self.member_tables.methods.get(n as usize)
    }

    /// The number of the first method of a class. A class that isn't there counts as memory run out.
    pub fn first_method(&self, class: u32) -> Result<u32, NoMemory>
        ensures { IfOk result (λ n. n ≡ members.methods_before self.now.program.classes class) }
    {
        self.members.first_method(class)
    }

    /// The number of the method at a place. A class that isn't there counts as memory run out.
    pub fn method_number(&self, at: MemberPlace) -> Result<u32, NoMemory>
        ensures { IfOk result (λ n. n ≡ members.method_number self.now.program at) }
    {
        self.members.method_number(at)
    }

    /// Where the method of a number is declared. `None`: there is no method of this number.
    pub fn method_place(&self, n: u32) -> Result<Option<MemberPlace>, NoMemory>
        ensures { IfOk result (λ place. place ≡ method_place self.now n) }
    {
        let Some(method) = self.method(n) else {
            return Ok(None);
        };
        let first = self.first_method(method.class)?;
        Ok(Some(MemberPlace {
            class: method.class,
            index: n.saturating_sub(first) as usize,
        }))
    }

    /// The code of a method. `None`: it has none, or there is no method of this number.
    pub fn code(&self, method: u32) -> Option<&MethodCode>
        ensures code { option_copied result ≡ code_at self.now method }
        ensures decoded { IfSome result (λ code. IsDecoded code.now) }
    {
        self.codes.get(method)
    }

    /// What the constants of a method's instructions mean, by instruction.
    #[inline(always)]
    pub fn resolutions(&self, method: u32) -> Resolutions<'_>
        ensures { meanings result ≡ get_or self.now.resolutions method [] }
    {
        Resolutions {
            numbers: row_at(&self.code_tables.resolutions.numbers, method),
            table: &self.code_tables.resolutions.table,
        }
    }

    /// What the rows of a method's exception table catch, `None` for every throwable.
    pub fn catches(&self, method: u32) -> &[Option<u32>]
        ensures { result.now ≡ get_or self.now.catches method [] }
    {
        match self.code_tables.catches.get(method as usize) {
            Some(catches) => catches,
            None => &[],
        }
    }

    /// The index of the instruction that begins at a pc of a method, in constant time. `None`: none begins there.
    pub fn index_at(&self, method: u32, pc: u32) -> Option<u32>
        ensures { result ≡ asked.index_in self.now.codes method pc }
    {
        index_by(&self.code_tables.by_pc, method, pc)
    }

    /// What the instruction at a pc of a method names, in constant time; at a pc where none begins, nothing.
    pub fn site(&self, method: u32, pc: u32) -> Site
        ensures { result ≡ asked.site self.now method pc }
    {
        let Some(index) = self.index_at(method, pc) else {
            return Site::Plain;
        };
        self.resolutions(method).at(index as usize).site
    }

    /// The number of the class of an array's elements, in constant time. `None`: the class is no array class, or its elements are
    /// primitive.
    pub fn element(&self, class: u32) -> Option<u32>
        ensures { result ≡ asked.element self.now class }
    {
        element_of(class, self.array_type(class)?)
    }

    /// The number of `public static void main(String[])` of the class of this name (JLS 12.1.4). `None`: there is no such class, or it declares
    /// no such method.
    pub fn main_of(&self, name: &[u16]) -> Option<u32>
        ensures { result ≡ main_of self.now name.now }
    {
        main_among(
            &self.member_tables.methods,
            self.hierarchy().classes().class_named(name)?,
        )
    }

    /// The numbers of the fields of an object of a class, those of the superclass first, in constant time.
    pub fn instance_fields(&self, class: u32) -> &[u32]
        ensures { result.now ≡ instance_fields self.now class }
    {
        row_at(&self.member_tables.instance_fields, class)
    }

    /// The place of a field, in constant time: a static field's among all static fields, another's among the fields of an object of its
    /// class, and of each class below. `None`: there is no field of this number.
    pub fn place(&self, field: u32) -> Option<u32>
        ensures { result ≡ place self.now field }
    {
        place_at(&self.member_tables.places, field)
    }

    /// The number of an array class, by the type of its objects. `None`: the program has no array of such elements as deep.
    pub fn array_of(&self, kind: &Kind) -> Option<u32>
        ensures { result ≡ asked.array_of self.now kind.now }
    {
        self.number_tables.numbers.array_number(kind)
    }

    /// The number of an array class by its last elements and its dimensions, in constant time. `None`: the program has no array of such
    /// elements as deep, or they are floats or doubles.
    pub fn array_class(&self, wanted: ArrayType) -> Option<u32>
        ensures { result ≡ asked.array_class self.now wanted }
    {
        self.number_tables.numbers.type_number(wanted)
    }

    /// The array type with a number, in constant time. `None`: the number isn't that of an array class.
    pub fn array_type(&self, n: u32) -> Option<ArrayType>
        ensures { result ≡ spec.array_type self.now n }
    {
        let count = self.name_count();
        if n < count {
            return None;
        }
        self.number_tables.arrays.get((n - count) as usize).copied()
    }

    /// The type of the objects of a class or an array class.
    pub fn class_type(&self, class: u32) -> VType
        ensures { result ≡ spec.class_type self.now class }
    {
        match self.array_type(class) {
            Some(array) => VType::Named(array.dimensions, array.base),
            None => VType::Named(0, Base::Class(class)),
        }
    }

    // The type that the descriptor of the last elements of an array has.
    fn base_of(&self, element: &[u16]) -> Option<Base>
        ensures { result ≡ spec.base_of self.now element.now }
    {
        let [first, ..] = element else {
            return None;
        };
        match *first {
            66 => Some(Base::Byte),
            67 => Some(Base::Char),
            68 => Some(Base::Double),
            70 => Some(Base::Float),
            73 => Some(Base::Int),
            74 => Some(Base::Long),
            83 => Some(Base::Short),
            90 => Some(Base::Bool),
            _ => Some(Base::Class(self.name_number(name_in(element))?)),
        }
    }

    fn array_named(&self, name: &[u16]) -> Option<VType>
        ensures { result ≡ spec.array_named self.now name.now }
    {
        let base = self.base_of(last_element(name))?;
        let dimensions = u8::try_from(dimensions_of(name)).ok()?;
        Some(VType::Named(dimensions, base))
    }

    fn named_type(&self, name: &[u16]) -> Option<VType>
        ensures { result ≡ spec.named_type self.now name.now }
    {
        if is_array_name(name) {
            return self.array_named(name);
        }
        let number = self.name_number(name)?;
        Some(VType::Named(0, Base::Class(number)))
    }

    /// The type that a constant of a class's pool means. `None`: it is no class.
    pub fn pool_type(&self, class: u32, index: u16) -> Option<VType>
        ensures { result ≡ pools.pool_type self.now class index }
    {
        let file = self.hierarchy().classes().file(class)?;
        self.named_type(class_name_at(&file.pool, index)?)
    }
}
