//! A program that is ready to run, and its look-ups.

ghost use Rattle.std.specs.Prelude.{◌≡◌, codes, slice_get, IfOk, IfSome};
ghost use Rattle.std.specs.Option.{option_copied, option_map};
ghost use Rattle.link_rules.specs.Program.{is_interface as is_interface_of};
ghost use Rattle.link_rules.specs.Faults.{Links};
ghost use Rattle.link_rules.specs.Members as linked;
ghost use Rattle.link_model.specs.Decoded.{IsDecoded, code_at};
ghost use Rattle.link_model.specs.Worlds.{world_of};
ghost use Rattle.link_model.specs.World.{array_type as type_of_array, name_number};
ghost use Rattle.ref_model.specs.Arrays as arrays;
ghost use Rattle.ref_model.specs.Calls as calls;
ghost use Rattle.ref_model.specs.Classes as classes;
ghost use Rattle.ref_model.specs.Members as members;
ghost use Rattle.ref_model.specs.Starting as starting;
ghost use Rattle.ref_model.specs.Throwing.{exception_name};
ghost use Rattle.verify_types.specs.Typing.{AreTyped};
ghost use Rattle.runtime_program.specs.Handlers.{handler_at, handler_pc};
ghost use Rattle.invocation.specs.Places.{is_open};
ghost use Rattle.interp_local.specs.Fetched.{instruction_at, instruction_of};
ghost use Rattle.runtime_program.specs.Instructions.{next_of};

use crate::array_classes::element_of;
use crate::class_names::class_name;
use crate::exception_classes::exception_in;
use crate::field_values::values_at;
use crate::handlers::handler_in;
use crate::instructions::instruction;
use crate::methods::is_hold;
use crate::static_places::static_place_in;
use crate::subtypes::is_sub;
use crate::tables::{ReadyTables, flag_entry, native_entry, number_entry, tables_of};
use class_world::World;
use instruction_rows::Value;
use interp_local::{Fetched, Prepared};
use items::NoMemory;
use lib_table::Native;
use link_model::{ArrayType, FieldInfo, MethodCode, MethodInfo};
use link_rules::{Choice, MemberPlace};
use link_tables::Tables;
use ref_model::Exception;
use std::alloc::Global;
use std::marker::Model;
use verify_code::Checked;

/// A checked program with tables for what the machine asks at each step. Contracts see its world.
#[derive(Drop)]
pub struct ReadyProgram {
    prepared: Prepared<World>,
    extra: ReadyTables,
}

impl Model for ReadyProgram {
    ghost use Rattle.link_model.specs.World.{World as Linked};
    ghost use Rattle.runtime_program.specs.Tables.{HasTables};

    ghost Value = { Linked };

    ghost view = { λ a. a.prepared };

    ghost invariant = { λ a. HasTables a.prepared a.extra };
}

// The tables of the world.
#[inline(always)]
fn tables_in(prepared: &Prepared<World>) -> &Tables
    ensures { result.now ≡ prepared.now }
{
    prepared.checked().world().tables()
}

impl ReadyProgram {
    /// The program, ready to run. This takes time and memory in proportion to its code and its classes.
    pub fn new(alloc: Global, checked: Checked<World>) -> Result<Self, NoMemory>
        ensures { IfOk result (λ program. program ≡ checked) }
    {
        let prepared = Prepared::new(alloc, checked)?;
        let extra = tables_of(alloc, tables_in(&prepared))?;
        Ok(ReadyProgram { prepared, extra })
    }

    /// The program as the local instructions ask it.
    #[inline(always)]
    pub fn prepared(&self) -> &Prepared<World>
        ensures { result.now ≡ self.now }
    {
        &self.prepared
    }

    /// The tables of the world.
    #[inline(always)]
    pub fn tables(&self) -> &Tables
        ensures { result.now ≡ self.now }
    {
        tables_in(&self.prepared)
    }

    /// The linked world.
    #[inline(always)]
    pub fn world(&self) -> &World
        ensures { world_of result.now ≡ self.now }
    {
        self.prepared.checked().world()
    }

    /// That its methods are typed, that it is the world of its program, and that this links.
    #[inline(always)]
    pub fn is_linked(&self)
        ensures typed { AreTyped self.now }
        ensures linked { self.now ≡ world_of self.now.program }
        ensures links { Links self.now.program }
    {
        self.prepared.is_typed();
        self.world().links();
    }

    /// A method. `None`: there is no method of this number.
    #[inline(always)]
    pub fn method(&self, n: u32) -> Option<&MethodInfo>
        ensures { option_copied result ≡ slice_get self.now.methods n }
    {
        self.tables().method(n)
    }

    /// The code of a method (JVMS 4.7.3). `None`: it has none, or there is no method of this number.
    #[inline(always)]
    pub fn code(&self, method: u32) -> Option<&MethodCode>
        ensures code { option_copied result ≡ code_at self.now method }
        ensures decoded { IfSome result (λ code. IsDecoded code.now) }
    {
        self.tables().code(method)
    }

    /// The instruction that begins at a pc of a method, with what its constant means. `None`: none begins there.
    #[inline(always)]
    pub fn instruction(&self, method: u32, pc: u32) -> Option<Fetched<'_>>
        ensures { option_map instruction_of result
            ≡ instruction_at self.now method pc }
    {
        instruction(self.tables(), method, pc)
    }

    /// The number of the method at a place. A class that isn't there counts as memory run out.
    pub fn method_number(&self, at: MemberPlace) -> Result<u32, NoMemory>
        ensures { IfOk result (λ n. n ≡ linked.method_number self.now.program at) }
    {
        self.tables().method_number(at)
    }

    /// What the machine does in place of the code of a method, where the method is native.
    #[inline(always)]
    pub fn native(&self, n: u32) -> Option<Native>
        ensures { result ≡ members.native_at self.now n }
    {
        native_entry(&self.extra.natives, n)
    }

    /// Whether a method is jvt.Native.hold, whose frame pins its thread. This compares the names of a class and of the method.
    pub fn is_hold(&self, method: &MethodInfo) -> bool
        ensures { result ≡ members.is_hold self.now method.now }
    {
        is_hold(self.tables(), method)
    }

    /// Whether a return from a method is no local instruction, wherever its frame lies: the method is a class initializer, synchronized, or
    /// jvt.Native.hold. `false`: also where there is no method of this number.
    #[inline(always)]
    pub fn is_open(&self, n: u32) -> bool
        ensures { result ≡ is_open self.now n }
    {
        flag_entry(&self.extra.open_methods, n)
    }

    /// The pc after the instruction at a pc of a method. `None`: none begins there.
    #[inline(always)]
    pub fn next(&self, method: u32, pc: u32) -> Option<u32>
        ensures { result ≡ option_map next_of (instruction_at self.now method pc) }
    {
        match self.instruction(method, pc) {
            Some(fetched) => Some(fetched.instr.next),
            None => None,
        }
    }

    /// What invokevirtual or invokeinterface of a method selects on an object of a class (JVMS 5.4.6). This goes up the superclasses.
    /// `None`: there is no method of this number.
    pub fn choice(&self, alloc: Global, class: u32, method: u32) -> Result<Option<Choice>, NoMemory>
        ensures { IfOk result (λ choice. choice ≡ calls.choice_of self.now class method) }
    {
        self.world().select(alloc, class, method)
    }

    /// The pc of the handler that catches an object of a class at a pc of a method (JVMS 2.10). This goes over the exception table.
    /// `None`: no handler does.
    pub fn handler(&self, class: u32, method: u32, pc: u32) -> Option<u16>
        ensures { result ≡ option_map handler_pc (handler_at self.now class method pc) }
    {
        let code = self.code(method)?;
        handler_in(
            self.world(),
            &code.rows,
            self.tables().catches(method),
            pc,
            class,
        )
    }

    /// The number of the class of an exception that the machine throws.
    #[inline(always)]
    pub fn exception_class(&self, exception: Exception) -> Option<u32>
        ensures { result ≡ name_number self.now (exception_name exception) }
    {
        exception_in(&self.extra.exceptions, exception)
    }

    /// The number of the method run of java.lang.Thread. `None`: there is no such method, or it is static.
    pub fn run_method(&self) -> Option<u32>
        ensures { result ≡ starting.run_method self.now }
    {
        self.extra.run_method
    }

    /// The name of a class as a program sees it (java.lang.Class.getName).
    pub fn class_name(&self, alloc: Global, class: u32) -> Result<Vec<u16>, NoMemory>
        ensures { IfOk result (λ name. name.items ≡ classes.class_name self.now class) }
    {
        class_name(alloc, self.tables(), class)
    }

    /// A field. `None`: there is no field of this number.
    #[inline(always)]
    pub fn field(&self, n: u32) -> Option<&FieldInfo>
        ensures { option_copied result ≡ slice_get self.now.fields n }
    {
        self.tables().field(n)
    }

    /// The place of a static field among all static fields.
    #[inline(always)]
    pub fn static_place(&self, field: u32) -> u32
        ensures { result ≡ members.static_place self.now field }
    {
        static_place_in(&self.extra.static_places, field)
    }

    /// The place of an instance field among the values of an object. `None`: there is no such instance field.
    #[inline(always)]
    pub fn field_place(&self, field: u32) -> Option<u32>
        ensures { result ≡ members.field_place self.now field }
    {
        number_entry(&self.extra.instance_places, field)
    }

    /// The numbers of the fields of an object of a class, those of the superclass first.
    #[inline(always)]
    pub fn instance_fields(&self, class: u32) -> &[u32]
        ensures { result.now ≡ members.instance_fields self.now class }
    {
        self.tables().instance_fields(class)
    }

    /// The values that the fields of a new object of a class have at first (JVMS 2.3, 2.4).
    #[inline(always)]
    pub fn new_values(&self, class: u32) -> &[Value]
        ensures { result.now ≡ members.new_values self.now class }
    {
        values_at(&self.extra.new_values, class)
    }

    /// Whether the objects of a class are instances of another (JVMS 6.5: instanceof).
    #[inline(always)]
    pub fn is_sub(&self, class: u32, other: u32) -> bool
        ensures { result ≡ classes.is_sub self.now class other }
    {
        is_sub(self.world(), class, other)
    }

    /// Whether an object of a class may be an element of an array (JVMS 6.5: aastore).
    #[inline(always)]
    pub fn is_element(&self, class: u32, array: ArrayType) -> bool
        ensures { result ≡ classes.is_element self.now class array }
    {
        self.world().is_of_type(class, element_of(array))
    }

    /// Whether a class is an interface (JVMS 4.1).
    #[inline(always)]
    pub fn is_interface(&self, class: u32) -> bool
        ensures { result ≡ is_interface_of self.now.program class }
    {
        self.tables().hierarchy().classes().is_interface(class)
    }

    /// The array type of an array class. `None`: the class is no array class.
    #[inline(always)]
    pub fn array_type(&self, class: u32) -> Option<ArrayType>
        ensures { result ≡ type_of_array self.now class }
    {
        self.tables().array_type(class)
    }

    /// The class of the elements of an array class. `None`: they are of no array class.
    #[inline(always)]
    pub fn element_class(&self, class: u32) -> Option<u32>
        ensures { result ≡ arrays.element_class self.now class }
    {
        let count = self.tables().name_count();
        if class < count {
            return None;
        }
        number_entry(&self.extra.inner_classes, class - count)
    }

    /// The number of java/lang/String.
    #[inline(always)]
    pub fn string(&self) -> Option<u32>
        ensures { result ≡ name_number self.now (codes "java/lang/String") }
    {
        self.tables().string()
    }
}
