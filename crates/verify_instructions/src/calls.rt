//! The invocations (JVMS 4.10.1.9).

ghost use Rattle.std.specs.Prelude.{◌≡◌, Err, OnOk, OnErr, map, reverse};
ghost use Rattle.class_grammar.specs.Names as names;
ghost use Rattle.link_model.specs.Resolutions.{meanings};
ghost use Rattle.verify_types.specs.ClassTypes as types;
ghost use Rattle.verify_types.specs.Environment as environment;
ghost use Rattle.verify_types.specs.Operands.{all_wanted};
ghost use Rattle.link_model.specs.Subtypes.{is_number};
ghost use Rattle.verify_instructions.specs.Tables.{new_at};
ghost use Rattle.verify_types.specs.Calls as spec;
ghost use Rattle.verify_types.specs.Objects.{named_class};
ghost use Rattle.instruction_rows.specs.Results.{◌then◌};
ghost use Rattle.instruction_rows.specs.Rows as rows;
ghost use Rattle.verify_instructions.specs.Answers.{Gives, Leaves};
ghost use Rattle.verify_instructions.specs.Views.{state_in, environment_in};

use crate::method::{Method, is_covered, new_class};
use crate::objects::named_class;
use crate::state::{State, Uninitialized};
use crate::stop::Stop;
use crate::types::Types;
use class_grammar::is_same;
use descriptors::Kind as Descriptor;
use instruction_rows::RowWhy;
use link_model::{Lookups, MethodInfo, Resolution, Site};
use opcodes::ValueKind;
use stack_maps::VType;
use verify_types::{assignable, type_of_kind};

// The method that a constant means.
fn method_of<L: Lookups>(w: &L, site: Site) -> Result<&MethodInfo, Stop>
    ensures { Gives result (λ m. m.now) (spec.method_of (L.world w.now) site) }
{
    let Site::Method(n) = site else {
        return Err(Stop::Broken(RowWhy::Kind));
    };
    match w.method(n) {
        Some(method) => Ok(method),
        None => Err(Stop::Broken(RowWhy::Kind)),
    }
}

/// Whether the method is an instance initialization method (JVMS 2.9.1).
pub fn is_constructor(m: &MethodInfo) -> bool
    ensures { result ≡ environment.is_constructor m.now }
{
    is_same(&m.name, b"<init>")
}

// Whether the method is one of those with angle brackets (JVMS 2.9).
fn is_initializer(m: &MethodInfo) -> bool
    ensures { result ≡ names.is_initializer m.now.name }
{
    is_same(&m.name, b"<init>") || is_same(&m.name, b"<clinit>")
}

impl Types {
    // Takes values of these kinds, the last the topmost.
    fn pop_arguments<L: Lookups>(&mut self, w: &L, args: &[Descriptor]) -> Result<(), Stop>
        ensures stack { Leaves result self.new.stack
            (all_wanted (L.world w.now)
            (reverse (map (types.type_of_kind (L.world w.now)) args.now)) self.old.stack) }
        ensures locals { self.new.locals ≡ self.old.locals }
    {
        match args.split_last() {
            None => Ok(()),
            Some((last, front)) => {
                self.pop_wanted(w, type_of_kind(w, last))?;
                self.pop_arguments(w, front)
            }
        }
    }

    // Takes the arguments of a method.
    fn take_arguments<L: Lookups>(&mut self, w: &L, m: &MethodInfo) -> Result<(), Stop>
        ensures stack { Leaves result self.new.stack
            (spec.arguments_taken (L.world w.now) m.now self.old.stack) }
        ensures locals { self.new.locals ≡ self.old.locals }
    {
        self.pop_arguments(w, &m.signature.args)
    }

    // Pushes the result of a method, if it has one.
    fn push_result<L: Lookups>(&mut self, w: &L, m: &MethodInfo) -> Result<(), Stop>
        ensures pushed { OnOk result
            (self.new.stack ≡ spec.result_pushed (L.world w.now) m.now self.old.stack) }
        ensures locals { self.new.locals ≡ self.old.locals }
        ensures full { OnErr result (result ≡ Err Stop.NoMemory) }
    {
        match &m.signature.result {
            Some(kind) => self.push(type_of_kind(w, kind)),
            None => Ok(()),
        }
    }
}

// Whether there is a `new` of this class at the pc.
fn is_new_of(m: &Method<'_>, pc: u16, class: u32) -> bool
    ensures { result ≡ is_number (new_at pc
        (environment.with_resolutions m.now.code.now.code (meanings m.now.resolutions))) class }
{
    match new_class(m, pc) {
        Some(made) => made == class,
        None => false,
    }
}

// Whether the object whose constructor runs may be initialized by a constructor of this class.
#[tactic(auto, using(crate::proofs::TableLaws::covered_rows))]
fn may_initialize_this<L: Lookups>(w: &L, m: &Method<'_>, pc: u16, class: u32) -> bool
    ensures { result ≡ spec.may_initialize_this (environment_in (L.world w.now) m.now) pc class }
{
    (class == m.info.class || w.parent(m.info.class) == Some(class))
        && !is_covered(&m.code.rows, pc)
}

impl State {
    // Initializes the object that lay below the arguments.
    fn initialize_receiver<L: Lookups>(
        &mut self,
        w: &L,
        m: &Method<'_>,
        pc: u16,
        class: u32,
        receiver: VType,
    ) -> Result<(), Stop>
        ensures { Leaves result (state_in self.new)
            (spec.object_initialized (environment_in (L.world w.now) m.now) pc class receiver
            (state_in self.old)) }
    {
        match receiver {
            VType::Uninit(new) => {
                if !is_new_of(m, new, class) {
                    return Err(Stop::Broken(RowWhy::Init));
                }
                self.initialize(Uninitialized::New(new), w.class_type(class))
            }
            VType::UninitThis => {
                if !may_initialize_this(w, m, pc, class) {
                    return Err(Stop::Broken(RowWhy::Init));
                }
                self.initialize(Uninitialized::This, w.class_type(m.info.class))?;
                self.this_uninit = false;
                Ok(())
            }
            _ => Err(Stop::Broken(RowWhy::Init)),
        }
    }

    // Pushes the result of a method that isn't one of those with angle brackets.
    fn give_result<L: Lookups>(&mut self, w: &L, called: &MethodInfo) -> Result<(), Stop>
        ensures { Leaves result (state_in self.new)
            (spec.result_given (L.world w.now) called.now (state_in self.old)
            self.old.types.stack) }
    {
        if is_initializer(called) {
            return Err(Stop::Broken(RowWhy::Init));
        }
        self.types.push_result(w, called)
    }

    // A method of the class, without a receiver.
    fn call_static<L: Lookups>(&mut self, w: &L, called: &MethodInfo) -> Result<(), Stop>
        ensures { Leaves result (state_in self.new)
            (spec.static_called (L.world w.now) called.now (state_in self.old)) }
    {
        self.types.take_arguments(w, called)?;
        self.give_result(w, called)
    }

    // A method of an object of this class.
    fn call_instance<L: Lookups>(
        &mut self,
        w: &L,
        called: &MethodInfo,
        class: u32,
    ) -> Result<(), Stop>
        ensures { Leaves result (state_in self.new)
            (spec.instance_called (L.world w.now) called.now class (state_in self.old)) }
    {
        self.types.take_arguments(w, called)?;
        self.types.pop_wanted(w, w.class_type(class))?;
        self.give_result(w, called)
    }

    // A method that isn't selected by the receiver's class (JVMS 6.5, invokespecial).
    fn call_special<L: Lookups>(
        &mut self,
        w: &L,
        m: &Method<'_>,
        called: &MethodInfo,
        class: u32,
    ) -> Result<(), Stop>
        ensures { Leaves result (state_in self.new)
            (spec.special_called (environment_in (L.world w.now) m.now) called.now class
            (state_in self.old)) }
    {
        self.call_instance(w, called, m.info.class)?;
        if assignable(w, w.class_type(m.info.class), w.class_type(class)) {
            Ok(())
        } else {
            Err(Stop::Broken(RowWhy::Init))
        }
    }

    // A constructor, which initializes its receiver.
    fn call_constructor<L: Lookups>(
        &mut self,
        w: &L,
        m: &Method<'_>,
        pc: u16,
        called: &MethodInfo,
        class: u32,
    ) -> Result<(), Stop>
        ensures { Leaves result (state_in self.new)
            (spec.constructor_called (environment_in (L.world w.now) m.now) pc called.now class
            (state_in self.old)) }
    {
        self.types.take_arguments(w, called)?;
        let receiver = self.types.pop_kind(ValueKind::Reference)?;
        if called.class != class {
            return Err(Stop::Broken(RowWhy::Init));
        }
        self.initialize_receiver(w, m, pc, class, receiver)?;
        self.types.push_result(w, called)
    }

    /// invokevirtual and invokeinterface.
    pub fn invoke_virtual<L: Lookups>(&mut self, w: &L, resolution: Resolution) -> Result<(), Stop>
        ensures { Leaves result (state_in self.new)
            (spec.method_of (L.world w.now) resolution.site then λ called.
            named_class resolution then λ class.
            spec.instance_called (L.world w.now) called class (state_in self.old)) }
    {
        let called = method_of(w, resolution.site)?;
        let class = named_class(resolution)?;
        self.call_instance(w, called, class)
    }

    /// invokestatic.
    pub fn invoke_static<L: Lookups>(&mut self, w: &L, resolution: Resolution) -> Result<(), Stop>
        ensures { Leaves result (state_in self.new)
            (spec.method_of (L.world w.now) resolution.site then λ called.
            named_class resolution then λ class.
            spec.static_called (L.world w.now) called (state_in self.old)) }
    {
        let called = method_of(w, resolution.site)?;
        named_class(resolution)?;
        self.call_static(w, called)
    }

    /// invokespecial.
    pub fn invoke_special<L: Lookups>(
        &mut self,
        w: &L,
        m: &Method<'_>,
        pc: u16,
        resolution: Resolution,
    ) -> Result<(), Stop>
        ensures { Leaves result (state_in self.new)
            (spec.invoke_state (environment_in (L.world w.now) m.now) pc resolution rows.special
            (state_in self.old)) }
    {
        let called = method_of(w, resolution.site)?;
        let class = named_class(resolution)?;
        if is_constructor(called) {
            self.call_constructor(w, m, pc, called, class)
        } else {
            self.call_special(w, m, called, class)
        }
    }
}
