//! Instructions on objects and arrays (JVMS 4.10.1.9).

ghost use Rattle.std.specs.Prelude.{◌≡◌, ℕ, ◌∷◌, Ok, replicate};
ghost use Rattle.instruction_rows.specs.Results.{◌then◌};
ghost use Rattle.instruction_rows.specs.Table.{row, simple_row, new_array_row};
ghost use Rattle.instruction_rows.specs.TypeEffect.{type_popped, types_popped};
ghost use Rattle.link_model.specs.World.{World, class_type};
ghost use Rattle.verify_instructions.specs.Rows.{event_stack};
ghost use Rattle.verify_types.specs.Objects as spec;
ghost use Rattle.verify_instructions.specs.Answers.{Gives, Leaves, Takes};

use crate::operands::is_array;
use crate::stop::Stop;
use crate::types::Types;
use instruction_rows::RowWhy;
use link_model::{FieldInfo, Lookups, Resolution, Site};
use opcodes::{Element, Op, Primitive, Simple, ValueKind};
use stack_maps::VType;
use verify_types::{
    assignable, base_of_primitive, object_type, throwable_type, type_of_kind, type_of_value,
};

// The field that a constant means.
fn field_of<L: Lookups>(w: &L, site: Site) -> Result<&FieldInfo, Stop>
    ensures { Gives result (λ f. f.now) (spec.field_of (L.world w.now) site) }
{
    let Site::Field(n) = site else {
        return Err(Stop::Broken(RowWhy::Kind));
    };
    match w.field(n) {
        Some(field) => Ok(field),
        None => Err(Stop::Broken(RowWhy::Kind)),
    }
}

// The class that a constant means.
fn class_of(site: Site) -> Result<u32, Stop>
    ensures { Gives result (λ class. class) (spec.class_of site) }
{
    match site {
        Site::Class(class) => Ok(class),
        _ => Err(Stop::Broken(RowWhy::Kind)),
    }
}

/// The class that a constant names.
pub fn named_class(resolution: Resolution) -> Result<u32, Stop>
    ensures { Gives result (λ class. class) (spec.named_class resolution) }
{
    match resolution.class {
        Some(class) => Ok(class),
        None => Err(Stop::Broken(RowWhy::Kind)),
    }
}

// Whether a field may be set before the constructor that runs calls another one.
fn may_set_early(own: u32, class: u32, field: &FieldInfo, t: VType) -> bool
    ensures { result ≡ spec.may_set_early own class field.now t }
{
    matches!(t, VType::UninitThis) && class == own && field.class == own
}

// What an array instruction loads.
fn element_type(element: Element, array: VType) -> VType
    ensures { result ≡ spec.element_type element array }
{
    match element {
        Element::Reference => match array {
            VType::Named(n, base) => VType::Named(n.saturating_sub(1), base),
            _ => VType::Null,
        },
        Element::Long => VType::Long,
        _ => VType::Int,
    }
}

impl Types {
    /// getstatic.
    pub fn get_static<L: Lookups>(&mut self, w: &L, resolution: Resolution) -> Result<(), Stop>
        ensures stack { Leaves result self.new.stack
            (spec.static_gotten (L.world w.now) resolution self.old.stack) }
        ensures locals { self.new.locals ≡ self.old.locals }
    {
        let field = field_of(w, resolution.site)?;
        self.push(type_of_kind(w, &field.kind))
    }

    /// putstatic.
    pub fn put_static<L: Lookups>(&mut self, w: &L, resolution: Resolution) -> Result<(), Stop>
        ensures stack { Leaves result self.new.stack
            (spec.static_put (L.world w.now) resolution self.old.stack) }
        ensures locals { self.new.locals ≡ self.old.locals }
    {
        let field = field_of(w, resolution.site)?;
        self.pop_wanted(w, type_of_kind(w, &field.kind))
    }

    /// getfield.
    pub fn get_field<L: Lookups>(&mut self, w: &L, resolution: Resolution) -> Result<(), Stop>
        ensures stack { Leaves result self.new.stack
            (spec.field_gotten (L.world w.now) resolution self.old.stack) }
        ensures locals { self.new.locals ≡ self.old.locals }
    {
        let field = field_of(w, resolution.site)?;
        let class = named_class(resolution)?;
        self.pop_wanted(w, w.class_type(class))?;
        self.push(type_of_kind(w, &field.kind))
    }

    // Takes the object whose field is set.
    fn pop_owner<L: Lookups>(
        &mut self,
        w: &L,
        own: u32,
        class: u32,
        field: &FieldInfo,
    ) -> Result<(), Stop>
        ensures stack { Leaves result self.new.stack
            (spec.set_in (L.world w.now) own class field.now self.old.stack) }
        ensures locals { self.new.locals ≡ self.old.locals }
    {
        let owner = self.pop_kind(ValueKind::Reference)?;
        if assignable(w, owner, w.class_type(class)) || may_set_early(own, class, field, owner) {
            Ok(())
        } else {
            Err(Stop::Broken(RowWhy::Kind))
        }
    }

    /// putfield, in the code of the class `own`.
    pub fn put_field<L: Lookups>(
        &mut self,
        w: &L,
        own: u32,
        resolution: Resolution,
    ) -> Result<(), Stop>
        ensures stack { Leaves result self.new.stack
            (spec.field_put (L.world w.now) own resolution self.old.stack) }
        ensures locals { self.new.locals ≡ self.old.locals }
    {
        let field = field_of(w, resolution.site)?;
        let class = named_class(resolution)?;
        self.pop_wanted(w, type_of_kind(w, &field.kind))?;
        self.pop_owner(w, own, class, field)
    }

    /// The array instructions that load.
    pub fn load_element(&mut self, element: Element) -> Result<(), Stop>
        ensures stack { Leaves result self.new.stack (spec.array_loaded element self.old.stack) }
        ensures locals { self.new.locals ≡ self.old.locals }
    {
        self.pop_kind(ValueKind::Int)?;
        let array = self.pop_array(element)?;
        self.push(element_type(element, array))
    }

    // Takes a value that an array instruction stores.
    fn pop_stored<L: Lookups>(&mut self, w: &L, element: Element) -> Result<(), Stop>
        ensures stack { Leaves result self.new.stack
            (spec.stored_popped (L.world w.now) element self.old.stack) }
        ensures locals { self.new.locals ≡ self.old.locals }
    {
        match element {
            Element::Reference => self.pop_wanted(w, object_type(w)),
            Element::Long => {
                self.pop_kind(ValueKind::Long)?;
                Ok(())
            }
            Element::Int | Element::Byte | Element::Char | Element::Short => {
                self.pop_kind(ValueKind::Int)?;
                Ok(())
            }
        }
    }

    /// The array instructions that store.
    pub fn store_element<L: Lookups>(&mut self, w: &L, element: Element) -> Result<(), Stop>
        ensures stack { Leaves result self.new.stack
            (spec.array_stored (L.world w.now) element self.old.stack) }
        ensures locals { self.new.locals ≡ self.old.locals }
    {
        self.pop_stored(w, element)?;
        self.pop_kind(ValueKind::Int)?;
        self.pop_array(element)?;
        Ok(())
    }

    /// arraylength.
    pub fn array_length(&mut self) -> Result<(), Stop>
        ensures stack { Leaves result self.new.stack (spec.length_gotten self.old.stack) }
        ensures locals { self.new.locals ≡ self.old.locals }
    {
        let array = self.pop_kind(ValueKind::Reference)?;
        if is_array(array) {
            self.push_slot(VType::Int)
        } else {
            Err(Stop::Broken(RowWhy::Kind))
        }
    }

    // Takes this number of lengths.
    fn pop_lengths(&mut self, lengths: u8) -> Result<(), Stop>
        ensures stack { Leaves result self.new.stack
            (types_popped (replicate lengths ValueKind.Int) self.old.stack) }
        ensures locals { self.new.locals ≡ self.old.locals }
    {
        if lengths == 0 {
            return Ok(());
        }
        self.pop_kind(ValueKind::Int)?;
        self.pop_lengths(lengths - 1)
    }

    /// anewarray and multianewarray, with this number of lengths.
    pub fn new_arrays<L: Lookups>(
        &mut self,
        w: &L,
        resolution: Resolution,
        lengths: u8,
    ) -> Result<(), Stop>
        ensures stack { Leaves result self.new.stack
            (spec.array_made (L.world w.now) resolution lengths self.old.stack) }
        ensures locals { self.new.locals ≡ self.old.locals }
    {
        let class = class_of(resolution.site)?;
        self.pop_lengths(lengths)?;
        self.push_slot(w.class_type(class))
    }

    // Takes an object, and gives the class that the constant means.
    fn pop_object<L: Lookups>(&mut self, w: &L, resolution: Resolution) -> Result<u32, Stop>
        ensures stack { Takes result self.new.stack
            (spec.object_taken (L.world w.now) resolution self.old.stack) }
        ensures locals { self.new.locals ≡ self.old.locals }
    {
        let class = class_of(resolution.site)?;
        self.pop_wanted(w, object_type(w))?;
        Ok(class)
    }

    // An instruction without operands in the code.
    fn simple_event<L: Lookups>(&mut self, w: &L, simple: Simple) -> Result<(), Stop>
        ensures stack { (own pc : ℕ) (resolution : Resolution) → Leaves result self.new.stack
            (event_stack (L.world w.now) own pc resolution (simple_row simple) self.old.stack) }
        ensures locals { self.new.locals ≡ self.old.locals }
    {
        match simple {
            Simple::ArrayLoad(element) => self.load_element(element),
            Simple::ArrayStore(element) => self.store_element(w, element),
            Simple::ArrayLength => self.array_length(),
            Simple::Throw => self.pop_wanted(w, throwable_type(w)),
            Simple::MonitorEnter | Simple::MonitorExit => self.take_reference(),
            _ => Ok(()),
        }
    }

    // Takes a reference.
    fn take_reference(&mut self) -> Result<(), Stop>
        ensures stack { Leaves result self.new.stack
            (type_popped ValueKind.Reference self.old.stack then λ x. Ok x.1) }
        ensures locals { self.new.locals ≡ self.old.locals }
    {
        self.pop_kind(ValueKind::Reference)?;
        Ok(())
    }

    // newarray.
    fn new_array(&mut self, primitive: Primitive) -> Result<(), Stop>
        ensures stack { (w : World) (own pc : ℕ) (resolution : Resolution) →
            Leaves result self.new.stack
            (event_stack w own pc resolution (new_array_row primitive) self.old.stack) }
        ensures locals { self.new.locals ≡ self.old.locals }
    {
        match primitive {
            Primitive::Float | Primitive::Double => Ok(()),
            _ => {
                self.pop_kind(ValueKind::Int)?;
                self.push_slot(VType::Named(1, base_of_primitive(primitive)))
            }
        }
    }

    // checkcast.
    fn check_cast<L: Lookups>(&mut self, w: &L, resolution: Resolution) -> Result<(), Stop>
        ensures stack { Leaves result self.new.stack
            (spec.object_taken (L.world w.now) resolution self.old.stack then λ x.
            Ok (class_type (L.world w.now) x.0 ∷ x.1)) }
        ensures locals { self.new.locals ≡ self.old.locals }
    {
        let class = self.pop_object(w, resolution)?;
        self.push_slot(w.class_type(class))
    }

    // instanceof.
    fn instance_of<L: Lookups>(&mut self, w: &L, resolution: Resolution) -> Result<(), Stop>
        ensures stack { Leaves result self.new.stack
            (spec.object_taken (L.world w.now) resolution self.old.stack then λ x.
            Ok (VType.Int ∷ x.1)) }
        ensures locals { self.new.locals ≡ self.old.locals }
    {
        self.pop_object(w, resolution)?;
        self.push_slot(VType::Int)
    }

    /// What an event does to the operand stack, in the code of the class `own`; `new` only pushes here. Every other instruction
    /// leaves the stack as it is.
    pub fn event<L: Lookups>(
        &mut self,
        w: &L,
        own: u32,
        pc: u16,
        resolution: Resolution,
        op: &Op,
    ) -> Result<(), Stop>
        ensures stack { Leaves result self.new.stack
            (event_stack (L.world w.now) own pc resolution (row op.now) self.old.stack) }
        ensures locals { self.new.locals ≡ self.old.locals }
    {
        match op {
            Op::Simple(simple) => self.simple_event(w, *simple),
            Op::GetStatic(_) => self.get_static(w, resolution),
            Op::PutStatic(_) => self.put_static(w, resolution),
            Op::GetField(_) => self.get_field(w, resolution),
            Op::PutField(_) => self.put_field(w, own, resolution),
            Op::New(_) => self.push_slot(VType::Uninit(pc)),
            Op::NewArray(primitive) => self.new_array(*primitive),
            Op::ANewArray(_) => self.new_arrays(w, resolution, 1),
            Op::MultiANewArray(_, lengths) => self.new_arrays(w, resolution, *lengths),
            Op::CheckCast(_) => self.check_cast(w, resolution),
            Op::InstanceOf(_) => self.instance_of(w, resolution),
            _ => Ok(()),
        }
    }
}
