//! What the instructions on fields, arrays and objects ask of a linked world.

ghost use Rattle.std.specs.Prelude.{◌≡◌, codes, slice_get};
ghost use Rattle.std.specs.Option.{option_copied};
ghost use Rattle.link_rules.specs.Program as program;
ghost use Rattle.link_model.specs.World as spec;
ghost use Rattle.link_model.specs.World.{World};
ghost use Rattle.ref_model.specs.Classes as classes;
ghost use Rattle.ref_model.specs.Members as members;
ghost use Rattle.ref_model.specs.Arrays as arrays;

use instruction_rows::Value;
use link_model::{ArrayType, FieldInfo};

/// What the instructions on fields, arrays and objects ask of a linked world, each in constant time.
pub trait EventWorld {
    /// The world as a plain value.
    ghost world: { Self → World };

    /// A field. `None`: there is no field of this number.
    fn field(&self, n: u32) -> Option<&FieldInfo>
        ensures { option_copied result ≡ slice_get (world self.now).fields n };

    /// The place of a static field among all static fields.
    fn static_place(&self, field: u32) -> u32
        ensures { result ≡ members.static_place (world self.now) field };

    /// The place of an instance field among the values of an object. `None`: there is no such instance field.
    fn field_place(&self, field: u32) -> Option<u32>
        ensures { result ≡ members.field_place (world self.now) field };

    /// The values that the fields of a new object of a class have at first (JVMS 2.3, 2.4).
    fn new_values(&self, class: u32) -> &[Value]
        ensures { result.now ≡ members.new_values (world self.now) class };

    /// Whether the objects of a class are instances of another (JVMS 6.5: instanceof).
    fn is_sub(&self, class: u32, other: u32) -> bool
        ensures { result ≡ classes.is_sub (world self.now) class other };

    /// Whether an object of a class may be an element of an array (JVMS 6.5: aastore).
    fn is_element(&self, class: u32, array: ArrayType) -> bool
        ensures { result ≡ classes.is_element (world self.now) class array };

    /// Whether a class is an interface (JVMS 4.1).
    fn is_interface(&self, class: u32) -> bool
        ensures { result ≡ program.is_interface (world self.now).program class };

    /// The array type of an array class. `None`: the class is no array class.
    fn array_type(&self, class: u32) -> Option<ArrayType>
        ensures { result ≡ spec.array_type (world self.now) class };

    /// The class of the elements of an array class. `None`: they are of no class.
    fn element_class(&self, class: u32) -> Option<u32>
        ensures { result ≡ arrays.element_class (world self.now) class };

    /// The number of java/lang/String.
    fn string(&self) -> Option<u32>
        ensures { result ≡ spec.name_number (world self.now) (codes "java/lang/String") };
}
