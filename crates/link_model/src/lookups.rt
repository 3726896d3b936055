//! What typing asks of a linked world.

ghost use Rattle.std.specs.Prelude.{◌≡◌, [], IfSome, codes, get_or, length, slice_get};
ghost use Rattle.std.specs.Option.{option_copied};
ghost use Rattle.class_grammar.specs.Names.{object_class};
ghost use Rattle.link_rules.specs.Program as program;
ghost use Rattle.link_rules.specs.Hierarchy as hierarchy;
ghost use Rattle.link_model.specs.World as spec;
ghost use Rattle.link_model.specs.World.{World};
ghost use Rattle.link_model.specs.Decoded.{IsDecoded, code_at};
ghost use Rattle.link_model.specs.Resolutions.{meanings};
ghost use Rattle.link_model.specs.Pools as pools;

use crate::{FieldInfo, MethodCode, MethodInfo, Resolutions};
use stack_maps::VType;

/// What typing asks of a linked world. Each call takes constant time, but `name_number`, which looks a name up.
pub trait Lookups {
    /// The world as a plain value.
    ghost world: { Self → World };

    /// How many classes the program has. A class with a number from here on is named, and isn't there.
    fn class_count(&self) -> usize
        ensures { result ≡ spec.class_count (world self.now) };

    /// Whether the class is an interface (JVMS 4.1).
    fn is_interface(&self, class: u32) -> bool
        ensures { result ≡ program.is_interface (world self.now).program class };

    /// Whether `a` is `b`, or `b` is among its superclasses and superinterfaces (JVMS 5.3.5).
    fn is_below(&self, a: u32, b: u32) -> bool
        ensures { result ≡ hierarchy.is_below (world self.now).program a b };

    /// The direct superclass. `None` for Object, and for a class that isn't in the program.
    fn parent(&self, class: u32) -> Option<u32>
        ensures { result ≡ hierarchy.parent_of (world self.now).program class };

    /// The number of the class of this name. `None`: no pool or descriptor has the name.
    fn name_number(&self, name: &[u16]) -> Option<u32>
        ensures { result ≡ spec.name_number (world self.now) name.now };

    /// How many names have a number. The array types have those after them.
    fn name_count(&self) -> u32
        ensures { result ≡ length (world self.now).names };

    /// The number of java/lang/Object.
    fn object(&self) -> Option<u32>
        ensures { result ≡ spec.name_number (world self.now) object_class };

    /// The number of java/lang/Cloneable.
    fn cloneable(&self) -> Option<u32>
        ensures { result ≡ spec.name_number (world self.now) (codes "java/lang/Cloneable") };

    /// The number of java/io/Serializable.
    fn serializable(&self) -> Option<u32>
        ensures { result ≡ spec.name_number (world self.now) (codes "java/io/Serializable") };

    /// The number of java/lang/String.
    fn string(&self) -> Option<u32>
        ensures { result ≡ spec.name_number (world self.now) (codes "java/lang/String") };

    /// The number of java/lang/Throwable.
    fn throwable(&self) -> Option<u32>
        ensures { result ≡ spec.name_number (world self.now) (codes "java/lang/Throwable") };

    /// A field. `None`: there is no field of this number.
    fn field(&self, n: u32) -> Option<&FieldInfo>
        ensures { option_copied result ≡ slice_get (world self.now).fields n };

    /// How many methods there are.
    fn method_count(&self) -> u32
        ensures { result ≡ length (world self.now).methods };

    /// A method. `None`: there is no method of this number.
    fn method(&self, n: u32) -> Option<&MethodInfo>
        ensures { option_copied result ≡ slice_get (world self.now).methods n };

    /// The code of a method (JVMS 4.7.3). `None`: the method has none, or there is no method of this number.
    fn code(&self, method: u32) -> Option<&MethodCode>
        ensures code { option_copied result ≡ code_at (world self.now) method }
        ensures decoded { IfSome result (λ c. IsDecoded c.now) };

    /// What the constants of a method's instructions mean, by instruction.
    fn resolutions(&self, method: u32) -> Resolutions<'_>
        ensures { meanings result ≡ get_or (world self.now).resolutions method [] };

    /// What the rows of a method's exception table catch, `None` for every throwable (JVMS 4.7.3).
    fn catches(&self, method: u32) -> &[Option<u32>]
        ensures { result.now ≡ get_or (world self.now).catches method [] };

    /// The type of the objects of a class or an array class.
    fn class_type(&self, class: u32) -> VType
        ensures { result ≡ spec.class_type (world self.now) class };

    /// The type that a constant of a class's pool means. `None`: it is no class.
    fn pool_type(&self, class: u32, index: u16) -> Option<VType>
        ensures { result ≡ pools.pool_type (world self.now) class index };
}
