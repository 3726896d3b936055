//! What the machine asks of a linked world.

ghost use Rattle.std.specs.Prelude.{◌≡◌, IfOk};
ghost use Rattle.link_model.specs.World as spec;
ghost use Rattle.ref_model.specs.Classes as classes;
ghost use Rattle.ref_model.specs.Throwing as throwing;

use invocation::CallWorld;
use items::NoMemory;
use native_methods::NativeWorld;
use ref_model::Exception;
use std::alloc::Global;

/// What the machine asks of a linked world, beside what its instructions and methods ask.
pub trait MachineWorld: CallWorld + NativeWorld {
    /// The number of the class of an exception. `None`: no pool or descriptor has the name.
    fn exception_class(&self, exception: Exception) -> Option<u32>
        ensures { result ≡
            spec.name_number (Self.world self.now) (throwing.exception_name exception) };

    /// The name of a class as a program sees it (java.lang.Class.getName).
    fn class_name(&self, alloc: Global, class: u32) -> Result<Vec<u16>, NoMemory>
        ensures { IfOk result (λ name.
            name.items ≡ classes.class_name (Self.world self.now) class) };
}
