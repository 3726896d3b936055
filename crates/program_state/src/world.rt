//! What threads ask of a linked world.

ghost use Rattle.std.specs.Prelude.{◌≡◌};
ghost use Rattle.ref_model.specs.Starting as starting;

use thread_steps::MachineWorld;

/// What threads ask of a linked world, beside what their steps ask.
pub trait ThreadWorld: MachineWorld {
    /// The number of the method run of java.lang.Thread, in constant time. `None`: there is no such method, or it is static.
    fn run_method(&self) -> Option<u32>
        ensures { result ≡ starting.run_method (Self.world self.now) };
}
