ghost use Rattle.std.specs.Prelude.{◌≡◌, [], get_or};

use heap_instructions::EventWorld;

/// What native methods ask of a linked world, in constant time.
pub trait NativeWorld: EventWorld {
    /// The units of the name of a class, with slashes (JVMS 4.2.1). There are none where the number is that of no class, or of an array
    /// class.
    fn name(&self, class: u32) -> &[u16]
        ensures { result.now ≡ get_or (Self.world self.now).names class [] };
}
