//! Native frames, which pin their thread to its carrier (JEP 444).

ghost use Rattle.std.specs.Prelude.{◌≡◌, nat_lt};
ghost use Rattle.ref_model.specs.Looks.{is_pin, pins_of};
ghost use Rattle.invocation.specs.Places.{frame_at};

use crate::world::CallWorld;
use continuation::Mounted;

// Whether the frames of a method are native: it is jvt.Native.hold.
fn is_native<W: CallWorld>(world: &W, method: u32) -> bool
    ensures { result ≡ is_pin (W.world world.now) (frame_at method 0) }
{
    match world.method(method) {
        Some(method) => world.is_hold(method),
        None => false,
    }
}

/// Whether a native frame pins a thread to its carrier. This looks at the frames from the top one on, as far as there is none.
pub fn is_pinned<W: CallWorld>(world: &W, mounted: &Mounted) -> bool
    ensures { result ≡ nat_lt 0 (pins_of (W.world world.now) mounted.now.stack.frames) }
{
    for above in 0..mounted.depth() {
        if is_native(world, mounted.method_at(above)) {
            return true;
        }
    }
    false
}
