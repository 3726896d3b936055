//! Permits and interrupt statuses of threads, where a thread that isn't there counts as memory run out.

ghost use Rattle.std.specs.Prelude.{◌≡◌, IfOk};
ghost use Rattle.program_state.specs.Waking.{IsInterruptTaken, IsPermitTaken, flag_at};

use items::NoMemory;
use wakes::Wakes;

/// Whether a thread has a permit (LockSupport).
pub(crate) fn has_permit(wakes: &Wakes, t: u32) -> bool
    ensures { result ≡ flag_at wakes.now.permits t }
{
    (t as usize) < wakes.count() && wakes.permit(t)
}

/// Whether a thread's interrupt status is set (Thread).
pub fn is_interrupted(wakes: &Wakes, t: u32) -> bool
    ensures { result ≡ flag_at wakes.now.interrupts t }
{
    (t as usize) < wakes.count() && wakes.interrupted(t)
}

/// Takes a thread's permit, and says whether there was one.
pub(crate) fn take_permit(wakes: &mut Wakes, t: u32) -> Result<bool, NoMemory>
    ensures { IfOk result (λ had. IsPermitTaken t had wakes.old wakes.new) }
{
    if t as usize >= wakes.count() {
        return Err(NoMemory);
    }
    Ok(wakes.take_permit(t))
}

/// Clears a thread's interrupt status, and says whether it was set.
pub fn take_interrupt(wakes: &mut Wakes, t: u32) -> Result<bool, NoMemory>
    ensures { IfOk result (λ had. IsInterruptTaken t had wakes.old wakes.new) }
{
    if t as usize >= wakes.count() {
        return Err(NoMemory);
    }
    Ok(wakes.take_interrupt(t))
}
