//! Owners of monitors, which leave one once (JLS 17.1).

ghost use Rattle.std.specs.Prelude.{◌≡◌, IfOk};
ghost use Rattle.monitor_steps.specs.Owners.{IsLeft, owns_in};

use crate::outcome::MonitorOutcome;
use items::NoMemory;
use monitors::Monitors;

/// Whether a thread owns a monitor.
pub(crate) fn is_owner(monitors: &Monitors, t: u32, o: u32) -> bool
    ensures { result ≡ owns_in monitors.now t o }
{
    match monitors.owner(o) {
        Some(owner) => owner == t,
        None => false,
    }
}

/// The owner of a monitor leaves it once. `None`: the thread isn't the owner. A monitor that its owner hasn't entered counts as memory
/// run out.
pub(crate) fn leave_once(
    monitors: &mut Monitors,
    t: u32,
    o: u32,
) -> Result<Option<MonitorOutcome>, NoMemory>
    ensures { IfOk result (λ outcome. IsLeft t o outcome monitors.old monitors.new) }
{
    let count = monitors.count(o);
    let Ok(first) = monitors.exit(o, t) else {
        return Ok(None);
    };
    if count == 0 {
        return Err(NoMemory);
    }
    if count > 1 {
        Ok(Some(MonitorOutcome::Done))
    } else {
        Ok(Some(MonitorOutcome::Frees(first)))
    }
}
