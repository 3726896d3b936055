//! Times and deadlines in nanoseconds, and what reads the clock (java.lang.System).

ghost use Rattle.std.specs.Prelude.{◌≡◌, ◌/◌, ◌==◌, pos, unsigned_abs};
ghost use Rattle.std.specs.Int.{w64, int_wrap};
ghost use Rattle.ref_model.specs.Requests as asking;
ghost use Rattle.ref_model.specs.Waiting as waiting;

use ref_model::ThreadRequest;

// How many nanoseconds a millisecond has.
const NANOS_IN_MILLI: u64 = 1_000_000;

/// Whether there is a time, and it is negative.
pub fn is_negative(time: Option<i64>) -> bool
    ensures { result ≡ waiting.is_negative time }
{
    match time {
        Some(time) => time < 0,
        None => false,
    }
}

/// Whether a time is 0.
pub fn is_zero(time: i64) -> bool
    ensures { result ≡ (unsigned_abs time == 0) }
{
    time.unsigned_abs() == 0
}

/// Whether there is a time, and it is 0 or negative.
pub fn is_over(time: Option<i64>) -> bool
    ensures { result ≡ waiting.is_over time }
{
    match time {
        Some(time) => time < 1,
        None => false,
    }
}

/// Whether a deadline is there, and the time isn't less.
pub fn is_reached(now: u64, deadline: Option<u64>) -> bool
    ensures { result ≡ waiting.is_reached now deadline }
{
    match deadline {
        Some(deadline) => deadline <= now,
        None => false,
    }
}

/// The time so many milliseconds from now, of which none is negative.
pub fn millis_after(now: u64, millis: i64) -> u64
    ensures { result ≡ waiting.millis_after now millis }
{
    let nanos = millis.unsigned_abs().saturating_mul(NANOS_IN_MILLI);
    now.saturating_add(nanos)
}

/// The deadline of wait and join: none without a time, and none for 0.
pub fn deadline_of(now: u64, millis: Option<i64>) -> Option<u64>
    ensures { result ≡ waiting.deadline_of now millis }
{
    match millis {
        Some(millis) => {
            if is_zero(millis) {
                None
            } else {
                Some(millis_after(now, millis))
            }
        }
        None => None,
    }
}

/// The deadline of park: none without a time.
pub fn park_deadline(now: u64, nanos: Option<i64>) -> Option<u64>
    ensures { result ≡ waiting.park_deadline now nanos }
{
    match nanos {
        Some(nanos) => Some(now.saturating_add(nanos.unsigned_abs())),
        None => None,
    }
}

/// The time as nanoTime tells it.
pub fn nano_time(now: u64) -> i64
    ensures { result ≡ int_wrap w64 (pos now) }
{
    now.cast_signed()
}

/// The time as currentTimeMillis tells it.
pub fn time_millis(now: u64) -> i64
    ensures { result ≡ pos (now / waiting.nanos_in_milli) }
{
    (now / NANOS_IN_MILLI) as i64
}

/// Whether the step that asks this reads the clock, whatever comes of it.
pub fn reads_clock(request: ThreadRequest) -> bool
    ensures { result ≡ asking.reads_clock (asking.request_of request) }
{
    match request {
        ThreadRequest::TellsNanos | ThreadRequest::TellsMillis | ThreadRequest::Sleeps(_) => true,
        ThreadRequest::Parks(nanos) => nanos.is_some(),
        ThreadRequest::WaitsOn { millis, .. } => millis.is_some(),
        ThreadRequest::Joins { millis, .. } => millis.is_some(),
        _ => false,
    }
}
