//! Which rows of an exception table may ask something at a pc, and where the next one starts. Of rows in the order of their starts only
//! those are looked at that can matter.

ghost use Rattle.std.specs.Prelude.{◌≡◌, ◌≤◌, true, false, length, map, nat_le, Option, Some};
ghost use Rattle.std.specs.List.{list_all};
ghost use Rattle.std.specs.List.Sorted.{IsNonDecreasingBy, IsPartitionPoint};
ghost use Rattle.verify_types.specs.Environment.{Environment as Env};
ghost use Rattle.verify_types.specs.TypeStates.{TypeState};
ghost use Rattle.verify_code.specs.declared.guards.Guard.{Guard as GuardIn};
ghost use Rattle.verify_code.specs.declared.satisfied.JudgedTwice.{JudgedTwice as Twice};
ghost use Rattle.verify_code.specs.Guards.{guard_in, start_of};
ghost use Rattle.verify_code.specs.Handlers as parts;
ghost use Rattle.verify_code.specs.Handlers.{keeps_more, lower_of};

use crate::guards::Guard;
use crate::satisfied::JudgedTwice;

// How many rows start at a pc or before it.
fn started(guards: &[Guard], pc: u32) -> usize
    requires { IsNonDecreasingBy start_of guards.now }
    ensures within { result ≤ length guards.now }
    ensures point { IsPartitionPoint (λ (g : GuardIn). nat_le g.row.start pc ≡ true)
        (λ (g : GuardIn). nat_le g.row.start pc ≡ false) guards.now result }
{
    guards.partition_point(|guard| u32::from(guard.row.start) <= pc)
}

// The rows that start at a pc or before it, among which are all that ask something there.
fn started_rows(guards: &[Guard], pc: u32) -> &[Guard]
    requires { IsNonDecreasingBy start_of guards.now }
    ensures asks { (env : Env) (twice : Option Twice) (s : TypeState) →
        list_all (keeps_more env twice pc s) (map guard_in result.now)
        ≡ list_all (keeps_more env twice pc s) (map guard_in guards.now) }
    ensures sorted { IsNonDecreasingBy start_of result.now }
{
    guards.split_at(started(guards, pc)).0
}

// The lower of the two pcs at which the handlers were satisfied, if both lie at this pc or before it.
fn lower(twice: Option<JudgedTwice>, pc: u32) -> Option<u32>
    ensures { result ≡ lower_of twice pc }
{
    match twice {
        Some(t) => {
            if t.one.at <= pc && t.other.at <= pc {
                Some(t.one.at.min(t.other.at))
            } else {
                None
            }
        }
        None => None,
    }
}

// The rows that start after the lower of the two pcs: one that starts before it and covers this pc covers both.
fn later_rows(guards: &[Guard], at: u32, twice: Option<JudgedTwice>, pc: u32) -> &[Guard]
    requires sorted { IsNonDecreasingBy start_of guards.now }
    requires lower { lower_of twice pc ≡ Some at }
    ensures { (env : Env) (s : TypeState) →
        list_all (keeps_more env twice pc s) (map guard_in result.now)
        ≡ list_all (keeps_more env twice pc s) (map guard_in guards.now) }
{
    guards.split_at(started(guards, at)).1
}

/// Rows among which are all that ask something at a pc, but for those that cover both other pcs.
pub fn asking(guards: &[Guard], are_sorted: bool, twice: Option<JudgedTwice>, pc: u32) -> &[Guard]
    requires { are_sorted ≡ true → IsNonDecreasingBy start_of guards.now }
    ensures { (env : Env) (s : TypeState) →
        list_all (keeps_more env twice pc s) (map guard_in result.now)
        ≡ list_all (keeps_more env twice pc s) (map guard_in guards.now) }
{
    if !are_sorted {
        return guards;
    }
    let started = started_rows(guards, pc);
    match lower(twice, pc) {
        Some(at) => later_rows(started, at, twice, pc),
        None => started,
    }
}

// The start of a row, where it lies after a pc and before the next.
fn nearer(pc: u32, next: u32, start: u32) -> u32
    ensures { result ≡ parts.nearer pc next start }
{
    if pc < start && start < next {
        start
    } else {
        next
    }
}

// The first pc after this one at which a row starts; 65,536 where there is none.
fn nearest_start(guards: &[Guard], pc: u32) -> u32
    ensures { result ≡ parts.next_start pc 65536 (map guard_in guards.now) }
{
    let mut next = 65_536;
    let mut rest = guards;
    while let Some((guard, behind)) = rest.split_first() {
        next = nearer(pc, next, u32::from(guard.row.start));
        rest = behind;
    }
    next
}

// The same where the rows lie in the order of their starts.
fn later_start(guards: &[Guard], pc: u32) -> u32
    requires { IsNonDecreasingBy start_of guards.now }
    ensures { result ≡ parts.next_start pc 65536 (map guard_in guards.now) }
{
    match guards.split_at(started(guards, pc)).1.split_first() {
        Some((guard, _)) => nearer(pc, 65_536, u32::from(guard.row.start)),
        None => 65_536,
    }
}

/// The first pc after this one at which a row starts; 65,536 where there is none.
pub fn next_start(guards: &[Guard], are_sorted: bool, pc: u32) -> u32
    requires { are_sorted ≡ true → IsNonDecreasingBy start_of guards.now }
    ensures { result ≡ parts.next_start pc 65536 (map guard_in guards.now) }
{
    if are_sorted {
        later_start(guards, pc)
    } else {
        nearest_start(guards, pc)
    }
}
