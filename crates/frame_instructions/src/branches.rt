//! Rows that choose where to go on (JVMS 6.5: the ifs and the switches).

ghost use Rattle.std.specs.Prelude.{ℕ, ◌≡◌, ◌+◌, ◌-◌, ◌≤◌, ◌<◌, Option, Some, length, slice_get};
ghost use Rattle.opcodes.specs.declared.op.ValueKind.TheVariants as kinds;
ghost use Rattle.instruction_rows.specs.Comparisons as comparisons;
ghost use Rattle.instruction_rows.specs.Kinds.{value};
ghost use Rattle.instruction_rows.specs.Rows.{select};
ghost use Rattle.instruction_rows.specs.SlotEffect.{to};
ghost use Rattle.instruction_rows.specs.Switches.{lookup_target, lookup_targets, table_target, table_targets};
ghost use Rattle.frame_instructions.specs.SlotRows.{CanAct, Acts};
ghost use Rattle.frame_instructions.specs.Conditions.{CanBranch, Branches, zero_condition, int_condition, ints_condition, references_condition, null_condition};

use instruction_rows::{Slot, Value, compares};
use opcodes::{Comparison, LookupSwitch, Sameness, TableSwitch};
use slot_block::{StoredSlot, int_at, slot_at};

// The number of the object to which a reference at an index refers, None for null.
#[inline(always)]
fn object_at(slots: &[StoredSlot], i: usize) -> Option<u32>
    requires { i < length slots.now }
    ensures { (r : Option ℕ) → slice_get slots.now i ≡ Some (Slot.One (value kinds.Reference r))
        → result ≡ r }
{
    match slot_at(slots, i) {
        Slot::One(Value::Ref(object)) => Some(object),
        _ => None,
    }
}

// Whether two references compare so.
#[inline(always)]
fn are_so(s: Sameness, a: Option<u32>, b: Option<u32>) -> bool
    ensures { result ≡ comparisons.are_so s a b }
{
    let same = match (a, b) {
        (None, None) => true,
        (Some(a), Some(b)) => a == b,
        _ => false,
    };
    match s {
        Sameness::Same => same,
        Sameness::Different => !same,
    }
}

/// ifeq to ifle: whether the branch is taken.
#[inline(always)]
pub fn if_zero(order: Comparison, slots: &[StoredSlot], locals: usize, used: usize) -> bool
    requires fits { locals + used ≤ length slots.now }
    requires tests { CanBranch (zero_condition order) slots.now locals used }
    ensures { Branches (zero_condition order) slots.now locals used (used - 1) result }
{
    let at = locals + used - 1;
    let a = int_at(slots, at);
    compares(order, a, 0)
}

/// if_icmpeq to if_icmple with this upper int, which isn't pushed: whether the branch is taken.
#[inline(always)]
pub fn if_int(order: Comparison, n: i32, slots: &[StoredSlot], locals: usize, used: usize) -> bool
    requires fits { locals + used ≤ length slots.now }
    requires tests { CanBranch (int_condition order n) slots.now locals used }
    ensures { Branches (int_condition order n) slots.now locals used (used - 1) result }
{
    let at = locals + used - 1;
    let a = int_at(slots, at);
    compares(order, a, n)
}

/// if_icmpeq to if_icmple: whether the branch is taken.
#[inline(always)]
pub fn if_ints(order: Comparison, slots: &[StoredSlot], locals: usize, used: usize) -> bool
    requires fits { locals + used ≤ length slots.now }
    requires tests { CanBranch (ints_condition order) slots.now locals used }
    ensures { Branches (ints_condition order) slots.now locals used (used - 2) result }
{
    let at = locals + used - 2;
    let a = int_at(slots, at);
    let b = int_at(slots, at + 1);
    compares(order, a, b)
}

/// if_acmpeq and if_acmpne: whether the branch is taken.
#[inline(always)]
pub fn if_references(s: Sameness, slots: &[StoredSlot], locals: usize, used: usize) -> bool
    requires fits { locals + used ≤ length slots.now }
    requires tests { CanBranch (references_condition s) slots.now locals used }
    ensures { Branches (references_condition s) slots.now locals used (used - 2) result }
{
    let at = locals + used - 2;
    let a = object_at(slots, at);
    let b = object_at(slots, at + 1);
    are_so(s, a, b)
}

/// ifnull and ifnonnull: whether the branch is taken.
#[inline(always)]
pub fn if_null(s: Sameness, slots: &[StoredSlot], locals: usize, used: usize) -> bool
    requires fits { locals + used ≤ length slots.now }
    requires tests { CanBranch (null_condition s) slots.now locals used }
    ensures { Branches (null_condition s) slots.now locals used (used - 1) result }
{
    let at = locals + used - 1;
    let a = object_at(slots, at);
    are_so(s, a, None)
}

// The target of a tableswitch for an int.
fn table_choice(s: &TableSwitch, n: i32) -> i64
    ensures { result ≡ table_target s.now n }
{
    if n < s.low {
        return s.default;
    }
    let targets = s.targets.as_slice();
    targets
        .get(n.abs_diff(s.low) as usize)
        .copied()
        .unwrap_or(s.default)
}

// The target of a lookupswitch for an int.
fn lookup_choice(s: &LookupSwitch, n: i32) -> i64
    ensures { result ≡ lookup_target s.now n }
{
    s.matches
        .as_slice()
        .iter()
        .find(|m| m.value == n)
        .map(|m| m.target)
        .unwrap_or(s.default)
}

/// tableswitch: the target.
pub fn table_switch(s: &TableSwitch, slots: &[StoredSlot], locals: usize, used: usize) -> i64
    requires fits { locals + used ≤ length slots.now }
    requires acts { CanAct (select (table_target s.now) (table_targets s.now))
        slots.now locals used }
    ensures { Acts (select (table_target s.now) (table_targets s.now))
        slots.now locals used slots.now (used - 1) (to result) }
{
    let a = int_at(slots, locals + used - 1);
    table_choice(s, a)
}

/// lookupswitch: the target.
pub fn lookup_switch(s: &LookupSwitch, slots: &[StoredSlot], locals: usize, used: usize) -> i64
    requires fits { locals + used ≤ length slots.now }
    requires acts { CanAct (select (lookup_target s.now) (lookup_targets s.now))
        slots.now locals used }
    ensures { Acts (select (lookup_target s.now) (lookup_targets s.now))
        slots.now locals used slots.now (used - 1) (to result) }
{
    let a = int_at(slots, locals + used - 1);
    lookup_choice(s, a)
}
