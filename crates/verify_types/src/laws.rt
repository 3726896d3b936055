//! What holds of the definitions in `specs/`, each as a call that does nothing.

ghost use Rattle.std.specs.Prelude.{◌≡◌, ◌↔◌, true, Some};
ghost use Rattle.items.specs.First.{AllNone, IsFirst};
ghost use Rattle.stack_maps.specs.declared.types.VType.{VType};
ghost use Rattle.instruction_rows.specs.declared.value.Slot.{Slot};
ghost use Rattle.instruction_rows.specs.Contents.{Contents};
ghost use Rattle.instruction_rows.specs.Soundness.{KeepsKind, HasKinds};
ghost use Rattle.link_model.specs.World.{World};
ghost use Rattle.link_model.specs.Decoded.{AreDecoded};
ghost use Rattle.verify_types.specs.declared.fault.VerifyFault.{VerifyFault};
ghost use Rattle.verify_types.specs.Assignability.{assignable};
ghost use Rattle.verify_types.specs.TypeStates.{TypeState, fits};
ghost use Rattle.verify_types.specs.Faults.{world_faults, first_fault, IsWellTyped};
ghost use Rattle.verify_types.specs.Acceptance.{AreAccepted};
ghost use Rattle.verify_types.specs.Typing.{AreTyped};

/// The fault that is named is the first: it is there, and none comes before it in the order of classes, methods, pcs and
/// reasons. None is named exactly where there is none, and this is where each instruction of each method keeps to every rule
/// (JVMS 4.10.1).
pub fn first_faults()
    ensures first { (w : World) (f : VerifyFault)
        → first_fault w ≡ Some f ↔ IsFirst (world_faults w) f }
    ensures none { (w : World) → IsWellTyped w ↔ AllNone (world_faults w) }
    ensures rules { (w : World) → AreDecoded w → IsWellTyped w ↔ AreAccepted w }
{}

/// In a well typed program each instruction has a state, and what it leaves is known wherever it goes: at the next instruction,
/// at its targets, and at the handlers of what it throws (JVMS 4.10.1.6).
pub fn typed_methods()
    ensures { (w : World) → AreDecoded w → IsWellTyped w → AreTyped w }
{}

/// A type that is assignable to another says as much of its values' kinds (JVMS 4.10.1.2, 2.11.1), and so does a state that fits
/// another.
pub fn kinds_are_kept()
    ensures types { (w : World) (a b : VType) → assignable w a b ≡ true → KeepsKind a b }
    ensures states { (w : World) (a b : TypeState) (c : Contents Slot) → fits w a b ≡ true
        → HasKinds a.types c → HasKinds b.types c }
{}
