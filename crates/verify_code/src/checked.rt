//! Worlds that are well typed.

ghost use Rattle.std.specs.Prelude.{◌≡◌, Err, IfOk, Some};
ghost use Rattle.items.specs.Memory.{OkUnless};
ghost use Rattle.verify_types.specs.declared.fault.VerifyFault.{VerifyFault as Fault};
ghost use Rattle.verify_types.specs.Faults.{IsWellTyped, first_fault};
ghost use Rattle.verify_types.specs.Typing.{AreTyped};

use crate::method_fault::world_fault;
use items::NoMemory;
use link_model::Lookups;
use std::alloc::Global;
use std::marker::Model;
use verify_types::VerifyFault;

/// Why a world was not accepted.
#[derive(Drop)]
pub enum VerifyError<L> {
    /// Where it is not well typed first, and why; and the world itself, which has the names.
    Fault { fault: VerifyFault, world: L },
    /// Memory ran out.
    NoMemory,
}

impl<L> From<NoMemory> for VerifyError<L> {
    ghost use Rattle.verify_code.specs.declared.checked.VerifyError.TheVariants as errors;

    ghost from_gives = { λ _ e. e ≡ errors.NoMemory };

    fn from(_: NoMemory) -> Self {
        VerifyError::NoMemory
    }
}

/// A world each of whose methods is well typed (JVMS 4.10.1).
#[derive(Drop)]
pub struct Checked<L: Lookups> {
    world: L,
}

impl<L: Lookups> Model for Checked<L> {
    ghost use Rattle.link_model.specs.World.{World};
    ghost use Rattle.verify_types.specs.Faults.{IsWellTyped};

    ghost Value = { World };

    ghost view = { λ a. L.world a.world };

    ghost invariant = { λ a. IsWellTyped (L.world a.world) };
}

/// Accepts a world whose methods are all well typed (JVMS 4.10.1). Else the error names the first place where one isn't.
pub fn accept<L: Lookups + Drop>(alloc: Global, world: L) -> Result<Checked<L>, VerifyError<L>>
    // The world that is answered is this one, and it is well typed.
    ensures found { IfOk result (λ checked. checked ≡ L.world world) }
    ensures typed { IfOk result IsWellTyped }
    // A well typed world is answered, unless memory ran out.
    ensures only { IsWellTyped (L.world world)
        → OkUnless result VerifyError.NoMemory (λ checked. checked ≡ L.world world) }
    // A refusal names the first fault, and gives the world back.
    ensures bad { (fault : Fault) (back : L) → result ≡ Err (VerifyError.Fault fault back)
        → (first_fault (L.world world) ≡ Some fault) × (back ≡ world) }
{
    match world_fault(alloc, &world)? {
        None => Ok(Checked { world }),
        Some(fault) => Err(VerifyError::Fault { fault, world }),
    }
}

impl<L: Lookups> Checked<L> {
    /// The world.
    pub fn world(&self) -> &L
        ensures world { L.world result.now ≡ self.now }
        ensures typed { IsWellTyped self.now }
    {
        &self.world
    }
}
