//! The first fault of a method, and of a world (JVMS 4.10.1).

ghost use Rattle.std.specs.Prelude.{◌≡◌, IfOk};
ghost use Rattle.link_model.specs.Decoded.{IsDecoded};
ghost use Rattle.verify_types.specs.Faults as spec;
ghost use Rattle.verify_instructions.specs.Views.{environment_in};
ghost use Rattle.verify_code.specs.Methods.{numbered_fault};

use crate::environment::Environment;
use items::NoMemory;
use link_model::Lookups;
use std::alloc::Global;
use verify_instructions::Method;
use verify_types::{PcFault, VerifyFault, VerifyWhy};

// The first fault of a method whose stack map is one. `None`: there is none.
fn environment_fault<L: Lookups>(
    alloc: Global,
    environment: Environment<'_, L>,
) -> Result<Option<PcFault>, NoMemory>
    ensures { IfOk result (λ fault. fault ≡ spec.method_fault environment.entry) }
{
    let environment = environment.with_merged(alloc)?;
    let first = environment.first_state(alloc)?;
    environment.first_fault(alloc, first)
}

/// The first fault of a method with code. `None`: there is none.
pub fn method_fault<L: Lookups>(
    alloc: Global,
    world: &L,
    method: Method<'_>,
) -> Result<Option<PcFault>, NoMemory>
    requires { IsDecoded method.code.now }
    ensures { IfOk result (λ fault. fault ≡
        spec.method_fault (environment_in (L.world world.now) method.entry)) }
{
    match Environment::new(alloc, world, method)? {
        Some(environment) => environment_fault(alloc, environment),
        None => Ok(Some(PcFault {
            pc: 0,
            why: VerifyWhy::Map,
        })),
    }
}

// The first fault of the method of a number. `None`: there is none, or no such method with code.
fn fault_of_method<L: Lookups>(
    alloc: Global,
    world: &L,
    n: u32,
) -> Result<Option<VerifyFault>, NoMemory>
    ensures { IfOk result (λ fault. fault ≡ numbered_fault (L.world world.now) n) }
{
    let Some(info) = world.method(n) else {
        return Ok(None);
    };
    let Some(code) = world.code(n) else {
        return Ok(None);
    };
    let method = Method {
        info,
        code,
        resolutions: world.resolutions(n),
        catches: world.catches(n),
    };
    Ok(method_fault(alloc, world, method)?.map(|fault| VerifyFault {
        class: info.class,
        method: n,
        pc: fault.pc,
        why: fault.why,
    }))
}

/// The first fault of a world: class by class, method by method and by rising pc. `None`: there is none.
pub fn world_fault<L: Lookups>(alloc: Global, world: &L) -> Result<Option<VerifyFault>, NoMemory>
    ensures { IfOk result (λ fault. fault ≡ spec.first_fault (L.world world.now)) }
{
    for n in 0..world.method_count() {
        if let Some(fault) = fault_of_method(alloc, world, n)? {
            return Ok(Some(fault));
        }
    }
    Ok(None)
}
