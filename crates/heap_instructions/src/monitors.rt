//! The instructions on monitors (JVMS 6.5: monitorenter, monitorexit). Null has no monitor.

ghost use Rattle.std.specs.Prelude.{◌∷◌, []};
ghost use Rattle.opcodes.specs.declared.op.ValueKind.TheVariants as kinds;
ghost use Rattle.ref_model.specs.Operands.{HasOperands};
ghost use Rattle.ref_model.specs.Requests.{enters, exits};
ghost use Rattle.ref_model.specs.RowEffects.{monitor_asked};
ghost use Rattle.heap_instructions.specs.Operands.{operands};
ghost use Rattle.heap_instructions.specs.Outcomes.{ActsAlone};

use crate::operands::reference_operand;
use crate::outcome::Outcome;
use continuation::Mounted;
use ref_model::{Exception, ThreadRequest};

/// monitorenter.
#[inline(always)]
pub fn enter_monitor(mounted: &Mounted) -> Outcome
    requires { HasOperands (kinds.Reference ∷ []) 0 (operands mounted.now) }
    ensures { ActsAlone (monitor_asked enters) mounted.now result }
{
    match reference_operand(mounted, 0) {
        Some(o) => Outcome::Asks {
            request: ThreadRequest::Enters(o),
            operands: 1,
        },
        None => Outcome::Throws(Exception::NullPointerException),
    }
}

/// monitorexit.
#[inline(always)]
pub fn exit_monitor(mounted: &Mounted) -> Outcome
    requires { HasOperands (kinds.Reference ∷ []) 0 (operands mounted.now) }
    ensures { ActsAlone (monitor_asked exits) mounted.now result }
{
    match reference_operand(mounted, 0) {
        Some(o) => Outcome::Asks {
            request: ThreadRequest::Exits(o),
            operands: 1,
        },
        None => Outcome::Throws(Exception::NullPointerException),
    }
}
