//! The method run of java.lang.Thread, by which a run is selected for a thread that is started.

ghost use Rattle.std.specs.Prelude.{◌≡◌, IfOk};
ghost use Rattle.link_rules.specs.Members.{declared_method};
ghost use Rattle.ref_model.specs.Starting as spec;

use crate::class_numbers::named;
use items::NoMemory;
use link_resolution::{Hierarchy, MemberKey};
use link_rules::MemberPlace;
use link_tables::Tables;
use std::alloc::Global;

/// `run` and `()V`.
const RUN_NAME: [u16; 3] = [114, 117, 110];

const RUN_DESCRIPTOR: [u16; 3] = [40, 41, 86];

// The number of a method that isn't static.
fn instance_at(tables: &Tables, at: MemberPlace) -> Result<Option<u32>, NoMemory>
    ensures { IfOk result (λ n. n ≡ spec.instance_at tables.now.program at) }
{
    if tables.hierarchy().has_static_method(at) {
        Ok(None)
    } else {
        let number = tables.method_number(at)?;
        Ok(Some(number))
    }
}

fn run_place(hierarchy: &Hierarchy, class: u32) -> Option<MemberPlace>
    ensures { result ≡ declared_method hierarchy.now spec.run_key class }
{
    let key = MemberKey {
        name: &RUN_NAME,
        descriptor: &RUN_DESCRIPTOR,
    };
    hierarchy.declared_method(key, class)
}

/// The number of the method run of java.lang.Thread. `None`: there is no such method, or it is static.
pub(crate) fn run_method(alloc: Global, tables: &Tables) -> Result<Option<u32>, NoMemory>
    ensures { IfOk result (λ n. n ≡ spec.run_method tables.now) }
{
    let Some(class) = named(alloc, tables, b"java/lang/Thread")? else {
        return Ok(None);
    };
    match run_place(tables.hierarchy(), class) {
        Some(at) => instance_at(tables, at),
        None => Ok(None),
    }
}
