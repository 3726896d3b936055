//! Where the values of instance fields lie (JVMS 2.7).

ghost use Rattle.std.specs.Prelude.{◌≡◌, length, IfOk};
ghost use Rattle.link_resolution.specs.Tables.{tabulate};
ghost use Rattle.ref_model.specs.Members.{field_place};

use items::NoMemory;
use link_tables::Tables;
use std::alloc::Global;

// The place of an instance field among the values of an object. `None`: there is no such instance field.
fn instance_place(tables: &Tables, n: u32) -> Option<u32>
    ensures { result ≡ field_place tables.now n }
{
    match tables.field(n) {
        None => None,
        Some(field) => {
            if field.is_static() {
                None
            } else {
                tables.place(n)
            }
        }
    }
}

/// The places of all instance fields, by the numbers of the fields. Numbers from 2^32 on count as memory run out.
pub(crate) fn all_instance_places(
    alloc: Global,
    tables: &Tables,
) -> Result<Vec<Option<u32>>, NoMemory>
    ensures { IfOk result (λ v. v.items
        ≡ tabulate (field_place tables.now) (length tables.now.fields)) }
{
    let Ok(count) = u32::try_from(tables.fields().len()) else {
        return Err(NoMemory);
    };
    let mut places = Vec::new(alloc);
    for n in 0..count {
        places.push(instance_place(tables, n))?;
    }
    Ok(places)
}
