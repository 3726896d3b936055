ghost use Rattle.std.specs.Prelude.{◌≡◌, IfOk};
ghost use Rattle.link_model.specs.World.{name_number};

use items::NoMemory;
use link_tables::Tables;
use std::alloc::Global;

/// The number of the class of this name, in ASCII. `None`: no pool or descriptor has the name.
pub fn named(alloc: Global, tables: &Tables, name: &[u8]) -> Result<Option<u32>, NoMemory>
    ensures { IfOk result (λ n. n ≡ name_number tables.now name.now) }
{
    let units: Vec<u16> = name.iter().map(|b| u16::from(*b)).collect(alloc)?;
    Ok(tables.name_number(&units))
}
