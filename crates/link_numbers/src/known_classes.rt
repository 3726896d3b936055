//! The built-in classes that typing speaks of (JVMS 4.10.1.2).

ghost use Rattle.std.specs.Prelude.{◌≡◌, IfOk};
ghost use Rattle.link_model.specs.Numbering as spec;
ghost use Rattle.link_numbers.specs.KnownClasses.{known_in};

use crate::names::Names;
use items::NoMemory;
use std::alloc::Global;

/// The numbers of classes that typing speaks of. `None`: the world has no class of the name.
#[derive(Clone, Copy)]
pub struct KnownClasses {
    pub object: Option<u32>,
    pub cloneable: Option<u32>,
    pub serializable: Option<u32>,
    pub string: Option<u32>,
    pub throwable: Option<u32>,
}

// The number of the class of this name.
fn number_of(alloc: Global, names: &Names, name: &[u8]) -> Result<Option<u32>, NoMemory>
    ensures { IfOk result (λ n. n ≡ spec.number_of names.now name.now) }
{
    let units: Vec<u16> = name.iter().map(|b| u16::from(*b)).collect(alloc)?;
    Ok(names.number(&units))
}

impl KnownClasses {
    /// Those of the world with these names.
    pub fn new(alloc: Global, names: &Names) -> Result<Self, NoMemory>
        ensures { IfOk result (λ known. known ≡ known_in names.now) }
    {
        Ok(KnownClasses {
            object: number_of(alloc, names, b"java/lang/Object")?,
            cloneable: number_of(alloc, names, b"java/lang/Cloneable")?,
            serializable: number_of(alloc, names, b"java/io/Serializable")?,
            string: number_of(alloc, names, b"java/lang/String")?,
            throwable: number_of(alloc, names, b"java/lang/Throwable")?,
        })
    }
}
