//! ASCII texts as units.

use std::alloc::{AllocError, Global};

/// Puts the units of a text after those that are there.
pub(crate) fn append(units: &mut Vec<u16>, text: &[u8]) -> Result<(), AllocError> {
    for byte in text {
        units.push(u16::from(*byte))?;
    }
    Ok(())
}

/// The units of a text.
pub(crate) fn units_of(alloc: Global, text: &[u8]) -> Result<Vec<u16>, AllocError> {
    let mut units = Vec::new(alloc);
    append(&mut units, text)?;
    Ok(units)
}
