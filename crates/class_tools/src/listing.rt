//! The command `list`.

use crate::conversion::Conversion;
use command_line::Why;
use input_files::class_of;
use jasm::{ListError, list};
use std::alloc::Global;

/// Makes of the bytes of a class file its listing.
pub struct Listing;

impl Conversion for Listing {
    ghost use Rattle.class_tools.specs.Due.{IsListing};
    ghost use Rattle.class_tools.specs.OneDue.{one_listing};

    ghost owes = { IsListing };

    fn convert(&self, alloc: Global, bytes: &[u8]) -> Result<Vec<u8>, Why> {
        let class = class_of(alloc, 0, bytes)?;
        match list(alloc, &class) {
            Ok(text) => Ok(text),
            Err(ListError::Unlisted) => Err(Why::Unlisted { file: 0 }),
            Err(ListError::NoMemory) => Err(Why::NoMemory),
        }
    }

    ghost one_is_due = { one_listing };
}
