//! The members of a world by number, and where fields lie.

ghost use Rattle.std.specs.Prelude.{◌≡◌, IfOk};
ghost use Rattle.link_tables.specs.Parts.{AreMembers};

use crate::instance_fields::all_instance_fields;
use crate::places::all_places;
use items::{Items, NoMemory};
use link_model::{FieldInfo, MethodInfo};
use link_numbers::{MemberNumbers, all_fields, all_methods};
use std::alloc::Global;

/// The fields and methods of a world by number, the instance fields of each class, and the places of fields.
#[derive(Drop)]
pub(crate) struct MemberTables {
    pub(crate) fields: Vec<FieldInfo>,
    pub(crate) methods: Vec<MethodInfo>,
    pub(crate) instance_fields: Vec<Items<u32>>,
    pub(crate) places: Vec<Option<u32>>,
}

/// Those of a program. Methods from 2^32 on count as memory run out.
pub(crate) fn member_tables(
    alloc: Global,
    members: &MemberNumbers,
) -> Result<MemberTables, NoMemory>
    ensures { IfOk result (AreMembers members.now) }
{
    let methods = all_methods(alloc, members.hierarchy())?;
    if methods.len() > u32::MAX as usize {
        return Err(NoMemory);
    }
    let fields = all_fields(alloc, members.hierarchy())?;
    let instance_fields = all_instance_fields(alloc, members)?;
    let places = all_places(alloc, &fields, &instance_fields)?;
    Ok(MemberTables {
        fields,
        methods,
        instance_fields,
        places,
    })
}
