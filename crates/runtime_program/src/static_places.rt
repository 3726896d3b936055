//! The places of static fields by number (JVMS 2.5.3).

ghost use Rattle.std.specs.Prelude.{◌≡◌, ◌+◌, cond, slice_get, unwrap_or, IfOk};
ghost use Rattle.ref_model.specs.Members.{is_static_field};
ghost use Rattle.runtime_program.specs.StaticPlaces.{AreStaticPlaces};

use items::NoMemory;
use link_model::FieldInfo;
use link_tables::Tables;
use std::alloc::Global;

// How many static fields come before the next field. Numbers from 2^32 on count as memory run out.
fn behind(field: &FieldInfo, before: u32) -> Result<u32, NoMemory>
    ensures { IfOk result (λ n. n ≡ before + cond (is_static_field field.now) 1 0) }
{
    if field.is_static() {
        return before.checked_add(1).ok_or(NoMemory);
    }
    Ok(before)
}

/// How many static fields come before each field, and how many there are.
#[derive(Drop)]
pub(crate) struct StaticPlaces {
    places: Vec<u32>,
    count: u32,
}

/// These numbers of a program.
pub(crate) fn all_static_places(alloc: Global, tables: &Tables) -> Result<StaticPlaces, NoMemory>
    ensures { IfOk result (λ p. AreStaticPlaces tables.now p) }
{
    let mut places = Vec::new(alloc);
    let mut before = 0u32;
    for field in tables.fields() {
        places.push(before)?;
        before = behind(field, before)?;
    }
    Ok(StaticPlaces {
        places,
        count: before,
    })
}

/// How many static fields come before a field; before one that isn't there all of them.
#[inline(always)]
pub(crate) fn static_place_in(places: &StaticPlaces, field: u32) -> u32
    ensures { result ≡ unwrap_or (slice_get places.now.places.items field) places.now.count }
{
    match places.places.get(field as usize) {
        Some(place) => *place,
        None => places.count,
    }
}
