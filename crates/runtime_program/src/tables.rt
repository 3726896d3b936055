//! The tables that are made once, so that later answers take constant time.

ghost use Rattle.std.specs.Prelude.{◌≡◌, false, slice_get, unwrap_or, IfOk};
ghost use Rattle.std.specs.Option.{option_and_then};
ghost use Rattle.runtime_program.specs.Tables.{HasTables};

use crate::array_classes::all_inner_classes;
use crate::exception_classes::{ExceptionClasses, exception_classes};
use crate::field_values::all_new_values;
use crate::instance_places::all_instance_places;
use crate::methods::{all_natives, all_open};
use crate::static_places::{StaticPlaces, all_static_places};
use crate::thread_run::run_method;
use instruction_rows::Value;
use items::{Items, NoMemory};
use lib_table::Native;
use link_tables::Tables;
use std::alloc::Global;

/// By method: what the machine does in place of its code, and whether no local instruction leaves it. By class: the values
/// of a new object. By field: how many static fields come before it, and its place in an object. By array class: the class of its elements.
/// And the number of the method run of java.lang.Thread.
#[derive(Drop)]
pub(crate) struct ReadyTables {
    pub(crate) natives: Vec<Option<Native>>,
    pub(crate) open_methods: Vec<bool>,
    pub(crate) new_values: Vec<Items<Value>>,
    pub(crate) static_places: StaticPlaces,
    pub(crate) instance_places: Vec<Option<u32>>,
    pub(crate) inner_classes: Vec<Option<u32>>,
    pub(crate) exceptions: ExceptionClasses,
    pub(crate) run_method: Option<u32>,
}

/// These tables of a program.
pub(crate) fn tables_of(alloc: Global, tables: &Tables) -> Result<ReadyTables, NoMemory>
    ensures { IfOk result (λ t. HasTables tables.now t) }
{
    let natives = all_natives(alloc, tables)?;
    let open_methods = all_open(alloc, tables)?;
    let new_values = all_new_values(alloc, tables)?;
    let static_places = all_static_places(alloc, tables)?;
    let instance_places = all_instance_places(alloc, tables)?;
    let inner_classes = all_inner_classes(alloc, tables)?;
    let exceptions = exception_classes(alloc, tables)?;
    let run_method = run_method(alloc, tables)?;
    Ok(ReadyTables {
        natives,
        open_methods,
        new_values,
        static_places,
        instance_places,
        inner_classes,
        exceptions,
        run_method,
    })
}

/// The entry of a table of natives; past its end none.
#[inline(always)]
pub(crate) fn native_entry(table: &[Option<Native>], n: u32) -> Option<Native>
    ensures { result ≡ option_and_then (λ o. o) (slice_get table.now n) }
{
    match table.get(n as usize) {
        Some(entry) => *entry,
        None => None,
    }
}

/// The same of numbers.
#[inline(always)]
pub(crate) fn number_entry(table: &[Option<u32>], n: u32) -> Option<u32>
    ensures { result ≡ option_and_then (λ o. o) (slice_get table.now n) }
{
    match table.get(n as usize) {
        Some(entry) => *entry,
        None => None,
    }
}

/// The flag at a place of a table; past its end false.
#[inline(always)]
pub(crate) fn flag_entry(table: &[bool], n: u32) -> bool
    ensures { result ≡ unwrap_or (slice_get table.now n) false }
{
    match table.get(n as usize) {
        Some(flag) => *flag,
        None => false,
    }
}
