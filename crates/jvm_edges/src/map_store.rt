//! A fake store of files in memory.

ghost use Rattle.std.specs.Prelude.{◌≡◌, ◌↔◌, ◌≤◌, Some, IsErrOf, IsSome, IfOk, IfSome, option_map, vec_len};
ghost use Rattle.jvm_edges.specs.Causes.{StoreHasCause};
ghost use Rattle.jvm_edges.specs.Files.{file_named, first_bytes, found_bytes};
ghost use Rattle.jvm_edges.specs.States.{StoreState, named_files, new_store};
ghost use Rattle.jvm_edges.specs.Plan.{FailsNext, after_call, after_failed_call};

use crate::fault_plan::FaultPlan;
use crate::store::{Store, StoreError};
use std::alloc::{AllocError, Global};
use std::marker::Model;

/// A store in memory, of which chosen calls fail.
#[derive(Drop)]
pub struct MapStore {
    files: Vec<(String, Vec<u8>)>,
    plan: FaultPlan,
}

impl Model for MapStore {
    ghost Value = { StoreState };

    ghost view = { λ store. record { files = named_files store.files.items; plan = store.plan } };
}

// The first file of that name.
fn find_file<'a>(files: &'a [(String, Vec<u8>)], name: &str) -> Option<&'a [u8]>
    ensures { option_map (λ bytes. bytes.now) result ≡ file_named name.now (named_files files.now) }
{
    for (file_name, bytes) in files {
        if file_name.as_str() == name {
            return Some(bytes.as_slice());
        }
    }
    None
}

impl MapStore {
    /// A store with these files, each after its name. The calls of these numbers fail, counted from 1.
    pub fn new(files: Vec<(String, Vec<u8>)>, fail_at: Vec<u64>) -> Self
        ensures { result ≡ new_store (named_files files.items) fail_at.items }
    {
        MapStore {
            files,
            plan: FaultPlan::new(fail_at),
        }
    }

    /// How often the store failed, at most the greatest u64.
    pub fn faults(&self) -> u64
        ensures { result ≡ self.now.plan.faults }
    {
        self.plan.faults()
    }
}

impl Store for MapStore {
    ghost files = { λ store. Some store.files };

    ghost faults = { λ store. store.plan.faults };

    /// It fails exactly where the number of the call is one of those given to `new`. It wants memory only for the
    /// bytes of a file that there is.
    fn read(
        &mut self,
        alloc: Global,
        name: &str,
        most: usize,
    ) -> Result<Option<Vec<u8>>, StoreError>
        ensures most { IfOk result (λ found. IfSome found (λ bytes. vec_len bytes ≤ most)) }
        ensures found { IfOk result (λ found.
            found_bytes found ≡ first_bytes most (file_named name.now self.old.files)) }
        ensures memory { result ≡ Err StoreError.NoMemory
            → IsSome (file_named name.now self.old.files) }
        ensures files { self.new.files ≡ self.old.files }
        ensures fails { IsErrOf result StoreError.Failed ↔ FailsNext self.old.plan }
        ensures plan_failed { IsErrOf result StoreError.Failed
            → self.new.plan ≡ after_failed_call self.old.plan }
        ensures plan { ¬ IsErrOf result StoreError.Failed
            → self.new.plan ≡ after_call self.old.plan }
        ensures cause { StoreHasCause self.old.plan.faults self.new.plan.faults result }
    {
        if self.plan.count_call() {
            self.plan.count_fault();
            return Err(StoreError::Failed);
        }
        let Some(bytes) = find_file(&self.files, name) else {
            return Ok(None);
        };
        match Vec::from_slice(alloc, &bytes[..most.min(bytes.len())]) {
            Ok(front) => Ok(Some(front)),
            Err(AllocError) => Err(StoreError::NoMemory),
        }
    }
}
