ghost use Rattle.std.specs.Prelude.{◌≡◌, ◌≤◌, ℕ, Option, IfOk, IfSome, vec_len};
ghost use Rattle.jvm_edges.specs.Causes.{StoreHasCause};
ghost use Rattle.jvm_edges.specs.Files.{Files, file_named, first_bytes, found_bytes};

use std::alloc::{AllocError, AllocFailed, Global};
use thiserror::Error;

/// Why a file could not be read.
#[derive(Clone, Copy, Debug, PartialEq, Eq, Error)]
pub enum StoreError {
    /// The store failed. Its count of faults rose.
    #[error("the file could not be read")]
    Failed,
    /// Memory ran out.
    #[error("out of memory")]
    NoMemory,
}

/// Where files are read from.
pub trait Store {
    /// The files, where they are known.
    ghost files: { Self → Option Files };

    /// How often the store failed, at most the greatest u64.
    ghost faults: { Self → ℕ };

    /// Reads the first bytes of a file, at most `most` of them. `None`: there is no such file. The count of faults
    /// rises exactly where the answer is `Failed`.
    fn read(
        &mut self,
        alloc: Global,
        name: &str,
        most: usize,
    ) -> Result<Option<Vec<u8>>, StoreError>
        ensures most { IfOk result (λ found. IfSome found (λ bytes. vec_len bytes ≤ most)) }
        ensures known { IfSome (files self.old) (λ files. IfOk result (λ found.
            found_bytes found ≡ first_bytes most (file_named name.now files))) }
        ensures kept { files self.new ≡ files self.old }
        ensures cause { StoreHasCause (faults self.old) (faults self.new) result };
}
