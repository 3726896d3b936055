//! The files of a command, read as class files.

ghost use Rattle.std.specs.Prelude.{◌≤◌, All, length, IfOk, IfErr};
ghost use Rattle.std.specs.List.{AllZip};
ghost use Rattle.jvm_edges.specs.Causes.{Rose};
ghost use Rattle.lib_table.specs.Spelled.{IsSpelled};
ghost use Rattle.command_line.specs.Commands.{texts};
ghost use Rattle.input_files.specs.Errors.{loaded_answer};
ghost use Rattle.input_files.specs.LoadCauses.{IsRead};
ghost use Rattle.input_files.specs.StoreFaults.{StoreFaults};
ghost use Rattle.program_files.specs.Limits.{most_files};
ghost use Rattle.program_files.specs.LoadCauses.{IsStopped};

use class_model::ClassFile;
use input_files::{LoadError, read_class};
use jvm_edges::Store;
use std::alloc::Global;

/// Reads the files of these names, one after the other.
pub fn read_files<S: Store>(
    alloc: Global,
    names: &[String],
    store: &mut S,
) -> Result<Vec<ClassFile>, LoadError>
    requires { length names.now ≤ most_files }
    ensures found { IfOk result (λ classes.
        AllZip (IsRead (S.files store.old)) (texts names.now) classes.items) }
    ensures spelled { IfOk result (λ classes. All IsSpelled classes.items) }
    ensures stopped { IfErr result (IsStopped (S.files store.old)
        (Rose (S.faults store.old) (S.faults store.new)) (texts names.now)) }
    ensures faults { StoreFaults (loaded_answer result) (S.faults store.old) (S.faults store.new) }
{
    let mut classes = Vec::new(alloc);
    for (index, name) in names.iter().enumerate() {
        classes.push(read_class(alloc, index as u32, name.as_str(), store)?)?;
    }
    Ok(classes)
}
