//! From class files to the main method that runs.

ghost use Rattle.std.specs.Prelude.{◌≡◌, All, List, IfOk, IfErr, IfSome};
ghost use Rattle.class_model.specs.declared.class_file.ClassFile as class_files;
ghost use Rattle.link_model.specs.MainMethod.{main_of as main_of_world};
ghost use Rattle.link_model.specs.Worlds.{world_of};
ghost use Rattle.step_soundness.specs.OpeningLaws.{IsMain};
ghost use Rattle.lib_table.specs.Spelled.{IsSpelled};
ghost use Rattle.link_soundness.specs.Library.{HasLibrary};
ghost use Rattle.verify_types.specs.Faults.{IsWellTyped};
ghost use Rattle.program_files.specs.Linking.{built_in, program_of, AreAccepted};
ghost use Rattle.program_files.specs.Errors.{verify_fault};
ghost use Rattle.program_files.specs.MainClass.{class_named as class_named_by};
ghost use Rattle.program_files.specs.LinkCauses.{NotAccepted, NotStarted, NotTyped};
ghost use Rattle.program_files.specs.Programs.{IsStarted, world_of_files};

use crate::errors::{AcceptError, StartError};
use crate::fault_names::{class_text, method_text};
use crate::main_class::class_named;
use class_model::ClassFile;
use class_world::{World, link};
use items::{Items, NoMemory};
use lib_table::classes;
use std::alloc::{AllocError, Global};
use step_soundness::linked_worlds_open;
use verify_code::{Checked, VerifyError, accept};
use verify_types::VerifyFault;

/// Links the classes of files with the built-in classes, and types their code (JVMS 5.3, 5.4, 4.10.1).
pub fn accept_files(alloc: Global, files: Vec<ClassFile>) -> Result<Checked<World>, AcceptError>
    requires { All IsSpelled files.items }
    ensures accepted { IfOk result (λ checked. AreAccepted files.items) }
    ensures world { IfOk result (λ checked. checked ≡ world_of_files files.items) }
    ensures program { IfOk result (λ checked. checked.program ≡ program_of files.items) }
    ensures library { IfOk result (λ checked. HasLibrary checked.program) }
    ensures refused { IfErr result (NotAccepted files.items) }
{
    let library = built_in_classes(alloc)?;
    let world = link(alloc, library, files)?;
    accept_world(alloc, world)
}

// Types the code of a world.
fn accept_world(alloc: Global, world: World) -> Result<Checked<World>, AcceptError>
    ensures found { IfOk result (λ checked. checked ≡ world_of world) }
    ensures typed { IfOk result IsWellTyped }
    ensures refused { IfErr result (NotTyped world) }
{
    match accept(alloc, world) {
        Ok(checked) => Ok(checked),
        Err(VerifyError::Fault { fault, world }) => Err(named(alloc, &world, fault)?),
        Err(VerifyError::NoMemory) => Err(AcceptError::NoMemory),
    }
}

// A fault of typing, with the names of the class and of the method.
fn named(alloc: Global, world: &World, fault: VerifyFault) -> Result<AcceptError, AllocError>
    ensures { IfOk result (λ error. error ≡ verify_fault world.now fault) }
{
    let class = Items::from(class_text(alloc, world, fault.class)?);
    let method = Items::from(method_text(alloc, world.classes(), fault.method)?);
    Ok(AcceptError::VerifyFault {
        class,
        method,
        pc: fault.pc,
        why: fault.why,
    })
}

// The built-in classes. The contract names them without their text.
fn built_in_classes(alloc: Global) -> Result<Vec<ClassFile>, NoMemory>
    ensures { IfOk result (λ library. library.items ≡ built_in) }
{
    classes(alloc)
}

/// The number of main, where it is to be in the class that the argument names (JLS 12.1.4).
pub fn start(alloc: Global, main: &str, world: &World) -> Result<u32, StartError>
    ensures started { IfOk result (λ n. (classes : List class_files.ClassFile)
        → world.now ≡ program_of classes → IsStarted (class_named_by main.now) classes n) }
    ensures main { IfOk result (IsMain (world_of world.now)) }
    ensures refused { IfErr result (λ error. (classes : List class_files.ClassFile)
        → world.now ≡ program_of classes → NotStarted (class_named_by main.now) classes error) }
{
    let name = class_named(alloc, main)?;
    match main_of(world, &name) {
        Some(number) => Ok(number),
        None => Err(StartError::NoMain),
    }
}

// The number of the main method of the class of this name.
fn main_of(world: &World, name: &[u16]) -> Option<u32>
    ensures found { result ≡ main_of_world (world_of world.now) name.now }
    ensures main { IfSome result (IsMain (world_of world.now)) }
{
    linked_worlds_open();
    world.main_of(name)
}
