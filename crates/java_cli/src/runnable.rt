//! The program of a command, from its files.

ghost use Rattle.std.specs.Prelude.{◌≡◌, IfOk, IfErr};
ghost use Rattle.jvm_edges.specs.Causes.{Rose};
ghost use Rattle.arguments.specs.Meanings.{run_meaning};
ghost use Rattle.java_cli.specs.Causes.{IsExact, IsRefusal};
ghost use Rattle.input_files.specs.StoreFaults.{StoreFaults};
ghost use Rattle.java_cli.specs.Runs.{HasRead, IsRunDue};

use class_world::World;
use command_line::{Run, Which, Why};
use jvm_edges::Store;
use program_files::{accept_files, read_files, start};
use std::alloc::Global;
use verify_code::Checked;

/// The most FILE arguments of a command.
const MOST_FILES: u32 = 256;

/// A program that can be run: its classes, and the number of its main method.
#[derive(Drop)]
pub struct Runnable {
    pub checked: Checked<World>,
    pub main: u32,
}

/// The program that the files of a run are, or why it can't be run.
pub fn read_program<S: Store>(alloc: Global, run: &Run, store: &mut S) -> Result<Runnable, Why>
    ensures read { IfOk result (HasRead (S.files store.old) (run_meaning run.now)) }
    ensures due { IfOk result (λ x. IsRunDue (S.files store.old) (run_meaning run.now)) }
    ensures kept { IfOk result (λ x. S.faults store.new ≡ S.faults store.old) }
    ensures refusal { IfErr result IsRefusal }
    ensures exact { IfErr result (IsExact (S.files store.old)
        (Rose (S.faults store.old) (S.faults store.new)) (run_meaning run.now)) }
    ensures faults { IfErr result (λ why.
        StoreFaults why (S.faults store.old) (S.faults store.new)) }
{
    let files = run.files.as_slice();
    if files.len() > MOST_FILES as usize {
        return Err(Why::Limit {
            which: Which::Files,
            number: MOST_FILES,
        });
    }
    let classes = read_files(alloc, files, store)?;
    let checked = accept_files(alloc, classes)?;
    let main = start(alloc, run.main.as_str(), checked.world())?;
    Ok(Runnable { checked, main })
}
