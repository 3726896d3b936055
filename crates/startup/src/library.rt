//! The classes of which the opening heap has objects.

ghost use Rattle.std.specs.Prelude.{◌≡◌, Some, IfOk};
ghost use Rattle.ref_model.specs.Opening.{words_class as class_of_words};
ghost use Rattle.link_soundness.specs.OpeningClasses.{HasOpeningClasses};
ghost use Rattle.startup.specs.FirstObjects as spec;

use items::NoMemory;
use link_model::ArrayType;
use link_tables::Tables;
use runtime_program::named;
use stack_maps::Base;
use std::alloc::Global;

/// The numbers of these classes.
#[derive(Clone, Copy)]
pub struct Library {
    pub error: u32,
    pub stream: u32,
    pub thread: u32,
    pub state: u32,
    pub words: u32,
}

// The number of String[].
fn words_class(program: &Tables) -> Option<u32>
    ensures { result ≡ class_of_words program.now }
{
    program.array_class(ArrayType {
        dimensions: 1,
        base: Base::Class(program.string()?),
    })
}

fn library_of(
    error: Option<u32>,
    stream: Option<u32>,
    thread: Option<u32>,
    state: Option<u32>,
    words: Option<u32>,
) -> Option<Library>
    ensures { result ≡ spec.library_of error stream thread state words }
{
    Some(Library {
        error: error?,
        stream: stream?,
        thread: thread?,
        state: state?,
        words: words?,
    })
}

/// These classes of a program.
pub(crate) fn library_in(alloc: Global, program: &Tables) -> Result<Library, NoMemory>
    requires { HasOpeningClasses program.now }
    ensures { IfOk result (λ l. spec.library program.now ≡ Some l) }
{
    let error = named(alloc, program, b"java/lang/OutOfMemoryError")?;
    let stream = named(alloc, program, b"java/io/PrintStream")?;
    let thread = named(alloc, program, b"java/lang/Thread")?;
    let state = named(alloc, program, b"java/lang/Thread$State")?;
    let words = words_class(program);
    match library_of(error, stream, thread, state, words) {
        Some(library) => Ok(library),
        None => unreachable!(),
    }
}
