//! What a command names in the lines of its answers.

ghost use Rattle.std.specs.Prelude.{◌≡◌};
ghost use Rattle.command_line.specs.Commands.{names_meaning, names_of as names_of_run, names_of_files as named_files, no_names as none, texts};
ghost use Rattle.arguments.specs.Meanings.{run_meaning};

use arguments::Run;

/// The arguments that name the main class and the files of a command.
#[derive(Clone, Copy)]
pub struct Names<'a> {
    pub main: &'a str,
    pub files: &'a [String],
}

/// The names of a run.
pub fn names_of(run: &Run) -> Names<'_>
    ensures { names_meaning result ≡ names_of_run (run_meaning run.now) }
{
    Names {
        main: run.main.as_str(),
        files: run.files.as_slice(),
    }
}

/// The names of a command that names these files and no main class.
pub fn names_of_files(files: &[String]) -> Names<'_>
    ensures { names_meaning result ≡ named_files (texts files.now) }
{
    Names { main: "", files }
}

/// The names of a command that names neither, or of an answer that names none.
pub fn no_names() -> Names<'static>
    ensures { names_meaning result ≡ none }
{
    Names {
        main: "",
        files: &[],
    }
}
