//! The answers to a command, and their exit statuses.

ghost use Rattle.std.specs.Prelude.{◌≡◌};
ghost use Rattle.jvm_words.specs.Words.{low_bits};

use class_grammar::ClassWhy;
use items::{Items, NoMemory};
use link_rules::LinkWhy;
use std::alloc::AllocError;
use verify_types::VerifyWhy;

/// The sink that failed.
#[derive(Clone, Copy)]
pub enum SinkName {
    Out,
    Err,
}

/// What has a limit.
#[derive(Clone, Copy)]
pub enum Which {
    /// The FILE arguments of a command.
    Files,
    /// The bytes of a file.
    FileSize,
    /// The threads that a program makes.
    Threads,
    /// The entries of the history.
    Events,
}

/// Why the call returned. `file` is the index of a file among the FILE arguments, from 0.
#[derive(Drop)]
pub enum Why {
    /// The program ran to its end.
    Ended,
    /// The same, and an exception that nothing caught ended the main thread (JLS 11.3).
    MainThrew,
    /// The program called `System.exit` with this status.
    Exited(i32),
    /// No thread can go on. `threads` are the live ones, by rising number.
    Stalled {
        threads: Items<u32>,
    },
    /// Each carrier keeps a pinned thread that can't go on, while another thread could. `threads` are those pinned threads, in the order of the
    /// carriers.
    Starved {
        threads: Items<u32>,
    },
    /// The arguments are no command.
    Usage,
    /// A limit is passed. `number` is the limit.
    Limit {
        which: Which,
        number: u32,
    },
    /// There is no such file.
    Missing {
        file: u32,
    },
    /// The store failed.
    SourceFault {
        file: u32,
    },
    /// The file is no class file. `at` is the offset in it of the first check that fails, in bytes.
    BadClass {
        file: u32,
        at: u32,
        why: ClassWhy,
    },
    /// The text is assembled to no class file. `line` is the first line that doesn't fit, counted from 1.
    BadText {
        line: u32,
    },
    /// No text is assembled to the class file.
    Unlisted {
        file: u32,
    },
    /// No file's class is the main class with a `main` (JLS 12.1.4).
    NoMain,
    /// The class of this name does not link (JVMS 5.3, 5.4), or it does what the machine has no step for.
    LinkFault {
        class: Items<u16>,
        why: LinkWhy,
    },
    /// The code isn't well typed (JVMS 4.10.1). `pc` is the first place where it isn't, in the method of this name and descriptor of this class.
    VerifyFault {
        class: Items<u16>,
        method: Items<u16>,
        pc: u32,
        why: VerifyWhy,
    },
    /// The sink failed. `written` is how many bytes it had taken of what the program wrote to it.
    SinkFault {
        which: SinkName,
        written: u64,
    },
    /// Memory ran out.
    NoMemory,
}

// The low eight bits of a status.
fn low_byte(status: i32) -> u8
    ensures { result ≡ low_bits 8 status }
{
    status.rem_euclid(256) as u8
}

impl Why {
    ghost use Rattle.command_line.specs.Answers.{status_of};

    /// The exit status. Every case is listed, so that a new answer gets a status of its own.
    pub fn status(&self) -> u8
        ensures { result ≡ status_of self.now }
    {
        match self {
            Why::Ended => 0,
            Why::MainThrew => 1,
            Why::Exited(status) => low_byte(*status),
            Why::Usage => 64,
            Why::BadClass { .. } => 65,
            Why::Missing { .. } => 66,
            Why::SourceFault { .. } => 67,
            Why::LinkFault { .. } => 68,
            Why::VerifyFault { .. } => 69,
            Why::NoMain => 70,
            Why::Limit { .. } => 71,
            Why::Stalled { .. } => 72,
            Why::Starved { .. } => 73,
            Why::SinkFault { .. } => 74,
            Why::NoMemory => 75,
            Why::BadText { .. } => 76,
            Why::Unlisted { .. } => 79,
        }
    }
}

impl From<AllocError> for Why {
    ghost use Rattle.command_line.specs.declared.answer.Why.TheVariants as whys;

    ghost from_gives = { λ _ e. e ≡ whys.NoMemory };

    fn from(_: AllocError) -> Self {
        Why::NoMemory
    }
}

impl From<NoMemory> for Why {
    ghost use Rattle.command_line.specs.declared.answer.Why.TheVariants as whys;

    ghost from_gives = { λ _ e. e ≡ whys.NoMemory };

    fn from(_: NoMemory) -> Self {
        Why::NoMemory
    }
}
