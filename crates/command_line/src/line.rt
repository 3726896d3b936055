//! The line that an answer writes to the error output.

ghost use Rattle.std.specs.Prelude.{◌≡◌, ◌++◌, IfOk, OnErr, OnOk};
ghost use Rattle.std.specs.List.{flat_map};
ghost use Rattle.command_line.specs.Answers as spec;
ghost use Rattle.command_line.specs.Answers.{line_of, line_with, limit_line, after_space, bad_class_line, bad_text_line, link_line, verify_line, NamesSomething, class_why_name as class_why_name_of, link_why_name as link_why_name_of, verify_why_name as verify_why_name_of, which_name as which_name_of, file_name as file_name_of};
ghost use Rattle.command_line.specs.Commands.{names_meaning};
ghost use Rattle.command_line.specs.Lines.{bytes_of};

use crate::answer::{Which, Why};
use crate::names::Names;
use crate::utf8::utf8;
use class_grammar::ClassWhy;
use itoa::Buffer;
use link_rules::LinkWhy;
use std::alloc::{AllocError, Global};
use verify_types::VerifyWhy;

/// The line of `Why::Usage`.
pub const USAGE: &[u8] = b"jvt: usage\n";

/// The line of `Why::SinkFault`.
pub const CANNOT_WRITE: &[u8] = b"jvt: cannot write\n";

/// The line of `Why::NoMemory`.
pub const NO_MEMORY: &[u8] = b"jvt: no memory\n";

/// A line for the error output.
#[derive(Drop)]
pub enum Line {
    /// A line that is the same for each command.
    Fixed(&'static [u8]),
    /// A line that names something.
    Made(Vec<u8>),
}

impl Line {
    /// The bytes of the line.
    pub fn as_slice(&self) -> &[u8]
        ensures { result.now ≡ bytes_of self.now }
    {
        match self {
            Line::Fixed(bytes) => bytes,
            Line::Made(bytes) => bytes.as_slice(),
        }
    }
}

/// The line that an answer to a command with these names writes, with LF. Every case is listed, so that a new answer gets a line of its own.
pub fn make_line(alloc: Global, why: &Why, names: Names) -> Result<Line, AllocError>
    ensures line { IfOk result (λ line.
        bytes_of line ≡ line_of (names_meaning names.entry) why.now) }
    ensures memory { OnErr result (NamesSomething why.now) }
{
    let bytes = match why {
        Why::Ended | Why::MainThrew | Why::Exited(_) => return Ok(Line::Fixed(b"")),
        Why::Usage => return Ok(Line::Fixed(USAGE)),
        Why::SinkFault { .. } => return Ok(Line::Fixed(CANNOT_WRITE)),
        Why::NoMemory => return Ok(Line::Fixed(NO_MEMORY)),
        Why::Limit { which, number } => limit(alloc, *which, *number)?,
        Why::Stalled { threads } => threads_line(
            alloc,
            b"jvt: stalled: threads",
            threads.as_slice(),
        )?,
        Why::Starved { threads } => threads_line(
            alloc,
            b"jvt: starved: pinned threads",
            threads.as_slice(),
        )?,
        Why::Missing { file } => line_with_name(alloc, b"jvt: missing ", file_name(names, *file))?,
        Why::SourceFault { file } => line_with_name(
            alloc,
            b"jvt: cannot read ",
            file_name(names, *file),
        )?,
        Why::BadClass { file, at, why } => bad_class(alloc, file_name(names, *file), *at, *why)?,
        Why::BadText { line } => bad_text(alloc, *line)?,
        Why::Unlisted { file } => line_with_name(
            alloc,
            b"jvt: cannot list ",
            file_name(names, *file),
        )?,
        Why::NoMain => line_with_name(alloc, b"jvt: no main in ", names.main)?,
        Why::LinkFault { class, why } => link(alloc, class.as_slice(), *why)?,
        Why::VerifyFault {
            class,
            method,
            pc,
            why,
        } => verify(alloc, class.as_slice(), method.as_slice(), *pc, *why)?,
    };
    Ok(Line::Made(bytes))
}

// The argument that names the file of this index.
fn file_name<'a>(names: Names<'a>, file: u32) -> &'a str
    ensures { result.now ≡ file_name_of (names_meaning names.entry) file }
{
    match names.files.get(file as usize) {
        Some(name) => name.as_str(),
        None => "",
    }
}

fn line_with_name(alloc: Global, text: &[u8], name: &str) -> Result<Vec<u8>, AllocError>
    ensures { IfOk result (λ line. line.items ≡ line_with text.now name.now) }
{
    let mut line = Vec::from_slice(alloc, text)?;
    line.extend_from_slice(name.as_bytes())?;
    line.push(b'\n')?;
    Ok(line)
}

fn limit(alloc: Global, which: Which, number: u32) -> Result<Vec<u8>, AllocError>
    ensures { IfOk result (λ line. line.items ≡ limit_line which number) }
{
    let mut buffer = Buffer::new();
    let mut line = Vec::from_slice(alloc, b"jvt: limit ")?;
    line.extend_from_slice(which_name(which))?;
    line.extend_from_slice(b" ")?;
    line.extend_from_slice(buffer.format(number).as_bytes())?;
    line.push(b'\n')?;
    Ok(line)
}

// Adds a space and a number.
fn push_number(line: &mut Vec<u8>, number: u32) -> Result<(), AllocError>
    ensures { OnOk result (line.new.items ≡ line.old.items ++ after_space number) }
{
    let mut buffer = Buffer::new();
    line.extend_from_slice(b" ")?;
    line.extend_from_slice(buffer.format(number).as_bytes())
}

// Adds each number after a space.
fn push_numbers(line: &mut Vec<u8>, numbers: &[u32]) -> Result<(), AllocError>
    ensures { OnOk result (line.new.items ≡ line.old.items ++ flat_map after_space numbers.now) }
{
    for number in numbers {
        push_number(line, *number)?;
    }
    Ok(())
}

// A text, and after it the number of each thread.
fn threads_line(alloc: Global, text: &[u8], threads: &[u32]) -> Result<Vec<u8>, AllocError>
    ensures { IfOk result (λ line. line.items ≡ spec.threads_line text.now threads.now) }
{
    let mut line = Vec::from_slice(alloc, text)?;
    push_numbers(&mut line, threads)?;
    line.push(b'\n')?;
    Ok(line)
}

fn bad_class(alloc: Global, file: &str, at: u32, why: ClassWhy) -> Result<Vec<u8>, AllocError>
    ensures { IfOk result (λ line. line.items ≡ bad_class_line file.now at why) }
{
    let mut buffer = Buffer::new();
    let mut line = Vec::from_slice(alloc, b"jvt: bad class ")?;
    line.extend_from_slice(file.as_bytes())?;
    line.extend_from_slice(b" at ")?;
    line.extend_from_slice(buffer.format(at).as_bytes())?;
    line.extend_from_slice(b": ")?;
    line.extend_from_slice(class_why_name(why))?;
    line.push(b'\n')?;
    Ok(line)
}

fn bad_text(alloc: Global, at: u32) -> Result<Vec<u8>, AllocError>
    ensures { IfOk result (λ line. line.items ≡ bad_text_line at) }
{
    let mut buffer = Buffer::new();
    let mut line = Vec::from_slice(alloc, b"jvt: bad text at line ")?;
    line.extend_from_slice(buffer.format(at).as_bytes())?;
    line.push(b'\n')?;
    Ok(line)
}

fn link(alloc: Global, class: &[u16], why: LinkWhy) -> Result<Vec<u8>, AllocError>
    ensures { IfOk result (λ line. line.items ≡ link_line class.now why) }
{
    let name = utf8(alloc, class)?;
    let mut line = Vec::from_slice(alloc, b"jvt: link ")?;
    line.extend_from_slice(name.as_bytes())?;
    line.extend_from_slice(b": ")?;
    line.extend_from_slice(link_why_name(why))?;
    line.push(b'\n')?;
    Ok(line)
}

fn verify(
    alloc: Global,
    class: &[u16],
    method: &[u16],
    pc: u32,
    why: VerifyWhy,
) -> Result<Vec<u8>, AllocError>
    ensures { IfOk result (λ line. line.items ≡ verify_line class.now method.now pc why) }
{
    let class = utf8(alloc, class)?;
    let method = utf8(alloc, method)?;
    let mut buffer = Buffer::new();
    let mut line = Vec::from_slice(alloc, b"jvt: verify ")?;
    line.extend_from_slice(class.as_bytes())?;
    line.extend_from_slice(b".")?;
    line.extend_from_slice(method.as_bytes())?;
    line.extend_from_slice(b" at ")?;
    line.extend_from_slice(buffer.format(pc).as_bytes())?;
    line.extend_from_slice(b": ")?;
    line.extend_from_slice(verify_why_name(why))?;
    line.push(b'\n')?;
    Ok(line)
}

fn which_name(which: Which) -> &'static [u8]
    ensures { result.now ≡ which_name_of which }
{
    match which {
        Which::Files => b"Files",
        Which::FileSize => b"FileSize",
        Which::Threads => b"Threads",
        Which::Events => b"Events",
    }
}

fn link_why_name(why: LinkWhy) -> &'static [u8]
    ensures { result.now ≡ link_why_name_of why }
{
    match why {
        LinkWhy::Duplicate => b"Duplicate",
        LinkWhy::MissingClass => b"MissingClass",
        LinkWhy::Cycle => b"Cycle",
        LinkWhy::WrongKind => b"WrongKind",
        LinkWhy::FinalParent => b"FinalParent",
        LinkWhy::Native => b"Native",
        LinkWhy::BadCode => b"BadCode",
        LinkWhy::MissingField => b"MissingField",
        LinkWhy::MissingMethod => b"MissingMethod",
        LinkWhy::Unsupported => b"Unsupported",
    }
}

fn verify_why_name(why: VerifyWhy) -> &'static [u8]
    ensures { result.now ≡ verify_why_name_of why }
{
    match why {
        VerifyWhy::Map => b"Map",
        VerifyWhy::Target => b"Target",
        VerifyWhy::Frame => b"Frame",
        VerifyWhy::Kind => b"Kind",
        VerifyWhy::Depth => b"Depth",
        VerifyWhy::Locals => b"Locals",
        VerifyWhy::Handler => b"Handler",
        VerifyWhy::Return => b"Return",
        VerifyWhy::Init => b"Init",
        VerifyWhy::End => b"End",
    }
}

fn class_why_name(why: ClassWhy) -> &'static [u8]
    ensures { result.now ≡ class_why_name_of why }
{
    match why {
        ClassWhy::Short => b"Short",
        ClassWhy::Magic => b"Magic",
        ClassWhy::Version => b"Version",
        ClassWhy::Count => b"Count",
        ClassWhy::Tag => b"Tag",
        ClassWhy::Utf8 => b"Utf8",
        ClassWhy::Index => b"Index",
        ClassWhy::Length => b"Length",
        ClassWhy::Duplicate => b"Duplicate",
        ClassWhy::Trailing => b"Trailing",
        ClassWhy::Name => b"Name",
        ClassWhy::Descriptor => b"Descriptor",
        ClassWhy::Code => b"Code",
        ClassWhy::Range => b"Range",
        ClassWhy::Unsupported => b"Unsupported",
    }
}
