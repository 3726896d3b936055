//! What the lines so far have made.

ghost use Rattle.std.specs.Prelude.{◌≡◌, [], IfOk};
ghost use Rattle.asm_pool.specs.Places.{IsPool};
ghost use Rattle.asm_class.specs.BodyLines.{new_body};
ghost use Rattle.asm_class.specs.States.{state_of};
ghost use Rattle.asm_class.specs.Ends as ends;

use asm_body::{Instructions, PlacedFrame, PlacedRow};
use asm_code::Labels;
use asm_pool::Pool;
use class_model::{ClassFile, Const, Member};
use items::Items;
use std::alloc::{AllocError, Global};

/// Which line may come next.
#[derive(Clone, Copy)]
pub enum Stage {
    /// The line of the class.
    Class,
    /// The superclass.
    Super,
    /// An interface, a field or a method.
    Interfaces,
    /// A field or a method.
    Fields,
    /// A method.
    Methods,
    /// The end of a method without code.
    NoCode,
    /// The sizes of a method's frame.
    Stack,
    /// A line of the code, a row of the exception table or the end of the method.
    Code,
    /// A row of the exception table or the end of the method.
    Rows,
}

/// The parts of the class (JVMS 4.1). Numbers are indexes of the constant pool.
#[derive(Drop)]
pub struct ClassParts {
    pub flags: u16,
    pub own: u16,
    pub parent: u16,
    pub interfaces: Items<u16>,
    pub fields: Items<Member>,
    pub methods: Items<Member>,
}

/// The method of the last `method` line (JVMS 4.6). `code` is the index of the name of its attribute, or 0 where it has
/// no code.
#[derive(Clone, Copy)]
pub struct MethodParts {
    pub flags: u16,
    pub name: u16,
    pub descriptor: u16,
    pub code: u16,
}

/// The body of a method (JVMS 4.7.3).
#[derive(Drop)]
pub struct BodyParts {
    pub max_stack: u16,
    pub max_locals: u16,
    pub instructions: Instructions,
    /// The index of the name of the stack map, where there are frames.
    pub map_name: u16,
    pub frames: Items<PlacedFrame>,
    /// The last frame has no instruction yet.
    pub frame_waits: bool,
    pub rows: Items<PlacedRow>,
}

/// What the lines so far have made. After an error it is of no use.
#[derive(Drop)]
pub struct Assembly {
    pub stage: Stage,
    pub pool: Pool,
    pub class: ClassParts,
    pub method: MethodParts,
    pub body: BodyParts,
    pub labels: Labels,
}

impl BodyParts {
    /// A body without lines. This takes no memory.
    pub fn new(alloc: Global, max_stack: u16, max_locals: u16) -> Self
        ensures { result ≡ new_body max_stack max_locals }
    {
        BodyParts {
            max_stack,
            max_locals,
            instructions: Instructions::new(alloc),
            map_name: 0,
            frames: Items::new(alloc),
            frame_waits: false,
            rows: Items::new(alloc),
        }
    }
}

impl ClassParts {
    fn new(alloc: Global) -> Self
        ensures { result ≡ ends.no_class }
    {
        ClassParts {
            flags: 0,
            own: 0,
            parent: 0,
            interfaces: Items::new(alloc),
            fields: Items::new(alloc),
            methods: Items::new(alloc),
        }
    }
}

impl Assembly {
    /// Before the first line.
    pub fn new(alloc: Global) -> Result<Self, AllocError>
        ensures { IfOk result (λ a. (state_of a ≡ ends.start) × IsPool a.pool) }
    {
        let pool = Pool::new(alloc)?;
        Ok(Assembly {
            stage: Stage::Class,
            pool,
            class: ClassParts::new(alloc),
            method: MethodParts {
                flags: 0,
                name: 0,
                descriptor: 0,
                code: 0,
            },
            body: BodyParts::new(alloc, 0, 0),
            labels: Labels::new(alloc),
        })
    }

    /// The class file. `None`: a line is missing.
    pub fn finish(self, alloc: Global) -> Option<ClassFile>
        ensures { result ≡ ends.finished (state_of self) }
    {
        if !is_whole(self.stage) {
            return None;
        }
        let Assembly { pool, class, .. } = self;
        let Pool { entries, .. } = pool;
        Some(file_of(alloc, entries, class))
    }
}

fn is_whole(stage: Stage) -> bool
    ensures { result ≡ ends.is_whole stage }
{
    match stage {
        Stage::Interfaces | Stage::Fields | Stage::Methods => true,
        _ => false,
    }
}

// The class file of these parts, in version 61.0 (Java 17).
fn file_of(alloc: Global, pool: Items<Const>, class: ClassParts) -> ClassFile
    ensures { result ≡ ends.file_with pool class }
{
    let ClassParts {
        flags,
        own,
        parent,
        interfaces,
        fields,
        methods,
    } = class;
    ClassFile {
        minor: 0,
        major: 61,
        pool,
        flags,
        own,
        parent,
        interfaces,
        fields,
        methods,
        attributes: Items::new(alloc),
    }
}
