//! The numbers of the objects with which the heap of a program begins: the machine's own, and the first of the Strings after
//! them. `Strings.antt` has the same of Strings, and the opening state of the machine that of all.

/// The OutOfMemoryError that is thrown where there is no room for a new exception.
pub const OUT_OF_MEMORY: u32 = 0;

/// The stream `System.out`.
pub const OUT_STREAM: u32 = 1;

/// The stream `System.err`.
pub const ERR_STREAM: u32 = 2;

/// The first constant of `Thread.State`; the other five follow.
pub const FIRST_STATE: u32 = 4;

/// How many objects come before the first String.
pub const OBJECTS_BEFORE_STRINGS: u32 = 10;

/// The String that is the name of the main thread.
pub const MAIN_NAME: u32 = OBJECTS_BEFORE_STRINGS;

/// The String that is the name of the first constant of `Thread.State`; those of the others follow.
pub const FIRST_STATE_NAME: u32 = MAIN_NAME + 1;
