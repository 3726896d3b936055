//! The constants that lines name.

ghost use Rattle.std.specs.Prelude.{◌≡◌, codes};
ghost use Rattle.asm_pool.specs.Mentions as pools;
ghost use Rattle.asm_pool.specs.Places.{IsPool};
ghost use Rattle.asm_body.specs.FrameTypes.{GivesPooled};
ghost use Rattle.asm_body.specs.Mentions.{line_error};
ghost use Rattle.asm_class.specs.Names as spec;
ghost use Rattle.asm_class.specs.BodyLines as lines;
ghost use Rattle.asm_class.specs.ClassLines as class_lines;

use crate::flags::has_no_code;
use crate::names::is_class_text;
use asm_pool::{Pool, PoolError};
use asm_text::{LineError, Name};
use std::alloc::Global;

// The error of the line: there is no room for its constant.
fn line_error(error: PoolError) -> LineError
    ensures { result ≡ line_error error }
{
    match error {
        PoolError::Full => LineError::Bad,
        PoolError::NoMemory => LineError::NoMemory,
    }
}

/// The index of a text.
pub fn text_at(pool: &mut Pool, text: &[u8]) -> Result<u16, LineError>
    requires { IsPool pool.old }
    ensures { GivesPooled result pool.new (pools.text text.now pool.old.entries) }
{
    match pool.text(text) {
        Ok(index) => Ok(index),
        Err(error) => Err(line_error(error)),
    }
}

fn class_index(pool: &mut Pool, name: &[u8]) -> Result<u16, LineError>
    requires { IsPool pool.old }
    ensures { GivesPooled result pool.new (pools.class name.now pool.old.entries) }
{
    match pool.class(name) {
        Ok(index) => Ok(index),
        Err(error) => Err(line_error(error)),
    }
}

/// The index of a class, whose name is one.
pub fn class_at(alloc: Global, pool: &mut Pool, name: &[u8]) -> Result<u16, LineError>
    requires { IsPool pool.old }
    ensures { GivesPooled result pool.new (spec.class_at name.now pool.old.entries) }
{
    if !is_class_text(alloc, name)? {
        return Err(LineError::Bad);
    }
    class_index(pool, name)
}

/// The indexes of a name and a descriptor.
pub fn names_at(pool: &mut Pool, name: &[u8], descriptor: &[u8]) -> Result<(u16, u16), LineError>
    requires { IsPool pool.old }
    ensures { GivesPooled result pool.new (spec.names_at name.now descriptor.now pool.old.entries) }
{
    let name = text_at(pool, name)?;
    let descriptor = text_at(pool, descriptor)?;
    Ok((name, descriptor))
}

/// The index of the class that is caught, or 0 for every throwable.
pub fn caught_at(alloc: Global, pool: &mut Pool, caught: &Option<Name>) -> Result<u16, LineError>
    requires { IsPool pool.old }
    ensures { GivesPooled result pool.new (lines.caught_at caught.now pool.old.entries) }
{
    match caught {
        Some(name) => class_at(alloc, pool, name),
        None => Ok(0),
    }
}

/// The index of the name of a method's code, or 0 where it has none by its flags.
pub fn code_at(pool: &mut Pool, flags: u16) -> Result<u16, LineError>
    requires { IsPool pool.old }
    ensures { GivesPooled result pool.new (class_lines.code_at flags pool.old.entries) }
{
    if has_no_code(flags) {
        return Ok(0);
    }
    text_at(pool, b"Code")
}
