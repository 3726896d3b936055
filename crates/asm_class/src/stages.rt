//! Which line may come next, and what it makes.

ghost use Rattle.std.specs.Prelude.{◌≡◌};
ghost use Rattle.asm_pool.specs.Places.{IsPool};
ghost use Rattle.asm_body.specs.Bodies.{at_line, or_line};
ghost use Rattle.asm_class.specs.States.{Steps, StepsOrNames, state_of};
ghost use Rattle.asm_class.specs.Stages as spec;

use crate::assembly::{Assembly, Stage};
use asm_body::BodyError;
use asm_text::{Line, LineError};
use items::Items;
use std::alloc::Global;

// The error of the line.
fn at_line(line: u32, error: LineError) -> BodyError
    ensures { result ≡ at_line line error }
{
    match error {
        LineError::Bad => BodyError::Bad { line },
        LineError::NoMemory => BodyError::NoMemory,
    }
}

impl Assembly {
    fn first(&mut self, alloc: Global, said: Line) -> Result<(), LineError>
        requires { IsPool self.old.pool }
        ensures { Steps result self.new (spec.first said (state_of self.old)) }
    {
        match said {
            Line::Class { flags, name } => self.class_line(alloc, &flags, &name),
            _ => Err(LineError::Bad),
        }
    }

    fn second(&mut self, alloc: Global, said: Line) -> Result<(), LineError>
        requires { IsPool self.old.pool }
        ensures { Steps result self.new (spec.second said (state_of self.old)) }
    {
        match said {
            Line::Super(name) => self.super_line(alloc, &name),
            _ => Err(LineError::Bad),
        }
    }

    // Behind the fields.
    fn method(&mut self, alloc: Global, said: Line) -> Result<(), LineError>
        requires { IsPool self.old.pool }
        ensures { Steps result self.new (spec.method said (state_of self.old)) }
    {
        match said {
            Line::Method {
                flags,
                name,
                descriptor,
            } => self.method_line(alloc, &flags, &name, &descriptor),
            _ => Err(LineError::Bad),
        }
    }

    // Behind the interfaces.
    fn field(&mut self, alloc: Global, said: Line) -> Result<(), LineError>
        requires { IsPool self.old.pool }
        ensures { Steps result self.new (spec.field said (state_of self.old)) }
    {
        match said {
            Line::Field {
                flags,
                name,
                descriptor,
            } => self.field_line(alloc, &flags, &name, &descriptor),
            other => self.method(alloc, other),
        }
    }

    // Behind the superclass.
    fn interface(&mut self, alloc: Global, said: Line) -> Result<(), LineError>
        requires { IsPool self.old.pool }
        ensures { Steps result self.new (spec.interface said (state_of self.old)) }
    {
        match said {
            Line::Implements(name) => self.implements_line(alloc, &name),
            other => self.field(alloc, other),
        }
    }

    fn no_code(&mut self, alloc: Global, said: Line) -> Result<(), LineError>
        requires { IsPool self.old.pool }
        ensures { Steps result self.new (spec.no_code said (state_of self.old)) }
    {
        match said {
            Line::End => {
                self.add_method(Items::new(alloc))?;
                Ok(())
            }
            _ => Err(LineError::Bad),
        }
    }

    fn sizes(&mut self, alloc: Global, said: Line) -> Result<(), LineError>
        requires { IsPool self.old.pool }
        ensures { Steps result self.new (spec.sizes said (state_of self.old)) }
    {
        match said {
            Line::Stack { stack, locals } => {
                self.stack_line(alloc, stack, locals);
                Ok(())
            }
            _ => Err(LineError::Bad),
        }
    }

    fn code(&mut self, alloc: Global, line: u32, said: Line) -> Result<(), LineError>
        requires { IsPool self.old.pool }
        ensures { Steps result self.new (spec.code line said (state_of self.old)) }
    {
        match said {
            Line::Label(label) => self.label_line(alloc, &label),
            Line::Frame { locals, stack } => self.frame_line(alloc, line, &locals, &stack),
            Line::Instruction { opcode, operands } => {
                self.instruction_line(alloc, line, opcode, operands)
            }
            Line::Catch {
                caught,
                from,
                to,
                using,
            } => self.catch_line(alloc, line, &caught, from, to, using),
            _ => Err(LineError::Bad),
        }
    }

    fn rows(&mut self, alloc: Global, line: u32, said: Line) -> Result<(), LineError>
        requires { IsPool self.old.pool }
        ensures { Steps result self.new (spec.rows line said (state_of self.old)) }
    {
        match said {
            Line::Catch {
                caught,
                from,
                to,
                using,
            } => self.catch_line(alloc, line, &caught, from, to, using),
            _ => Err(LineError::Bad),
        }
    }

    fn other_line(&mut self, alloc: Global, line: u32, said: Line) -> Result<(), LineError>
        requires { IsPool self.old.pool }
        ensures { Steps result self.new
            (spec.other_line self.old.stage line said (state_of self.old)) }
    {
        match self.stage {
            Stage::Class => self.first(alloc, said),
            Stage::Super => self.second(alloc, said),
            Stage::Interfaces => self.interface(alloc, said),
            Stage::Fields => self.field(alloc, said),
            Stage::Methods => self.method(alloc, said),
            Stage::NoCode => self.no_code(alloc, said),
            Stage::Stack => self.sizes(alloc, said),
            Stage::Code => self.code(alloc, line, said),
            Stage::Rows => self.rows(alloc, line, said),
        }
    }

    fn other_or_error(&mut self, alloc: Global, line: u32, said: Line) -> Result<(), BodyError>
        requires { IsPool self.old.pool }
        ensures { StepsOrNames result self.new
            (or_line line (spec.other_line self.old.stage line said (state_of self.old))) }
    {
        match self.other_line(alloc, line, said) {
            Ok(()) => Ok(()),
            Err(error) => Err(at_line(line, error)),
        }
    }

    fn end_line(&mut self, alloc: Global, line: u32) -> Result<(), BodyError>
        requires { IsPool self.old.pool }
        ensures { StepsOrNames result self.new
            (spec.end_line self.old.stage line (state_of self.old)) }
    {
        match self.stage {
            Stage::Code | Stage::Rows => self.code_end(alloc, line),
            _ => self.other_or_error(alloc, line, Line::End),
        }
    }

    /// The next line, which has this number. `Bad` names the first line that doesn't fit: this one, or at the end of a
    /// method one of its body.
    pub fn add_line(&mut self, alloc: Global, line: u32, said: Line) -> Result<(), BodyError>
        requires { IsPool self.old.pool }
        ensures { StepsOrNames result self.new (spec.after_line line said (state_of self.old)) }
    {
        match said {
            Line::Blank => Ok(()),
            Line::End => self.end_line(alloc, line),
            other => self.other_or_error(alloc, line, other),
        }
    }
}
