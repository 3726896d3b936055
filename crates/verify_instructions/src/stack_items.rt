//! The instructions that move items of the operand stack, none of which splits a long (JVMS 6.5: pop to swap).

ghost use Rattle.std.specs.Prelude.{◌≡◌, [], ◌∷◌, ◌++◌, Err, OnOk, OnErr};
ghost use Rattle.instruction_rows.specs.StackItems.{one, two};
ghost use Rattle.instruction_rows.specs.Rows as rows;
ghost use Rattle.instruction_rows.specs.TypeEffect as spec;
ghost use Rattle.verify_instructions.specs.Answers.{Gives, Leaves, Takes};

use crate::stop::Stop;
use crate::types::Types;
use instruction_rows::{RowWhy, is_narrow, is_wide};
use stack_maps::VType;

impl Types {
    // Takes a value in one slot.
    fn take_one(&mut self) -> Result<VType, Stop>
        ensures taken { Takes result self.new.stack (spec.narrow_popped self.old.stack) }
        ensures locals { self.new.locals ≡ self.old.locals }
    {
        let Some(t) = self.pop_slot() else {
            return Err(Stop::Broken(RowWhy::Depth));
        };
        if is_narrow(t) {
            Ok(t)
        } else {
            Err(Stop::Broken(RowWhy::Kind))
        }
    }

    // Takes two values of one slot, or one of two; the upper slot comes first.
    fn take_two(&mut self) -> Result<(VType, VType), Stop>
        ensures taken { Gives result (λ x. (x.0 ∷ x.1 ∷ [], self.new.stack))
            (spec.item_popped two self.old.stack) }
        ensures locals { self.new.locals ≡ self.old.locals }
    {
        let Some(upper) = self.pop_slot() else {
            return Err(Stop::Broken(RowWhy::Depth));
        };
        match upper {
            VType::Top => {
                let Some(lower) = self.pop_slot() else {
                    return Err(Stop::Broken(RowWhy::Kind));
                };
                if is_wide(lower) {
                    Ok((upper, lower))
                } else {
                    Err(Stop::Broken(RowWhy::Kind))
                }
            }
            VType::Long | VType::Double => Err(Stop::Broken(RowWhy::Kind)),
            _ => {
                let lower = self.take_one()?;
                Ok((upper, lower))
            }
        }
    }

    // Pushes two slots, the upper one given first.
    fn push_two(&mut self, item: (VType, VType)) -> Result<(), Stop>
        ensures pushed { OnOk result (self.new.stack ≡ item.0 ∷ item.1 ∷ self.old.stack) }
        ensures locals { self.new.locals ≡ self.old.locals }
        ensures full { OnErr result (result ≡ Err Stop.NoMemory) }
    {
        self.push_slot(item.1)?;
        self.push_slot(item.0)
    }

    /// pop.
    pub fn pop_one(&mut self) -> Result<(), Stop>
        ensures { Leaves result self.new
            (spec.typed (rows.moves (one ∷ []) []) self.old) }
    {
        self.take_one()?;
        Ok(())
    }

    /// pop2.
    pub fn pop_two(&mut self) -> Result<(), Stop>
        ensures { Leaves result self.new
            (spec.typed (rows.moves (two ∷ []) []) self.old) }
    {
        self.take_two()?;
        Ok(())
    }

    /// dup.
    pub fn dup(&mut self) -> Result<(), Stop>
        ensures { Leaves result self.new
            (spec.typed (rows.moves (one ∷ []) (0 ∷ 0 ∷ [])) self.old) }
    {
        let top = self.take_one()?;
        self.push_slot(top)?;
        self.push_slot(top)
    }

    /// dup_x1.
    pub fn dup_x1(&mut self) -> Result<(), Stop>
        ensures { Leaves result self.new
            (spec.typed (rows.moves (one ∷ one ∷ []) (0 ∷ 1 ∷ 0 ∷ [])) self.old) }
    {
        let top = self.take_one()?;
        let next = self.take_one()?;
        self.push_slot(top)?;
        self.push_slot(next)?;
        self.push_slot(top)
    }

    /// dup_x2.
    pub fn dup_x2(&mut self) -> Result<(), Stop>
        ensures { Leaves result self.new
            (spec.typed (rows.moves (one ∷ two ∷ []) (0 ∷ 1 ∷ 0 ∷ [])) self.old) }
    {
        let top = self.take_one()?;
        let next = self.take_two()?;
        self.push_slot(top)?;
        self.push_two(next)?;
        self.push_slot(top)
    }

    /// dup2.
    pub fn dup2(&mut self) -> Result<(), Stop>
        ensures { Leaves result self.new
            (spec.typed (rows.moves (two ∷ []) (0 ∷ 0 ∷ [])) self.old) }
    {
        let top = self.take_two()?;
        self.push_two(top)?;
        self.push_two(top)
    }

    /// dup2_x1.
    pub fn dup2_x1(&mut self) -> Result<(), Stop>
        ensures { Leaves result self.new
            (spec.typed (rows.moves (two ∷ one ∷ []) (0 ∷ 1 ∷ 0 ∷ [])) self.old) }
    {
        let top = self.take_two()?;
        let next = self.take_one()?;
        self.push_two(top)?;
        self.push_slot(next)?;
        self.push_two(top)
    }

    /// dup2_x2.
    pub fn dup2_x2(&mut self) -> Result<(), Stop>
        ensures { Leaves result self.new
            (spec.typed (rows.moves (two ∷ two ∷ []) (0 ∷ 1 ∷ 0 ∷ [])) self.old) }
    {
        let top = self.take_two()?;
        let next = self.take_two()?;
        self.push_two(top)?;
        self.push_two(next)?;
        self.push_two(top)
    }

    /// swap.
    pub fn swap(&mut self) -> Result<(), Stop>
        ensures { Leaves result self.new
            (spec.typed (rows.moves (one ∷ one ∷ []) (1 ∷ 0 ∷ [])) self.old) }
    {
        let top = self.take_one()?;
        let next = self.take_one()?;
        self.push_slot(top)?;
        self.push_slot(next)
    }
}
