//! Where the state after an instruction goes (JVMS 4.10.1.9), compared with the frames of the stack map there.

ghost use Rattle.std.specs.Prelude.{◌≡◌, ◌&&◌, ◌||◌, IfOk, MatchBool};
ghost use Rattle.instruction_rows.specs.Table.{row};
ghost use Rattle.verify_types.specs.Faults.{fits_next};
ghost use Rattle.verify_types.specs.TypeStates.{TypeState};
ghost use Rattle.verify_frames.specs.KnownStates.{AllFit, FitsBut, FitsLocals, Holds, MayBeLike, MayFit, type_state};
ghost use Rattle.verify_code.specs.Walks.{goes_to};

use crate::environment::Environment;
use crate::switches::branch_target;
use crate::targets::pc_of;
use items::{Boxed, NoMemory};
use link_model::Lookups;
use opcodes::{Instr, Op};
use std::alloc::Global;
use verify_frames::{Fitted, KnownState, Like, are_assignable};

// With fewer local variables, a comparison costs less than it saves to know more of a state.
const MANY: u16 = 64;

/// The state after an instruction, and whether it fits where it goes.
#[derive(Drop)]
pub struct Compared {
    pub known: KnownState,
    pub fits: bool,
}

impl<'a, L: Lookups> Environment<'a, L> {
    // What a state is like, if it can be, by the frame of the stack map at a pc.
    fn near_like(
        &self,
        alloc: Global,
        like: Option<Like>,
        pc: u32,
    ) -> Result<Option<Like>, NoMemory>
        ensures { IfOk result (λ o. (s : TypeState) →
            MayBeLike self.now like s → MayBeLike self.now o s) }
    {
        let Some(like) = like else {
            return Ok(None);
        };
        let found = self.frames.near(alloc, &like, pc)?;
        match found {
            Some(near) => Ok(Some(near)),
            None => Ok(Some(like)),
        }
    }

    // The same state, like the frame of the stack map at a pc where it is like one with few other local variables.
    fn near(&self, alloc: Global, s: KnownState, pc: u32) -> Result<KnownState, NoMemory>
        requires { Holds self.now s }
        ensures same { IfOk result (λ t. type_state t ≡ type_state s) }
        ensures holds { IfOk result (Holds self.now) }
    {
        let KnownState {
            state,
            like,
            judged,
            stored,
            fitted,
        } = s;
        let like = self.near_like(alloc, like, pc)?;
        Ok(KnownState {
            state,
            like,
            judged,
            stored,
            fitted,
        })
    }

    // Whether a state fits the frame of the stack map at a pc, as one that it fits shows, where the two have few other local variables.
    fn fits_near(
        &self,
        alloc: Global,
        s: &KnownState,
        slots: &[usize],
        other: u32,
        pc: u32,
    ) -> Result<bool, NoMemory>
        ensures { IfOk result (λ b. FitsBut self.now slots.now (type_state s.now) other
            → MatchBool b (FitsLocals self.now (type_state s.now) pc) (Unit {0})) }
    {
        let there = Like::new(alloc, other);
        let near = self.frames.near(alloc, &there, pc)?;
        match near {
            Some(near) => {
                if !self.fits_wholly(s, slots, other) {
                    return Ok(false);
                }
                let others = &near.overwritten;
                Ok(are_assignable(self.world, others, s.state.types.locals()))
            }
            None => Ok(false),
        }
    }

    // Whether a state fits the frame of the stack map at a pc, as one of these shows.
    fn fits_near_one(
        &self,
        alloc: Global,
        s: &KnownState,
        fitted: &Fitted,
        pc: u32,
    ) -> Result<bool, NoMemory>
        ensures { IfOk result (λ b. AllFit self.now (type_state s.now) fitted.now
            → MatchBool b (FitsLocals self.now (type_state s.now) pc) (Unit {0})) }
    {
        let mut rest: &[u32] = &fitted.pcs;
        while let Some((other, behind)) = rest.split_first() {
            if self.fits_near(alloc, s, &fitted.changed, *other, pc)? {
                return Ok(true);
            }
            rest = behind;
        }
        Ok(false)
    }

    // The frame of the stack map at a pc, where a state is found to fit it by those that it is known to fit.
    fn found_near(&self, alloc: Global, s: &KnownState, pc: u32) -> Result<Option<u32>, NoMemory>
        requires { Holds self.now s.now }
        ensures { IfOk result (MayFit self.now (type_state s.now)) }
    {
        let Some(fitted) = &s.fitted else {
            return Ok(None);
        };
        if self.among(&fitted.get().pcs, pc).is_some() {
            return Ok(None);
        }
        if self.fits_near_one(alloc, s, fitted.get(), pc)? {
            Ok(Some(pc))
        } else {
            Ok(None)
        }
    }

    /// The same state, with the frame at a pc among those that its local variables and its flag are known to fit.
    pub fn with_fitted(&self, alloc: Global, s: KnownState, pc: u32) -> Result<KnownState, NoMemory>
        requires holds { Holds self.now s }
        requires fits { FitsLocals self.now (type_state s) pc }
        ensures same { IfOk result (λ t. type_state t ≡ type_state s) }
        ensures holds { IfOk result (Holds self.now) }
    {
        let KnownState {
            state,
            like,
            judged,
            stored,
            fitted,
        } = s;
        let fitted = Boxed::new(alloc, Fitted::with(alloc, fitted, pc)?)?;
        Ok(KnownState {
            state,
            like,
            judged,
            stored,
            fitted: Some(fitted),
        })
    }

    // The same state, with the frame of the stack map at a pc among those that it is known to fit, where that is found by the others.
    fn fitted_near(&self, alloc: Global, s: KnownState, pc: u32) -> Result<KnownState, NoMemory>
        requires { Holds self.now s }
        ensures same { IfOk result (λ t. type_state t ≡ type_state s) }
        ensures holds { IfOk result (Holds self.now) }
    {
        let found = self.found_near(alloc, &s, pc)?;
        let Some(pc) = found else {
            return Ok(s);
        };
        self.with_fitted(alloc, s, pc)
    }

    // The same, where the instruction is a branch.
    fn near_target(&self, alloc: Global, s: KnownState, op: &Op) -> Result<KnownState, NoMemory>
        requires { Holds self.now s }
        ensures same { IfOk result (λ t. type_state t ≡ type_state s) }
        ensures holds { IfOk result (Holds self.now) }
    {
        let Some(target) = branch_target(op) else {
            return Ok(s);
        };
        let Some(pc) = pc_of(target) else {
            return Ok(s);
        };
        let near = self.near(alloc, s, pc)?;
        self.fitted_near(alloc, near, pc)
    }

    // Whether the state fits the frames at all targets, and the next instruction if there is one.
    fn fits_on(&self, fits_targets: bool, s: &KnownState, i: &Instr, is_last: bool) -> bool
        requires { Holds self.now s.now }
        ensures { result ≡ (fits_targets
            && (is_last || fits_next self.now (row i.now.op) i.now.next (type_state s.now))) }
    {
        fits_targets && (is_last || self.fits_next(s, i))
    }

    // Compares the state after an instruction, and learns nothing more of it.
    #[inline(always)]
    fn compared_alone(&self, s: KnownState, i: &Instr, is_last: bool) -> Compared
        requires { Holds self.now s }
        ensures fits { result.fits ≡
            goes_to self.now (row i.now.op) i.now.next is_last (type_state s) }
        ensures same { result.known ≡ s }
    {
        let fits_targets = self.fits_targets(&s, &i.op);
        let fits = self.fits_on(fits_targets, &s, i, is_last);
        Compared { known: s, fits }
    }

    /// Compares the state after an instruction.
    #[inline(always)]
    pub fn compared(
        &self,
        alloc: Global,
        s: KnownState,
        i: &Instr,
        is_last: bool,
    ) -> Result<Compared, NoMemory>
        requires { Holds self.now s }
        ensures fits { IfOk result (λ c. c.fits ≡
            goes_to self.now (row i.now.op) i.now.next is_last (type_state s)) }
        ensures same { IfOk result (λ c. type_state c.known ≡ type_state s) }
        ensures holds { IfOk result (λ c. Holds self.now c.known) }
    {
        if self.method.code.max_locals < MANY {
            return Ok(self.compared_alone(s, i, is_last));
        }
        let near = self.near_target(alloc, s, &i.op)?;
        let fits_targets = self.fits_targets(&near, &i.op);
        let fitted = self.fitted_after(alloc, near, &i.op, fits_targets)?;
        let known = self.near(alloc, fitted, i.next)?;
        let fits = self.fits_on(fits_targets, &known, i, is_last);
        Ok(Compared { known, fits })
    }
}
