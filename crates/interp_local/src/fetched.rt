//! The instruction before which a run stops.

use link_model::Resolution;
use opcodes::Instr;

/// An instruction, and what its constant means.
#[derive(Clone, Copy)]
pub struct Fetched<'a> {
    pub instr: &'a Instr,
    pub resolution: &'a Resolution,
}
