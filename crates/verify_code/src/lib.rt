//! Verifies the code of a linked program (JVMS 4.10.1).
#![tactic(auto)]

mod accepted;
mod asking;
mod checked;
mod comparisons;
mod environment;
mod findings;
mod guards;
mod handlers;
mod instructions;
mod merged;
mod method_fault;
mod satisfied;
mod switches;
mod targets;
mod walk;

pub use checked::{Checked, VerifyError, accept};
