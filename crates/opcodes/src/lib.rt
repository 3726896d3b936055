//! The instructions of a method's code array (JVMS 6.5).
#![tactic(auto)]

mod code;
mod error;
mod formats;
mod laws;
mod op;
mod operands;
mod pc_table;
mod switch;
mod switch_operands;

pub use code::decode;
pub use error::{CodeError, CodeWhy};
pub use laws::one_decoding;
pub use op::{Comparison, Element, Instr, Op, Primitive, Sameness, Simple, ValueKind};
pub use pc_table::{NO_INSTR, index_by_pc};
pub use switch::{LookupSwitch, Match, TableSwitch};

const _: () = prove!(size_of::<Op>() == 16);
