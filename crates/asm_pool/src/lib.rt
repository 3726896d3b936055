//! The constant pool of a class file that is assembled, constant by constant.
#![tactic(auto)]

mod error;
mod key;
mod pool;

pub use error::PoolError;
pub use pool::Pool;
