//! The grammar of class files (JVMS 4), which its reader and its writer cite. The definitions are in `specs/`.
#![tactic(auto)]

mod class_why;
mod holder;
mod initializers;
mod laws;
mod pool;
mod text;

pub use class_why::{ClassFault, ClassWhy};
pub use holder::Holder;
pub use initializers::{CLINIT_NAME, INIT_NAME, is_clinit, is_init, is_initializer};
pub use laws::{items_are_whole, one_spelling};
pub use pool::{class_name_at, has_text, is_class_named, text_at};
pub use text::{is_same, is_same_counted};
