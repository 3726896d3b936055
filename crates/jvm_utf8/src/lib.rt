//! Modified UTF-8, the bytes of a text in a class file (JVMS 4.4.7), in its one shortest form.
#![tactic(auto)]

mod decoder;
mod encoder;
mod error;
mod laws;

pub use decoder::{decode, decode_counted, decode_onto};
pub use encoder::{append, encode};
pub use error::Utf8Error;
pub use laws::{one_first_bad, one_text};
