//! Descriptors of fields and methods (JVMS 4.3).
#![tactic(auto)]

mod error;
mod fields;
mod fronts;
mod kind;
mod laws;
mod letters;
mod methods;

pub use error::DescriptorError;
pub use fields::{field_kind, field_kind_counted, is_field_counted, is_field_descriptor};
pub use kind::{ElementType, Kind, Signature};
pub use laws::{one_first_bad, one_kind, one_signature, tests_decide};
pub use letters::{
    BOOL_LETTER, BRACKET, BYTE_LETTER, CHAR_LETTER, CLASS_LETTER, CLOSE_PARENTHESIS, DOT,
    DOUBLE_LETTER, FLOAT_LETTER, INT_LETTER, LONG_LETTER, OPEN_PARENTHESIS, SEMICOLON,
    SHORT_LETTER, SLASH, VOID_LETTER,
};
pub use methods::{is_method_counted, is_method_descriptor, method_kind, method_kind_counted};
