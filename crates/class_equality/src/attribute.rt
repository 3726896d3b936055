//! Whether two attributes are the same.

use crate::same::{Same, are_same};
use class_model::{Attribute, Body, CodeAttribute, CodeBody, CodeExtra, Row};

impl Same for Row {
    fn is_same(&self, other: &Self) -> bool {
        *self == *other
    }
}

impl Same for CodeExtra {
    fn is_same(&self, other: &Self) -> bool {
        match (self, other) {
            (CodeExtra::StackMap(left), CodeExtra::StackMap(right)) => {
                left.as_slice() == right.as_slice()
            }
            (CodeExtra::Other(left), CodeExtra::Other(right)) => {
                left.as_slice() == right.as_slice()
            }
            _ => false,
        }
    }
}

impl Same for CodeAttribute {
    fn is_same(&self, other: &Self) -> bool {
        self.name == other.name && self.body.is_same(&other.body)
    }
}

impl Same for CodeBody {
    fn is_same(&self, other: &Self) -> bool {
        self.max_stack == other.max_stack
            && self.max_locals == other.max_locals
            && self.code.as_slice() == other.code.as_slice()
            && are_same(&self.rows, &other.rows)
            && are_same(&self.attributes, &other.attributes)
    }
}

impl Same for Body {
    fn is_same(&self, other: &Self) -> bool {
        match (self, other) {
            (Body::Code(left), Body::Code(right)) => left.get().is_same(right.get()),
            (Body::Constant(left), Body::Constant(right)) => *left == *right,
            (Body::Other(left), Body::Other(right)) => left.as_slice() == right.as_slice(),
            _ => false,
        }
    }
}

impl Same for Attribute {
    fn is_same(&self, other: &Self) -> bool {
        self.name == other.name && self.body.is_same(&other.body)
    }
}
