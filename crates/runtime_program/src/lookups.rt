//! What the instructions on fields, arrays and objects ask.

use crate::program::ReadyProgram;
use heap_instructions::EventWorld;
use instruction_rows::Value;
use link_model::{ArrayType, FieldInfo};

impl EventWorld for ReadyProgram {
    ghost world = { λ w. w };

    #[inline(always)]
    fn field(&self, n: u32) -> Option<&FieldInfo> {
        ReadyProgram::field(self, n)
    }

    #[inline(always)]
    fn static_place(&self, field: u32) -> u32 {
        ReadyProgram::static_place(self, field)
    }

    #[inline(always)]
    fn field_place(&self, field: u32) -> Option<u32> {
        ReadyProgram::field_place(self, field)
    }

    #[inline(always)]
    fn new_values(&self, class: u32) -> &[Value] {
        ReadyProgram::new_values(self, class)
    }

    #[inline(always)]
    fn is_sub(&self, class: u32, other: u32) -> bool {
        ReadyProgram::is_sub(self, class, other)
    }

    #[inline(always)]
    fn is_element(&self, class: u32, array: ArrayType) -> bool {
        ReadyProgram::is_element(self, class, array)
    }

    #[inline(always)]
    fn is_interface(&self, class: u32) -> bool {
        ReadyProgram::is_interface(self, class)
    }

    #[inline(always)]
    fn array_type(&self, class: u32) -> Option<ArrayType> {
        ReadyProgram::array_type(self, class)
    }

    #[inline(always)]
    fn element_class(&self, class: u32) -> Option<u32> {
        ReadyProgram::element_class(self, class)
    }

    #[inline(always)]
    fn string(&self) -> Option<u32> {
        ReadyProgram::string(self)
    }
}
