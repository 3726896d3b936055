//! What invocations, returns, exceptions on their way, native methods and the steps of threads ask.

use crate::program::ReadyProgram;
use invocation::CallWorld;
use items::NoMemory;
use lib_table::Native;
use link_model::{MethodCode, MethodInfo};
use link_rules::{Choice, MemberPlace};
use native_methods::NativeWorld;
use program_state::ThreadWorld;
use ref_model::Exception;
use std::alloc::Global;
use thread_steps::MachineWorld;

impl CallWorld for ReadyProgram {
    #[inline(always)]
    fn method(&self, n: u32) -> Option<&MethodInfo> {
        ReadyProgram::method(self, n)
    }

    #[inline(always)]
    fn code(&self, n: u32) -> Option<&MethodCode> {
        ReadyProgram::code(self, n)
    }

    #[inline(always)]
    fn native(&self, n: u32) -> Option<Native> {
        ReadyProgram::native(self, n)
    }

    fn choice(&self, alloc: Global, class: u32, method: u32) -> Result<Option<Choice>, NoMemory> {
        ReadyProgram::choice(self, alloc, class, method)
    }

    fn method_number(&self, place: MemberPlace) -> Result<u32, NoMemory> {
        ReadyProgram::method_number(self, place)
    }

    fn is_hold(&self, method: &MethodInfo) -> bool {
        ReadyProgram::is_hold(self, method)
    }

    #[inline(always)]
    fn is_open(&self, n: u32) -> bool {
        ReadyProgram::is_open(self, n)
    }

    #[inline(always)]
    fn next(&self, method: u32, pc: u32) -> Option<u32> {
        ReadyProgram::next(self, method, pc)
    }

    fn handler(&self, class: u32, method: u32, pc: u32) -> Option<u16> {
        ReadyProgram::handler(self, class, method, pc)
    }
}

impl NativeWorld for ReadyProgram {
    fn name(&self, class: u32) -> &[u16] {
        self.tables().name(class)
    }
}

impl MachineWorld for ReadyProgram {
    #[inline(always)]
    fn exception_class(&self, exception: Exception) -> Option<u32> {
        ReadyProgram::exception_class(self, exception)
    }

    fn class_name(&self, alloc: Global, class: u32) -> Result<Vec<u16>, NoMemory> {
        ReadyProgram::class_name(self, alloc, class)
    }
}

impl ThreadWorld for ReadyProgram {
    fn run_method(&self) -> Option<u32> {
        ReadyProgram::run_method(self)
    }
}
