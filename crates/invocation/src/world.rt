//! What invocations, returns and exceptions ask of a linked world.

ghost use Rattle.std.specs.Prelude.{◌≡◌, IfOk, slice_get};
ghost use Rattle.std.specs.Option.{option_copied, option_map};
ghost use Rattle.link_rules.specs.Members as linked;
ghost use Rattle.link_model.specs.Decoded.{code_at};
ghost use Rattle.verify_types.specs.Environment.{Handler, Instruction};
ghost use Rattle.ref_model.specs.Calls as calls;
ghost use Rattle.ref_model.specs.Fetch.{fetched};
ghost use Rattle.ref_model.specs.Members as members;
ghost use Rattle.ref_model.specs.Throwing as throwing;
ghost use Rattle.invocation.specs.Places.{frame_at, is_open};

use heap_instructions::EventWorld;
use items::NoMemory;
use lib_table::Native;
use link_model::{MethodCode, MethodInfo};
use link_rules::{Choice, MemberPlace};
use std::alloc::Global;

/// What invocations, returns and exceptions on their way ask of a linked world, each in constant time but for `choice` and `handler`.
pub trait CallWorld: EventWorld {
    /// A method. `None`: there is no method of this number.
    fn method(&self, n: u32) -> Option<&MethodInfo>
        ensures { option_copied result ≡ slice_get (Self.world self.now).methods n };

    /// The code of a method (JVMS 4.7.3). `None`: the method has none, or there is no method of this number.
    fn code(&self, n: u32) -> Option<&MethodCode>
        ensures { option_copied result ≡ code_at (Self.world self.now) n };

    /// What the machine does in place of a method's code. `None`: the method isn't native.
    fn native(&self, n: u32) -> Option<Native>
        ensures { result ≡ members.native_at (Self.world self.now) n };

    /// What an invocation of a method selects on an object of a class (JVMS 5.4.6).
    fn choice(&self, alloc: Global, class: u32, method: u32) -> Result<Option<Choice>, NoMemory>
        ensures { IfOk result (λ found.
            found ≡ calls.choice_of (Self.world self.now) class method) };

    /// The number of a method that is declared at a place. An error: it isn't as small as numbers of methods are.
    fn method_number(&self, place: MemberPlace) -> Result<u32, NoMemory>
        ensures { IfOk result (λ n.
            n ≡ linked.method_number (Self.world self.now).program place) };

    /// Whether it is jvt.Native.hold, whose frame pins its thread.
    fn is_hold(&self, method: &MethodInfo) -> bool
        ensures { result ≡ members.is_hold (Self.world self.now) method.now };

    /// Whether a return from a method is no local instruction, wherever its frame lies: the method is a class initializer, synchronized, or
    /// jvt.Native.hold.
    fn is_open(&self, n: u32) -> bool
        ensures { result ≡ is_open (Self.world self.now) n };

    /// The pc after the instruction at a pc of a method. `None`: there is no instruction.
    fn next(&self, method: u32, pc: u32) -> Option<u32>
        ensures { result ≡ option_map (λ (i : Instruction). i.instr.next)
            (fetched (Self.world self.now) (frame_at method pc)) };

    /// The pc of the first handler of a method that catches an object of a class at a pc (JVMS 2.10). `None`: none does.
    fn handler(&self, class: u32, method: u32, pc: u32) -> Option<u16>
        ensures { result ≡ option_map (λ (h : Handler). h.row.handler)
            (throwing.handler_of (Self.world self.now) class (frame_at method pc)) };
}
