//! What invocations come to (JVMS 6.5: invokevirtual, invokespecial, invokestatic, invokeinterface). Tests come in this order: null, the
//! class of the receiver, selection.

ghost use Rattle.std.specs.Prelude.{◌≡◌, ◌≤◌, IfOk, IfSome, None, OnOk, Some, length, slice_get, suc};
ghost use Rattle.opcodes.specs.declared.op.ValueKind.TheVariants as kinds;
ghost use Rattle.instruction_rows.specs.Table.{row};
ghost use Rattle.link_model.specs.Decoded.{code_at};
ghost use Rattle.link_model.specs.World.{World};
ghost use Rattle.ref_model.specs.Fetch as fetch;
ghost use Rattle.ref_model.specs.Members.{native_at};
ghost use Rattle.ref_model.specs.Operands.{FindsOperands, HasOperand};
ghost use Rattle.invocation.specs.Natives.{IfNative, IsNative, IsNativeInvoked, IsSpecialNative, IsVirtualNative, ReceivesNative, SelectsNative};
ghost use Rattle.invocation.specs.Targets.{IfCode, IsInvoked, IsLinkedTarget, IsLocalCode, IsNumbered, IsReceived, IsSelected, IsSpecial, IsStaticCallee, IsVirtual};
ghost use Rattle.invocation.specs.InvocationCache.{AreSelected, IsNamed};
ghost use Rattle.heap_instructions.specs.Operands.{operands};

use crate::arguments::{argument_slots, takes_double};
use crate::invocation_cache::{InvocationCache, NamedMethod, Selection};
use crate::receivers::{Receiver, receiver_of};
use crate::target::{Callee, Target};
use crate::world::CallWorld;
use continuation::Mounted;
use heap_instructions::late_failure;
use heap_objs::Heap;
use items::NoMemory;
use link_model::{MethodCode, MethodInfo, Resolution, SelectionFailure, Site, is_synchronized};
use link_rules::Choice;
use opcodes::Op;
use ref_model::Exception;
use std::alloc::Global;

// The number of the method that an instruction names.
#[inline(always)]
fn method_of(resolution: &Resolution) -> Option<u32>
    ensures { result ≡ fetch.method_of resolution.now.site }
{
    match resolution.site {
        Site::Method(n) => Some(n),
        _ => None,
    }
}

// The method with a number begins, and takes so many slots.
fn coded<W: CallWorld>(
    world: &W,
    method: &MethodInfo,
    code: &MethodCode,
    n: u32,
    slots: u16,
) -> Target
    requires method { slice_get (W.world world.now).methods n ≡ Some method.now }
    requires code { code_at (W.world world.now) n ≡ Some code.now }
    requires plain { native_at (W.world world.now) n ≡ None }
    ensures numbered { IsNumbered (W.world world.now) n slots result }
    ensures local { IsLocalCode (W.world world.now) n slots result }
    ensures takes { IfCode result (λ callee. callee.slots ≡ slots) }
    ensures native { IfNative result (IsNative (W.world world.now) n) }
{
    let callee = Callee {
        method: n,
        slots,
        locals: code.max_locals,
        operands: code.max_stack,
    };
    if is_synchronized(method) {
        return Target::Synchronized(callee);
    }
    if world.is_hold(method) {
        return Target::Pins(callee);
    }
    Target::Code(callee)
}

// The method with a number runs, and takes so many slots (JVMS 4.6: without code it is abstract).
fn numbered<W: CallWorld>(world: &W, n: u32, slots: u16) -> Target
    ensures numbered { IsNumbered (W.world world.now) n slots result }
    ensures local { IsLocalCode (W.world world.now) n slots result }
    ensures takes { IfCode result (λ callee. callee.slots ≡ slots) }
    ensures native { IfNative result (IsNative (W.world world.now) n) }
{
    let Some(method) = world.method(n) else {
        return Target::Undefined;
    };
    if let Some(native) = world.native(n) {
        return Target::Native(native);
    }
    match world.code(n) {
        Some(code) => coded(world, method, code, n, slots),
        None => Target::Throws(Exception::AbstractMethodError),
    }
}

// The method that an instruction names by this number. `None`: there is none, or no program that runs has it.
fn named_anew<W: CallWorld>(world: &W, n: u32) -> Option<NamedMethod>
    ensures number { IfSome result (λ m. m.number ≡ n) }
    ensures named { IfSome result (IsNamed (W.world world.now)) }
{
    let method = world.method(n)?;
    if takes_double(&method.signature) {
        return None;
    }
    let slots = argument_slots(&method.signature)?;
    Some(NamedMethod {
        number: n,
        slots,
        unbound: numbered(world, n, slots),
        bound: numbered(world, n, slots + 1),
    })
}

// Keeps a method that instructions name by this number, where it isn't kept yet.
#[inline(never)]
fn keep_named<W: CallWorld>(world: &W, cache: &mut InvocationCache, n: u32)
    requires { AreSelected (W.world world.now) cache.old }
    ensures { AreSelected (W.world world.now) cache.new }
{
    if let Some(method) = named_anew(world, n) {
        cache.keep_method(method);
    }
}

// The same in constant time, where an earlier invocation named it.
#[inline(always)]
fn named<W: CallWorld>(world: &W, cache: &mut InvocationCache, n: u32) -> Option<NamedMethod>
    requires { AreSelected (W.world world.now) cache.old }
    ensures number { IfSome result (λ m. m.number ≡ n) }
    ensures named { IfSome result (IsNamed (W.world world.now)) }
    ensures cache { AreSelected (W.world world.now) cache.new }
{
    if cache.find_method(n).is_none() {
        keep_named(world, cache, n);
    }
    cache.find_method(n)
}

// What is selected for a receiver of a class runs (JVMS 5.4.6). This goes up the superclasses.
fn selected_anew<W: CallWorld>(
    alloc: Global,
    world: &W,
    class: u32,
    n: u32,
    slots: u16,
) -> Result<Target, NoMemory>
    ensures selected { IfOk result
        (λ target. IsSelected (W.world world.now) class n slots target) }
    ensures takes { IfOk result (λ target. IfCode target (λ callee. callee.slots ≡ slots)) }
    ensures native { IfOk result
        (λ target. IfNative target (SelectsNative (W.world world.now) class n)) }
{
    let Some(choice) = world.choice(alloc, class, n)? else {
        return Ok(Target::Undefined);
    };
    match choice {
        Choice::Method(place) => Ok(numbered(world, world.method_number(place)?, slots)),
        Choice::Abstract => Ok(Target::Throws(Exception::AbstractMethodError)),
        Choice::Several => Ok(Target::Throws(Exception::IncompatibleClassChangeError)),
    }
}

// What an invocation on an object comes to: the late check of its class, and selection.
#[inline(never)]
fn received_anew<W: CallWorld>(
    alloc: Global,
    world: &W,
    cache: &mut InvocationCache,
    receiver: Receiver,
    n: u32,
    slots: u16,
) -> Result<Target, NoMemory>
    requires { AreSelected (W.world world.now) cache.old }
    ensures target { IfOk result (IsReceived (W.world world.now) receiver n slots) }
    ensures takes { IfOk result (λ target. IfCode target (λ callee. callee.slots ≡ slots)) }
    ensures native { IfOk result
        (λ target. IfNative target (ReceivesNative (W.world world.now) receiver n)) }
    ensures cache { AreSelected (W.world world.now) cache.new }
{
    if !world.is_sub(receiver.class, receiver.named) {
        return Ok(Target::Throws(late_failure(world, receiver.named)));
    }
    let target = selected_anew(alloc, world, receiver.class, n, slots)?;
    cache.keep(Selection {
        receiver,
        method: n,
        slots,
        target,
    });
    Ok(target)
}

// The same in constant time, where an earlier invocation selected it.
#[inline(always)]
fn received<W: CallWorld>(
    alloc: Global,
    world: &W,
    cache: &mut InvocationCache,
    receiver: Receiver,
    n: u32,
    slots: u16,
) -> Result<Target, NoMemory>
    requires { AreSelected (W.world world.now) cache.old }
    ensures target { IfOk result (IsReceived (W.world world.now) receiver n slots) }
    ensures takes { IfOk result (λ target. IfCode target (λ callee. callee.slots ≡ slots)) }
    ensures native { IfOk result
        (λ target. IfNative target (ReceivesNative (W.world world.now) receiver n)) }
    ensures cache { AreSelected (W.world world.now) cache.new }
{
    if let Some(target) = cache.find(receiver, n, slots) {
        return Ok(target);
    }
    received_anew(alloc, world, cache, receiver, n, slots)
}

// invokevirtual and invokeinterface.
#[inline(always)]
fn invoke_virtual<W: CallWorld>(
    alloc: Global,
    world: &W,
    cache: &mut InvocationCache,
    resolution: &Resolution,
    method: NamedMethod,
    heap: &Heap,
    mounted: &Mounted,
) -> Result<Target, NoMemory>
    requires receiver { HasOperand kinds.Reference method.slots (operands mounted.now) }
    requires few { method.slots ≤ 255 }
    requires selected { AreSelected (W.world world.now) cache.old }
    ensures target { IfOk result (IsVirtual (W.world world.now) resolution.now method.number
        method.slots heap.now mounted.now) }
    ensures given { IfOk result (λ target. IfCode target (λ callee.
        callee.slots ≤ length (operands mounted.now))) }
    ensures native { IfOk result (λ target. IfNative target (IsVirtualNative
        (W.world world.now) resolution.now method.number method.slots heap.now mounted.now)) }
    ensures cache { AreSelected (W.world world.now) cache.new }
{
    let Some(receiver) = receiver_of(world, resolution, method.slots, heap, mounted) else {
        return Ok(Target::Undefined);
    };
    match receiver {
        Ok(receiver) => {
            let slots = method.slots + 1;
            received(alloc, world, cache, receiver, method.number, slots)
        }
        Err(e) => Ok(Target::Throws(e)),
    }
}

// What invokespecial selected when the program was linked, or the error of its failure.
#[inline(always)]
fn linked_target(failure: Option<SelectionFailure>, method: NamedMethod) -> Target
    ensures target { (w : World) → IsNamed w method
        → IsLinkedTarget w failure method.number (suc method.slots) result }
    ensures takes { (w : World) → IsNamed w method
        → IfCode result (λ callee. callee.slots ≡ suc method.slots) }
    ensures native { (w : World) → IsNamed w method
        → IfNative result (IsNative w method.number) }
{
    match failure {
        None => method.bound,
        Some(SelectionFailure::Abstract) => Target::Throws(Exception::AbstractMethodError),
        Some(SelectionFailure::Several) => Target::Throws(Exception::IncompatibleClassChangeError),
    }
}

// invokespecial.
#[inline(always)]
fn invoke_special<W: CallWorld>(
    world: &W,
    resolution: &Resolution,
    method: NamedMethod,
    heap: &Heap,
    mounted: &Mounted,
) -> Target
    requires receiver { HasOperand kinds.Reference method.slots (operands mounted.now) }
    requires named { IsNamed (W.world world.now) method }
    ensures target { IsSpecial (W.world world.now) resolution.now method.number method.slots
        heap.now mounted.now result }
    ensures given { IfCode result (λ callee. callee.slots ≤ length (operands mounted.now)) }
    ensures native { IfNative result (IsSpecialNative (W.world world.now) resolution.now
        method.number method.slots heap.now mounted.now) }
{
    let Some(receiver) = receiver_of(world, resolution, method.slots, heap, mounted) else {
        return Target::Undefined;
    };
    match receiver {
        Ok(receiver) => {
            if world.is_sub(receiver.class, receiver.named) {
                linked_target(resolution.failure, method)
            } else {
                Target::Throws(late_failure(world, receiver.named))
            }
        }
        Err(e) => Target::Throws(e),
    }
}

// There is no method with a number. An error: there is one that can't be kept, since no program that runs has such a method.
#[inline(never)]
fn find_none<W: CallWorld>(world: &W, n: u32) -> Result<(), NoMemory>
    ensures { OnOk result (slice_get (W.world world.now).methods n ≡ None) }
{
    match world.method(n) {
        Some(_) => Err(NoMemory),
        None => Ok(()),
    }
}

/// The method that an invokestatic begins as a local instruction. `None`: it isn't known to be one.
#[inline(always)]
pub fn static_callee<W: CallWorld>(
    world: &W,
    cache: &mut InvocationCache,
    resolution: &Resolution,
) -> Option<Callee>
    requires { AreSelected (W.world world.now) cache.old }
    ensures callee { IfSome result (IsStaticCallee (W.world world.now) resolution.now) }
    ensures cache { AreSelected (W.world world.now) cache.new }
{
    let n = method_of(resolution)?;
    let method = named(world, cache, n)?;
    match method.unbound {
        Target::Code(callee) => Some(callee),
        _ => None,
    }
}

/// What the invocation at the pc of a thread's top frame comes to. What it selects is kept.
#[inline(always)]
pub fn invoke<W: CallWorld>(
    alloc: Global,
    world: &W,
    cache: &mut InvocationCache,
    op: &Op,
    resolution: &Resolution,
    heap: &Heap,
    mounted: &Mounted,
) -> Result<Target, NoMemory>
    requires operands { FindsOperands (W.world world.now) resolution.now (row op.now)
        (operands mounted.now) }
    requires selected { AreSelected (W.world world.now) cache.old }
    ensures target { IfOk result (λ target.
        IsInvoked (W.world world.now) resolution.now (row op.now) heap.now mounted.now target) }
    ensures given { IfOk result (λ target. IfCode target (λ callee.
        callee.slots ≤ length (operands mounted.now))) }
    ensures native { IfOk result (λ target. IfNative target (IsNativeInvoked
        (W.world world.now) resolution.now (row op.now) heap.now mounted.now)) }
    ensures cache { AreSelected (W.world world.now) cache.new }
{
    let Some(n) = method_of(resolution) else {
        return Ok(Target::Undefined);
    };
    let Some(method) = named(world, cache, n) else {
        find_none(world, n)?;
        return Ok(Target::Undefined);
    };
    match op {
        Op::InvokeStatic(_) => Ok(method.unbound),
        Op::InvokeVirtual(_) => {
            invoke_virtual(alloc, world, cache, resolution, method, heap, mounted)
        }
        Op::InvokeInterface(_, _) => {
            invoke_virtual(alloc, world, cache, resolution, method, heap, mounted)
        }
        Op::InvokeSpecial(_) => Ok(invoke_special(world, resolution, method, heap, mounted)),
        _ => Ok(Target::Undefined),
    }
}
