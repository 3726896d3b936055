//! The code of methods (JVMS 4.7.3, 4.7.4).

ghost use Rattle.std.specs.Prelude.{◌≡◌, ◌<◌, ◌^◌, List, [], ◌∷◌, ◌++◌, IfOk, IfSome, OnOk, length, slice_get};
ghost use Rattle.std.specs.Option.{option_and_then, option_copied, option_map};
ghost use Rattle.opcodes.specs.Code.{IsCode};
ghost use Rattle.link_rules.specs.Faults.{decoded};
ghost use Rattle.link_model.specs.Decoded.{IsDecoded};
ghost use Rattle.link_model.specs.Codes as spec;
ghost use Rattle.link_numbers.specs.Decodings as decodings;

use class_model::{Attribute, Body, CodeAttribute, CodeBody, CodeExtra, Member};
use items::{Items, NoMemory};
use link_checks::front_of;
use link_model::MethodCode;
use opcodes::Instr;
use std::alloc::Global;
use std::marker::Model;

/// The body of a stack map without frames (JVMS 4.7.4).
const EMPTY_MAP: [u8; 2] = [0, 0];

/// The most bytes of a code (JVMS 4.7.3).
const MOST_CODE: usize = 65_535;

fn code_in(attribute: &Attribute) -> Option<&CodeBody>
    ensures { option_copied result ≡ spec.code_in attribute.now }
{
    match &attribute.body {
        Body::Code(body) => Some(body.get()),
        _ => None,
    }
}

/// The code of a method. `None`: it is abstract or native (JVMS 4.6).
pub fn body_of(method: &Member) -> Option<&CodeBody>
    ensures { option_copied result ≡ spec.body_of method.now }
{
    for attribute in method.attributes.iter() {
        if let Some(body) = code_in(attribute) {
            return Some(body);
        }
    }
    None
}

fn map_in(attribute: &CodeAttribute) -> Option<&[u8]>
    ensures { option_map (λ bytes. bytes.now) result ≡ spec.map_in attribute.now }
{
    match &attribute.body {
        CodeExtra::StackMap(bytes) => Some(bytes),
        CodeExtra::Other(_) => None,
    }
}

// The body of the stack map.
fn map_of(body: &CodeBody) -> &[u8]
    ensures { result.now ≡ spec.map_of body.now }
{
    for attribute in body.attributes.iter() {
        if let Some(bytes) = map_in(attribute) {
            return bytes;
        }
    }
    &EMPTY_MAP
}

/// The instructions of a code; none where there is none.
pub fn instrs_in(code: &Option<MethodCode>) -> &[Instr]
    ensures { result.now ≡ decodings.instrs_in code.now }
{
    match code {
        Some(code) => &code.code,
        None => &[],
    }
}

// All instructions. Code that isn't decoded whole, or hasn't from 1 to 65,535 bytes (JVMS 4.7.3), counts as memory run out: a program that was
// read and links has none.
fn whole_code(alloc: Global, body: &CodeBody) -> Result<Items<Instr>, NoMemory>
    ensures instrs { IfOk result (λ code. code ≡ (decoded body.now.code).instrs) }
    ensures code { IfOk result (λ code. IsCode body.now.code code) }
    ensures some { IfOk result (λ code. 0 < length body.now.code) }
    ensures few { IfOk result (λ code. length body.now.code < 2 ^ 16) }
{
    let front = front_of(alloc, &body.code)?;
    if front.is_bad || body.code.is_empty() || body.code.len() > MOST_CODE {
        return Err(NoMemory);
    }
    let mut instrs = front.instrs;
    instrs.shrink_to_fit();
    Ok(Items::from(instrs))
}

fn code_of_body(alloc: Global, body: &CodeBody) -> Result<MethodCode, NoMemory>
    ensures code { IfOk result (λ code. code ≡ spec.code_of_body body.now) }
    ensures decoded { IfOk result IsDecoded }
{
    Ok(MethodCode {
        max_stack: body.max_stack,
        max_locals: body.max_locals,
        code: whole_code(alloc, body)?,
        rows: Items::from(Vec::from_slice(alloc, &body.rows)?),
        map: Items::from(Vec::from_slice(alloc, map_of(body))?),
    })
}

// The code of a method, decoded. `None`: it is abstract or native (JVMS 4.6).
fn code_of(alloc: Global, method: &Member) -> Result<Option<MethodCode>, NoMemory>
    ensures code { IfOk result (λ code. code ≡ spec.code_of method.now) }
    ensures decoded { IfOk result (λ code. IfSome code IsDecoded) }
{
    match body_of(method) {
        Some(body) => Ok(Some(code_of_body(alloc, body)?)),
        None => Ok(None),
    }
}

/// The code of methods by their numbers, each decoded.
#[derive(Drop)]
pub struct Codes {
    codes: Vec<Option<MethodCode>>,
}

impl Model for Codes {
    ghost use Rattle.std.specs.Prelude.{List, Option};
    ghost use Rattle.link_model.specs.declared.members.MethodCode.{MethodCode};

    ghost Value = { List (Option MethodCode) };

    ghost use Rattle.link_numbers.specs.Codes.{codes_in, AreDecoded};

    ghost view = { codes_in };

    ghost invariant = { AreDecoded };
}

impl Codes {
    /// No code yet.
    pub fn new(alloc: Global) -> Self
        ensures { result ≡ [] }
    {
        Codes {
            codes: Vec::new(alloc),
        }
    }

    /// Adds the code of a method, or that it has none.
    pub fn add(&mut self, alloc: Global, method: &Member) -> Result<(), NoMemory>
        ensures { OnOk result (self.new ≡ self.old ++ spec.code_of method.now ∷ []) }
    {
        let code = code_of(alloc, method)?;
        self.codes.push(code)?;
        Ok(())
    }

    /// The code of all methods in the order of their numbers.
    pub fn as_slice(&self) -> &[Option<MethodCode>]
        ensures { result.now ≡ self.now }
    {
        &self.codes
    }

    /// The code of the method with this number. `None`: it has none, or there is no such method.
    pub fn get(&self, method: u32) -> Option<&MethodCode>
        ensures code { option_copied result ≡
            option_and_then (λ code. code) (slice_get self.now method) }
        ensures decoded { IfSome result (λ code. IsDecoded code.now) }
    {
        match self.codes.get(method as usize) {
            Some(code) => code.as_ref(),
            None => None,
        }
    }
}
