//! A fake sink in memory.

ghost use Rattle.std.specs.Prelude.{◌≡◌, ◌↔◌, ◌⊎◌, ◌++◌, Some, IsErr, IfOk, OnOk, OnErr, length, take};
ghost use Rattle.jvm_edges.specs.Causes.{SinkHasCause};
ghost use Rattle.jvm_edges.specs.States.{new_sink, next_taken, FindsNoRoom};
ghost use Rattle.jvm_edges.specs.Plan.{FailsNext, after_call, after_failed_call};

use crate::fault_plan::FaultPlan;
use crate::sink::{Failed, Sink};
use std::alloc::{AllocError, Global};
use std::marker::Model;

/// A sink in memory with a fixed room, of which chosen puts fail.
#[derive(Drop)]
pub struct MemSink {
    bytes: Vec<u8>,
    most: usize,
    room: usize,
    plan: FaultPlan,
}

impl Model for MemSink {
    ghost use Rattle.std.specs.Prelude.{◌≤◌, vec_len, vec_capacity};
    ghost use Rattle.jvm_edges.specs.States.{SinkState};

    ghost Value = { SinkState };

    ghost view = { λ sink. record {
      bytes = sink.bytes.items;
      most = sink.most;
      room = sink.room;
      plan = sink.plan;
    } };

    ghost invariant = { λ sink.
        (vec_len sink.bytes ≤ sink.room) × (sink.room ≤ vec_capacity sink.bytes) };
}

impl MemSink {
    /// An empty sink that takes at most `most` bytes a put, but at least one, and at most `room` bytes in all. The
    /// puts of these numbers fail, counted from 1. It takes the memory for all of its room, so no put wants any.
    pub fn new(
        alloc: Global,
        most: usize,
        room: usize,
        fail_at: Vec<u64>,
    ) -> Result<Self, AllocError>
        ensures { IfOk result (λ sink. sink ≡ new_sink most room fail_at.items) }
    {
        Ok(MemSink {
            bytes: Vec::with_capacity(alloc, room)?,
            most,
            room,
            plan: FaultPlan::new(fail_at),
        })
    }

    /// The bytes that it took.
    pub fn bytes(&self) -> &[u8]
        ensures { result.now ≡ self.now.bytes }
    {
        self.bytes.as_slice()
    }

    /// How often the sink failed, at most the greatest u64.
    pub fn faults(&self) -> u64
        ensures { result ≡ self.now.plan.faults }
    {
        self.plan.faults()
    }
}

impl Sink for MemSink {
    ghost contents = { λ sink. Some sink.bytes };

    ghost faults = { λ sink. sink.plan.faults };

    /// It fails exactly where the number of the put is one of those given to `new`, or its room is used up.
    fn put(&mut self, bytes: &[u8]) -> Result<usize, Failed>
        ensures fails { IsErr result
            ↔ (FailsNext self.old.plan ⊎ FindsNoRoom self.old (length bytes.now)) }
        ensures count { IfOk result (λ taken. taken ≡ next_taken self.old (length bytes.now)) }
        ensures taken { IfOk result (λ taken.
            self.new.bytes ≡ self.old.bytes ++ take taken bytes.now) }
        ensures refused { OnErr result (self.new.bytes ≡ self.old.bytes) }
        ensures most { self.new.most ≡ self.old.most }
        ensures room { self.new.room ≡ self.old.room }
        ensures plan { OnOk result (self.new.plan ≡ after_call self.old.plan) }
        ensures plan_failed { OnErr result (self.new.plan ≡ after_failed_call self.old.plan) }
        ensures cause { SinkHasCause self.old.plan.faults self.new.plan.faults result }
    {
        let planned = self.plan.count_call();
        let room_left = self.room - self.bytes.len();
        if planned || (room_left == 0 && !bytes.is_empty()) {
            self.plan.count_fault();
            return Err(Failed);
        }
        let taken = bytes.len().min(self.most.max(1)).min(room_left);
        match self.bytes.extend_from_slice(&bytes[..taken]) {
            Ok(()) => Ok(taken),
            Err(AllocError) => unreachable!(),
        }
    }
}
