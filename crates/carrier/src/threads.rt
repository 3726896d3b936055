//! Carriers in threads of their own.

ghost use Rattle.std.specs.Prelude.{◌≡◌, ◌+◌, All, IfErr, IfOk, length};
ghost use Rattle.carrier.specs.Posts.{HasLeft, IsPost};
ghost use Rattle.carrier.specs.Shared.{shared_run};

use crate::post::{Post, run_carrier};
use crate::rounds::run_rounds;
use crate::timed_machine::MachineLock;
use items::NoMemory;
use jvm_edges::{Clock, Gate};
use machine::ReadyProgram;
use std::alloc::Global;
use std::marker::PhantomData;
use std::sync::Wait;
use std::sync::atomic::{AtomicU64, Ordering};
use std::thread::{self, Promise, PromisedHandle, Scope, Threads};
use turn_lock::Seat;

// No carrier has this number.
const NO_CARRIER: u64 = u64::MAX;

// The thread of a carrier promises a post of this lock's run. The type names the clock's lifetime once more, since that of a lock doesn't
// show how long what is in it lives.
#[derive(Drop)]
struct OfRun<'l, 'p, 'c, C: Clock>(&'l MachineLock<'p, 'c, C>, PhantomData<&'c C>);

impl<'l, 'p, 'c, C: Clock> Promise<Post<'p>> for OfRun<'l, 'p, 'c, C> {
    ghost use Rattle.carrier.specs.Posts.{IsPost};
    ghost use Rattle.carrier.specs.Shared.{shared_run};

    ghost kept_by = { λ p post. IsPost (shared_run C.gives p.0.now) post };
}

// A thread that was started for a carrier, and gives its post back.
type Started<'l, 'p, 'c, C> = PromisedHandle<Post<'p>, OfRun<'l, 'p, 'c, C>>;

// What a carrier's thread takes with it: the post, and what all carriers share. `refused` is the number of the carrier whose thread
// couldn't be started.
#[derive(Drop)]
struct Job<'s, 'p, 'c, R, C: Clock, G> {
    rt: &'s R,
    alloc: Global,
    program: &'p ReadyProgram,
    lock: &'s MachineLock<'p, 'c, C>,
    post: Post<'p>,
    clock: &'s C,
    gate: &'s G,
    refused: &'s AtomicU64,
}

impl<'s, 'p, 'c, R: Wait, C: Clock, G: Gate> Job<'s, 'p, 'c, R, C, G> {
    // Makes turns of the carrier until the run has ended, and none where its thread couldn't be started: its post.
    fn run(self) -> Post<'p>
        requires post { IsPost (shared_run C.gives self.lock.now) self.post }
        requires program { self.program.now ≡ self.lock.now.initial.machine.setting.world }
        requires clock { self.clock.now ≡ self.lock.now.initial.clock }
        ensures { IsPost (shared_run C.gives self.entry.lock.now) result }
    {
        let Job {
            rt,
            alloc,
            program,
            lock,
            mut post,
            clock,
            gate,
            refused,
        } = self;
        if refused.load(Ordering::SeqCst) != post.seat.number() as u64 {
            run_carrier(rt, alloc, program, lock, &mut post, clock, gate);
        }
        post
    }
}

// Starts a thread for a carrier. If it can't be started, the carrier's post comes back: the closure holds it, and is called here to give it.
fn start<'s, 'p: 's, 'c: 's, E, R: Wait + Sync + 's, C: Clock + Sync + 's, G: Gate + Sync + 's>(
    scope: &Scope<'s, E>,
    job: Job<'s, 'p, 'c, R, C, G>,
) -> Result<Started<'s, 'p, 'c, C>, Post<'p>>
    requires post { IsPost (shared_run C.gives job.lock.now) job.post }
    requires program { job.program.now ≡ job.lock.now.initial.machine.setting.world }
    requires clock { job.clock.now ≡ job.lock.now.initial.clock }
    ensures started { IfOk result (λ thread. thread.promise.0.now ≡ job.entry.lock.now) }
    ensures refused { IfErr result (IsPost (shared_run C.gives job.entry.lock.now)) }
{
    let number = job.post.seat.number() as u64;
    let refused = job.refused;
    match scope.spawn_with(OfRun(job.lock, PhantomData), move || job.run()) {
        Ok(thread) => Ok(thread),
        Err(error) => {
            refused.store(number, Ordering::SeqCst);
            Err((error.value)())
        }
    }
}

// Starts a thread for each carrier but one. The posts of that one, and of those whose threads couldn't be started, come beside the threads.
fn start_all<'s, 'p: 's, 'c: 's, E, R: Wait + Sync + 's, C: Clock + Sync + 's, G: Gate + Sync + 's>(
    scope: &Scope<'s, E>,
    rt: &'s R,
    alloc: Global,
    program: &'p ReadyProgram,
    lock: &'s MachineLock<'p, 'c, C>,
    mut posts: Vec<Post<'p>>,
    clock: &'s C,
    gate: &'s G,
    refused: &'s AtomicU64,
) -> Result<(Vec<Started<'s, 'p, 'c, C>>, Vec<Post<'p>>), NoMemory>
    requires posts { All (IsPost (shared_run C.gives lock.now)) posts.items }
    requires program { program.now ≡ lock.now.initial.machine.setting.world }
    requires clock { clock.now ≡ lock.now.initial.clock }
    ensures started { IfOk result (λ r.
        All (λ thread. thread.promise.0.now ≡ lock.now) r.0.items) }
    ensures own { IfOk result (λ r. All (IsPost (shared_run C.gives lock.now)) r.1.items) }
    ensures count { IfOk result (λ r. length r.0.items + length r.1.items
        ≡ length posts.entry.items) }
{
    let mut started = Vec::with_capacity(alloc, posts.len())?;
    let mut own = Vec::with_capacity(alloc, posts.len())?;
    while let Some(post) = posts.pop() {
        if own.is_empty() {
            own.push_reserved(post);
            continue;
        }
        let job = Job {
            rt,
            alloc,
            program,
            lock,
            post,
            clock,
            gate,
            refused,
        };
        match start(scope, job) {
            Ok(thread) => started.push_reserved(thread),
            Err(post) => own.push_reserved(post),
        }
    }
    Ok((started, own))
}

// Makes turns of a carrier until it has met the end of the run: its seat.
fn run_to_end<'p, 'c, R: Wait, C: Clock, G: Gate>(
    rt: &R,
    alloc: Global,
    program: &'p ReadyProgram,
    lock: &MachineLock<'p, 'c, C>,
    mut post: Post<'p>,
    clock: &C,
    gate: &G,
) -> Seat
    requires post { IsPost (shared_run C.gives lock.now) post }
    requires program { program.now ≡ lock.now.initial.machine.setting.world }
    requires clock { clock.now ≡ lock.now.initial.clock }
    ensures { HasLeft (shared_run C.gives lock.now) result }
{
    run_carrier(rt, alloc, program, lock, &mut post, clock, gate);
    let Post { seat, .. } = post;
    seat
}

// Makes turns of each carrier until it has met the end of the run, and adds their seats.
fn leave_all<'p, 'c, R: Wait, C: Clock, G: Gate>(
    rt: &R,
    alloc: Global,
    program: &'p ReadyProgram,
    lock: &MachineLock<'p, 'c, C>,
    mut posts: Vec<Post<'p>>,
    seats: &mut Vec<Seat>,
    clock: &C,
    gate: &G,
) -> Result<(), NoMemory>
    requires posts { All (IsPost (shared_run C.gives lock.now)) posts.items }
    requires seats { All (HasLeft (shared_run C.gives lock.now)) seats.old.items }
    requires program { program.now ≡ lock.now.initial.machine.setting.world }
    requires clock { clock.now ≡ lock.now.initial.clock }
    ensures seats { IfOk result (λ u.
        All (HasLeft (shared_run C.gives lock.now)) seats.new.items) }
    ensures count { IfOk result (λ u. length seats.new.items
        ≡ length seats.old.items + length posts.entry.items) }
{
    while let Some(post) = posts.pop() {
        seats.push(run_to_end(rt, alloc, program, lock, post, clock, gate))?;
    }
    Ok(())
}

// Joins the threads of carriers, and adds their seats.
fn join_all<'l, 'p, 'c, R: Threads + Wait, C: Clock, G: Gate>(
    rt: &R,
    alloc: Global,
    program: &'p ReadyProgram,
    lock: &MachineLock<'p, 'c, C>,
    mut started: Vec<Started<'l, 'p, 'c, C>>,
    seats: &mut Vec<Seat>,
    clock: &C,
    gate: &G,
) -> Result<(), NoMemory>
    requires started { All (λ thread. thread.promise.0.now ≡ lock.now) started.items }
    requires seats { All (HasLeft (shared_run C.gives lock.now)) seats.old.items }
    requires program { program.now ≡ lock.now.initial.machine.setting.world }
    requires clock { clock.now ≡ lock.now.initial.clock }
    ensures seats { IfOk result (λ u.
        All (HasLeft (shared_run C.gives lock.now)) seats.new.items) }
    ensures count { IfOk result (λ u. length seats.new.items
        ≡ length seats.old.items + length started.entry.items) }
{
    while let Some(thread) = started.pop() {
        let post = thread.join(rt);
        seats.push(run_to_end(rt, alloc, program, lock, post, clock, gate))?;
    }
    Ok(())
}

// Runs the carriers of these posts: each in a thread of the scope, as far as threads can be started, and the others in this one.
fn run_in_scope<
    's,
    'p: 's,
    'c: 's,
    E,
    R: Threads + Wait + Sync + 's,
    C: Clock + Sync + 's,
    G: Gate + Sync + 's,
>(
    scope: &Scope<'s, E>,
    rt: &'s R,
    alloc: Global,
    program: &'p ReadyProgram,
    lock: &'s MachineLock<'p, 'c, C>,
    posts: Vec<Post<'p>>,
    clock: &'s C,
    gate: &'s G,
    refused: &'s AtomicU64,
) -> Result<Vec<Seat>, NoMemory>
    requires posts { All (IsPost (shared_run C.gives lock.now)) posts.items }
    requires program { program.now ≡ lock.now.initial.machine.setting.world }
    requires clock { clock.now ≡ lock.now.initial.clock }
    ensures seats { IfOk result (λ v. All (HasLeft (shared_run C.gives lock.now)) v.items) }
    ensures count { IfOk result (λ v. length v.items ≡ length posts.entry.items) }
{
    let mut seats = Vec::with_capacity(alloc, posts.len())?;
    let (started, mut own) = start_all(
        scope, rt, alloc, program, lock, posts, clock, gate, refused,
    )?;
    run_rounds(rt, alloc, program, lock, &mut own, clock, gate);
    leave_all(rt, alloc, program, lock, own, &mut seats, clock, gate)?;
    join_all(rt, alloc, program, lock, started, &mut seats, clock, gate)?;
    Ok(seats)
}

/// Runs the carriers of these posts side by side until the run has ended: their seats. One has this thread, and each other one of its own.
/// Where a thread can't be started, this one makes a turn of that carrier, too, in each round of its own.
pub fn run_carriers<'p, 'c, R: Threads + Wait + Sync, C: Clock + Sync, G: Gate + Sync>(
    rt: &R,
    alloc: Global,
    program: &'p ReadyProgram,
    lock: &MachineLock<'p, 'c, C>,
    posts: Vec<Post<'p>>,
    clock: &C,
    gate: &G,
) -> Result<Vec<Seat>, NoMemory>
    requires posts { All (IsPost (shared_run C.gives lock.now)) posts.items }
    requires program { program.now ≡ lock.now.initial.machine.setting.world }
    requires clock { clock.now ≡ lock.now.initial.clock }
    ensures seats { IfOk result (λ v. All (HasLeft (shared_run C.gives lock.now)) v.items) }
    ensures count { IfOk result (λ v. length v.items ≡ length posts.entry.items) }
{
    let refused = AtomicU64::new(NO_CARRIER);
    thread::scope(
        thread::scope_env(),
        rt,
        |scope| -> Result<Vec<Seat>, NoMemory>
            requires { All (IsPost (shared_run C.gives lock.now)) posts.items
                × (program.now ≡ lock.now.initial.machine.setting.world)
                × (clock.now ≡ lock.now.initial.clock) }
            ensures { IfOk result (λ v. All (HasLeft (shared_run C.gives lock.entry.now)) v.items
                × (length v.items ≡ length posts.entry.items)) }
        {
            run_in_scope(
                scope, rt, alloc, program, lock, posts, clock, gate, &refused,
            )
        },
    )
}
