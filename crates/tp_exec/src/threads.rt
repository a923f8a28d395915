//! The threads of a run.
ghost use Rattle.std.specs.Prelude.{◌≡◌, ◌≢◌, ◌≤◌, [], All, IfErr, IfOk, IfSome, None};
ghost use Rattle.std.specs.Prelude.{length, map, vec_capacity};
ghost use Rattle.tp_play.specs.TestCases.{Made, behaviour_at};
ghost use Rattle.tp_exec.specs.Faults.{IsThreadFault};
ghost use Rattle.tp_exec.specs.Returns.{CanBegin, HasBehaved, HasReturned, IsBack, IsBusy};
ghost use Rattle.tp_exec.specs.Returns.{IsTaskOf, IsYetToBegin, identity_of, identities_of, worker_number};
ghost use Rattle.tp_exec.specs.Rounds.{ArePlayed, AreWorkers, HasNotBegun, workers_of};
ghost use Rattle.tp_exec.specs.Children.{IsChild, identity_at};

use crate::fault::RunFault;
use crate::played::Played;
use std::alloc::Global;
use std::snapshot::Snapshot;
use std::sync::{Arc, Wait};
use std::thread;
use std::thread::{Promise, PromisedHandle, Scope, Threads};
use tp_behaviour::behaving::behave;
use tp_behaviour::gate::Gate;
use tp_behaviour::outcome::Outcome;
use tp_behaviour::task::Task;
use tp_behaviour::worker::Worker;
use tp_common::memory::Memory;
use tp_config::port_type::CompId;
use tp_floor::floor::Floor;
use tp_inbox::owner::Closer;
use tp_play::test_case::TestCase;

/// The main test component is the first one.
const MTC: CompId = CompId(0);

/// The parts that all behaviours of a run share. It owns them: if a closure kept a struct of
/// references, the prover would know nothing of the closure where it is called.
#[derive(Drop)]
pub(crate) struct RunContext {
    pub(crate) alloc: Global,
    /// It counts the behaviours that live and those that wait.
    pub(crate) floor: Arc<Floor, Global>,
    pub(crate) closers: Vec<Closer>,
}

/// What a component's thread began with. Its clause says what the thread then returns.
#[derive(Drop)]
struct ThreadPromise {
    test_case: Snapshot<TestCase>,
    worker: Snapshot<Worker>,
}

impl Promise<Result<Played, Memory>> for ThreadPromise {
    ghost use Rattle.std.specs.Prelude.{IfOk};
    ghost use Rattle.tp_exec.specs.Returns.{IsBack};

    ghost kept_by = { λ p r. IfOk r (IsBack p.test_case.value p.worker.value) };
}

#[derive(Drop)]
enum Child {
    Running(PromisedHandle<Result<Played, Memory>, ThreadPromise>),
    /// `mtc`, which executes its behaviour in the calling thread once all others have been started.
    Here(Worker),
    /// It has nothing to do, and so no thread.
    Done(Played),
}

/// One behaviour has ended. If all others wait, nothing will wake them, so all inboxes are closed.
fn leave<R: Wait>(rt: &R, context: &RunContext) {
    if context.floor.leave(rt) {
        for closer in &context.closers {
            closer.close(rt);
        }
    }
}

fn task_of<'t>(test_case: &'t TestCase, context: &'t RunContext, comp: CompId) -> Task<'t>
    requires { behaviour_at test_case.now comp.0 ≢ None }
    ensures task { IsTaskOf test_case.now comp result }
    ensures closers { result.closers.now ≡ context.now.closers.items }
{
    let Some(behaviour) = test_case.body(comp) else {
        // It has a behaviour, by the condition.
        unreachable!();
    };
    Task {
        alloc: context.alloc,
        config: test_case.config(),
        types: test_case.types(),
        comp,
        behaviour,
        closers: context.closers.as_slice(),
    }
}

fn play<R: Wait, G: Gate>(
    rt: &R,
    gate: &G,
    task: &Task<'_>,
    worker: Worker,
) -> Result<Played, Memory>
    requires { CanBegin task.now worker }
    ensures { IfOk result (HasBehaved task.now worker) }
{
    let mut worker = worker;
    let outcome = behave(rt, gate, task, &mut worker)?;
    Ok(Played { worker, outcome })
}

/// The whole life of a component that has something to do. It leaves the floor however its
/// behaviour ended.
fn run_component<R: Wait, G: Gate>(
    rt: &R,
    gate: &G,
    test_case: &TestCase,
    context: &RunContext,
    worker: Worker,
) -> Result<Played, Memory>
    requires waiting { IsYetToBegin test_case.now worker }
    requires busy { IsBusy test_case.now worker }
    ensures { IfOk result (IsBack test_case.now worker) }
{
    let task = task_of(test_case, context, worker.desk.comp());
    let played = play(rt, gate, &task, worker);
    leave(rt, context);
    played
}

fn done_at_once(worker: Worker) -> Played
    ensures same { result.worker ≡ worker }
    ensures returned { (made : Made) → IsYetToBegin made worker →
        behaviour_at made (worker_number worker) ≡ None → HasReturned made result }
{
    Played {
        worker,
        outcome: Outcome::Done,
    }
}

/// Starts a component in a thread of its own, or finishes it at once if it has nothing to do. `mtc`
/// is left for the calling thread. `None` if the thread was refused: its behaviour has then ended,
/// and has left the floor.
fn start_component<'s, E, R: Wait + Sync, G: Gate>(
    rt: &'s R,
    scope: &Scope<'s, E>,
    gate: &'s G,
    test_case: &'s TestCase,
    context: &'s RunContext,
    worker: Worker,
) -> Option<Child>
    requires { IsYetToBegin test_case.now worker }
    ensures identity { IfSome result (λ child. identity_at child ≡ identity_of worker) }
    ensures child { IfSome result (IsChild test_case.now) }
{
    let comp = worker.desk.comp();
    if test_case.body(comp).is_none() {
        return Some(Child::Done(done_at_once(worker)));
    }
    if comp == MTC {
        return Some(Child::Here(worker));
    }
    let promise = ThreadPromise {
        test_case: Snapshot::of(test_case),
        worker: Snapshot::of(&worker),
    };
    let play = move || -> Result<Played, Memory>
        requires { IsYetToBegin test_case.now worker × IsBusy test_case.now worker }
        ensures { IfOk result (IsBack test_case.entry.now worker) }
    { run_component(rt, gate, test_case, context, worker) };
    let Ok(handle) = scope.spawn_with(promise, play) else {
        leave(rt, context);
        return None;
    };
    Some(Child::Running(handle))
}

fn join_child<R: Threads + Wait, G: Gate>(
    rt: &R,
    gate: &G,
    test_case: &TestCase,
    context: &RunContext,
    child: Child,
) -> Result<Played, Memory>
    requires { IsChild test_case.now child }
    ensures identity { IfOk result (λ p. identity_of p.worker ≡ identity_at child) }
    ensures returned { IfOk result (HasReturned test_case.now) }
{
    match child {
        Child::Running(handle) => handle.join(rt),
        Child::Here(worker) => run_component(rt, gate, test_case, context, worker),
        Child::Done(played) => Ok(played),
    }
}

/// Executes `mtc`, and joins all threads, even if one returns 50 `Memory`, which is then the
/// result. Puts the components into `list`, in their order. `mtc` is the first, as the others may
/// wait for its messages. The list isn't allocated here.
fn join_all<R: Threads + Wait, G: Gate>(
    rt: &R,
    gate: &G,
    test_case: &TestCase,
    context: &RunContext,
    list: Vec<Played>,
    children: Vec<Child>,
) -> Result<Vec<Played>, RunFault>
    requires empty { list.items ≡ [] }
    requires space { length children.items ≤ vec_capacity list }
    requires children { All (IsChild test_case.now) children.items }
    ensures identities { IfOk result (λ back.
        identities_of back.items ≡ map identity_at children.items) }
    ensures returned { IfOk result (λ back. All (HasReturned test_case.now) back.items) }
    ensures fault { IfErr result IsThreadFault }
{
    let mut back = list;
    let mut is_out_of_memory = false;
    for child in children {
        match join_child(rt, gate, test_case, context, child) {
            Ok(played) => back.push_reserved(played),
            // The others are joined all the same: a thread that isn't joined may be cut off.
            Err(Memory) => is_out_of_memory = true,
        }
    }
    if is_out_of_memory {
        return Err(RunFault::Memory);
    }
    Ok(back)
}

fn play_each<R: Threads + Wait + Sync, G: Gate>(
    rt: &R,
    gate: &G,
    test_case: &TestCase,
    context: &RunContext,
    workers: Vec<Worker>,
) -> Result<Vec<Played>, RunFault>
    requires { All (IsYetToBegin test_case.now) workers.items }
    ensures identities { IfOk result (λ back.
        identities_of back.items ≡ map identity_of workers.items) }
    ensures returned { IfOk result (λ back. All (HasReturned test_case.now) back.items) }
    ensures fault { IfErr result IsThreadFault }
{
    thread::scope(
        thread::scope_env(),
        rt,
        |scope| -> Result<Vec<Played>, RunFault>
            requires { All (IsYetToBegin test_case.now) workers.items }
            ensures identities { IfOk result (λ back.
                identities_of back.items ≡ map identity_of workers.items) }
            ensures returned { IfOk result (λ back.
                All (HasReturned test_case.entry.now) back.items) }
            ensures fault { IfErr result IsThreadFault }
        {
            let count = workers.len();
            let (Ok(back), Ok(mut children)) = (
                Vec::with_capacity(context.alloc, count),
                Vec::with_capacity(context.alloc, count),
            ) else {
                return Err(RunFault::Memory);
            };
            let mut refused = false;
            for worker in workers {
                // A thread keeps what it is lent, so each is lent copies of these references.
                let (rt, gate, test_case, context) = (rt, gate, test_case, context);
                match start_component(rt, scope, gate, test_case, context, worker) {
                    Some(child) => children.push_reserved(child),
                    None => refused = true,
                }
            }
            let joined = join_all(rt, gate, test_case, context, back, children);
            // 51 takes precedence over the 50 of another behaviour.
            if refused {
                return Err(RunFault::NoThread);
            }
            joined
        },
    )
}

/// A test system interface without `sut` has no thread. If a thread is refused, its behaviour
/// counts as ended, and the others go on to their ends.
pub(crate) fn play_all<R: Threads + Wait + Sync, G: Gate>(
    rt: &R,
    gate: &G,
    test_case: &TestCase,
    context: &RunContext,
    workers: Vec<Worker>,
) -> Result<Vec<Played>, RunFault>
    requires workers { AreWorkers test_case.now.config workers.items }
    requires begun { All HasNotBegun workers.items }
    ensures workers { IfOk result (λ played.
        AreWorkers test_case.now.config (workers_of played.items)) }
    ensures played { IfOk result (λ played. ArePlayed test_case.now played.items) }
    ensures fault { IfErr result IsThreadFault }
{
    play_each(rt, gate, test_case, context, workers)
}
