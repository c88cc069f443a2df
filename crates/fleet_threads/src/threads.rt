// A thread for each node of an epoch.
ghost use Rattle.std.specs.Prelude.{◌≡◌, ◌+◌, ◌≤◌, true, [], length, IfErr, IfOk};
ghost use Rattle.std.specs.List.{All};
ghost use Rattle.std.specs.Thread.{IsSync};
ghost use Rattle.fleet_threads.specs.Member.{IsUnderWay, IsBack, IsOver, numbers, all_looks};
ghost use Rattle.fleet_threads.specs.Nodes.{IsHanded, AreBegun, AreBack};

use crate::epoch::Epoch;
use crate::gate::Gate;
use crate::member::{Member, Sampling};
use crossbeam_utils::Backoff;
use neighbour_sync::{Session, Shared};
use node_runner::Scenario;
use std::marker::PhantomData;
use std::sync::Wait;
use std::sync::atomic::Ordering;
use std::thread;
use std::thread::{Promise, PromisedHandle, Scope, SpawnError, Threads};

/// That a thread hands back the node of this number, under way in this epoch of the scenario or at its end.
#[derive(Drop)]
pub struct HandsBack<'s, N: Session> {
    scenario: &'s Scenario,
    number: u8,
    end: u64,
    of: PhantomData<N>,
}

impl<'s, N: Session> Promise<Member> for HandsBack<'s, N> {
    ghost kept_by = { λ p r. IsHanded N.table N.world p.scenario.now N.floor p.end p.number r };
}

// Takes a node to the end of the epoch; at a sample it waits.
fn work<N: Session, R: Wait, G: Gate>(
    shared: &Shared<Scenario, N>,
    epoch: &Epoch<'_, R, G>,
    mut member: Member,
) -> Member
    requires { IsUnderWay N.table N.world epoch.now.scenario.now N.floor epoch.now.end member }
    ensures back { IsBack N.table N.world epoch.now.scenario.now N.floor epoch.now.end result }
    ensures number { result.runner.number ≡ member.runner.number }
{
    for _ in epoch.rt.forever() {
        if member.step(shared, epoch, Sampling::Waits) {
            return member;
        }
    }
    unreachable!()
}

// Takes a node to the end of the epoch, unless no thread was found for it: then it is handed back as it is. The node
// that was refused last is the one for which this is called where a thread was to be begun; those that have threads
// were never refused. No clause rests on it.
fn work_unless_refused<N: Session, R: Wait, G: Gate>(
    shared: &Shared<Scenario, N>,
    epoch: &Epoch<'_, R, G>,
    member: Member,
) -> Member
    requires { IsUnderWay N.table N.world epoch.now.scenario.now N.floor epoch.now.end member }
    ensures { IsHanded N.table N.world epoch.now.scenario.now N.floor epoch.now.end member.runner.number result }
{
    if epoch.refused.load(Ordering::SeqCst) == u64::from(member.number()) {
        return member;
    }
    work(shared, epoch, member)
}

// What one step of each node for which no thread was found came to.
#[derive(Clone, Copy)]
struct Progress {
    // All of them are over.
    over: bool,
    // One of them is not where it was. No clause rests on it.
    moved: bool,
}

// One step of each node for which no thread was found. None of them waits: all together look at the halt once each, at
// most.
fn round<N: Session, R: Wait, G: Gate>(
    shared: &Shared<Scenario, N>,
    epoch: &Epoch<'_, R, G>,
    waiting: &mut Vec<Member>,
) -> Progress
    requires { All (IsUnderWay N.table N.world epoch.now.scenario.now N.floor epoch.now.end) waiting.old.items }
    ensures all { All (IsUnderWay N.table N.world epoch.now.scenario.now N.floor epoch.now.end) waiting.new.items }
    ensures numbers { numbers waiting.new.items ≡ numbers waiting.old.items }
    ensures once { all_looks waiting.new.items ≤ all_looks waiting.old.items + length waiting.old.items }
    ensures over { result.over ≡ true → All (IsOver epoch.now.end) waiting.new.items }
{
    let mut over = true;
    let mut moved = false;
    for k in 0..waiting.len() {
        let stood = waiting[k].stands();
        if !waiting[k].step(shared, epoch, Sampling::Tries) {
            over = false;
        }
        moved |= waiting[k].stands() != stood;
    }
    Progress { over, moved }
}

// Between two rounds: where no node got on in the last one, a node that has a thread gets the processor.
fn back_off(backoff: &Backoff, moved: bool) {
    if moved {
        backoff.reset();
    } else {
        backoff.snooze();
    }
}

// Takes the nodes for which no thread was found to the end of the epoch, one event of each after the other. None of
// them waits at a sample, since it may be one of the others for which it would wait. Where none of them got on, they
// wait for a node that has a thread.
fn rotate<N: Session, R: Wait, G: Gate>(
    shared: &Shared<Scenario, N>,
    epoch: &Epoch<'_, R, G>,
    waiting: &mut Vec<Member>,
)
    requires { All (IsUnderWay N.table N.world epoch.now.scenario.now N.floor epoch.now.end) waiting.old.items }
    ensures all { All (IsBack N.table N.world epoch.now.scenario.now N.floor epoch.now.end) waiting.new.items }
    ensures numbers { numbers waiting.new.items ≡ numbers waiting.old.items }
{
    let backoff = Backoff::new();
    for _ in epoch.rt.forever() {
        let made = round(shared, epoch, waiting);
        if made.over {
            return;
        }
        back_off(&backoff, made.moved);
    }
    unreachable!()
}

// A thread of the scope for a node, unless the gate refuses it, or the system.
fn spawn<'s, E, G: Gate, P: Promise<T> + Drop, F: FnOnce() -> T + Send + 's, T: Send + Drop + 's>(
    scope: &Scope<'s, E>,
    gate: &G,
    node: u8,
    promise: P,
    job: F,
) -> Result<PromisedHandle<T, P>, SpawnError<F>>
    requires runs { F.pre job }
    requires keeps { (r : T) → F.post job r → P.kept_by promise r }
    ensures ok { IfOk result (λ h. h.promise ≡ promise) }
    ensures err { IfErr result (λ e. e.value ≡ job) }
{
    if gate.refuses(node) {
        return Err(SpawnError { value: job });
    }
    scope.spawn_with(promise, job)
}

// A thread that takes the node to the end of the epoch. Else the node comes back as it is: where it goes on no more in
// this epoch, so that a thread would only cost, and where none was found for it.
fn begin<'s, E, N: Session + Send + Sync, R: Threads + Wait + Sync, G: Gate + Sync>(
    scope: &Scope<'s, E>,
    shared: &'s Shared<Scenario, N>,
    epoch: &Epoch<'s, R, G>,
    member: Member,
) -> Result<PromisedHandle<Member, HandsBack<'s, N>>, Member>
    requires { IsUnderWay N.table N.world epoch.now.scenario.now N.floor epoch.now.end member }
    ensures thread { IfOk result (λ h. (h.promise.scenario.now ≡ epoch.now.scenario.now) × (h.promise.number ≡ member.runner.number) × (h.promise.end ≡ epoch.now.end)) }
    ensures node { IfErr result (IsHanded N.table N.world epoch.now.scenario.now N.floor epoch.now.end member.runner.number) }
{
    if !member.runner.is_live(epoch.end) {
        return Err(member);
    }
    let number = member.number();
    let promise: HandsBack<'s, N> = HandsBack {
        scenario: epoch.scenario,
        number,
        end: epoch.end,
        of: PhantomData,
    };
    // A closure that holds an `Epoch` has no clause that can be used here, so this one holds its parts.
    let (rt, gate, scenario, refused) = (epoch.rt, epoch.gate, epoch.scenario, epoch.refused);
    let (floor, end) = (epoch.floor, epoch.end);
    match spawn(
        scope,
        gate,
        number,
        promise,
        move || -> Member
            requires { IsUnderWay N.table N.world scenario.now N.floor end member }
            ensures { IsHanded N.table N.world scenario.entry.now N.floor end member.runner.number result }
        {
            let epoch = Epoch {
                rt,
                gate,
                scenario,
                refused,
                floor,
                end,
            };
            work_unless_refused(shared, &epoch, member)
        },
    ) {
        Ok(child) => Ok(child),
        Err(unstarted) => {
            epoch.refused.store(u64::from(number), Ordering::SeqCst);
            Err((unstarted.value)())
        }
    }
}

// Whether all other nodes have threads: none is left to be begun, and none was found no thread for.
fn is_alone(left: &[Member], waiting: &[Member]) -> bool
    ensures { result ≡ true → (left.now ≡ []) × (waiting.now ≡ []) }
{
    left.is_empty() && waiting.is_empty()
}

// Starts the last node, goes on with the others, and joins it. Where all but one have threads, this thread, which would
// only wait to join them, is that one's. Else those that have no thread are run here in turns. A node whose thread has
// taken it to the end of the epoch stays there when it is worked on once more. (That `R` and `G` may be shared is a
// condition, since the bounds of a function that calls itself are not told to its proof.)
fn run_from<'s, E, N: Session + Send + Sync, R: Threads + Wait + Sync, G: Gate + Sync>(
    scope: &Scope<'s, E>,
    shared: &'s Shared<Scenario, N>,
    epoch: &Epoch<'s, R, G>,
    members: &mut Vec<Member>,
    waiting: &mut Vec<Member>,
)
    requires shared { IsSync R.row × IsSync G.row }
    requires begun { AreBegun N.table N.world epoch.now.scenario.now N.floor epoch.now.end members.old waiting.old }
    ensures { AreBack N.table N.world epoch.now.scenario.now N.floor epoch.now.end members.old waiting.old members.new waiting.new }
{
    let Some(member) = members.pop() else {
        rotate(shared, epoch, waiting);
        return;
    };
    if is_alone(members, waiting) {
        members.push_reserved(work(shared, epoch, member));
        return;
    }
    match begin(scope, shared, epoch, member) {
        Ok(child) => {
            run_from(scope, shared, epoch, members, waiting);
            let handed = child.join(epoch.rt);
            members.push_reserved(work(shared, epoch, handed));
        }
        Err(member) => {
            waiting.push_reserved(member);
            run_from(scope, shared, epoch, members, waiting);
            let Some(last) = waiting.pop() else {
                unreachable!();
            };
            members.push_reserved(last);
        }
    }
}

/// Takes all nodes to the end of the epoch, each on a thread of its own. They come back in their order.
pub fn run_all<N: Session + Send + Sync, R: Threads + Wait + Sync, G: Gate + Sync>(
    shared: &Shared<Scenario, N>,
    epoch: &Epoch<'_, R, G>,
    members: Vec<Member>,
    waiting: Vec<Member>,
) -> Vec<Member>
    requires { AreBegun N.table N.world epoch.now.scenario.now N.floor epoch.now.end members waiting }
    ensures all { All (IsBack N.table N.world epoch.now.scenario.now N.floor epoch.now.end) result.items }
    ensures numbers { numbers result.items ≡ numbers members.items }
{
    let (rt, gate, scenario, refused) = (epoch.rt, epoch.gate, epoch.scenario, epoch.refused);
    let (floor, end) = (epoch.floor, epoch.end);
    // This closure too holds the parts, for the same cause as that of `begin`.
    thread::scope(
        thread::scope_env(),
        rt,
        move |scope| -> Vec<Member>
            requires shared { IsSync R.row × IsSync G.row }
            requires begun { AreBegun N.table N.world scenario.now N.floor end members waiting }
            ensures all { All (IsBack N.table N.world scenario.entry.now N.floor end) result.items }
            ensures numbers { numbers result.items ≡ numbers members.items }
        {
            let epoch = Epoch {
                rt,
                gate,
                scenario,
                refused,
                floor,
                end,
            };
            let mut members = members;
            let mut waiting = waiting;
            run_from(scope, shared, &epoch, &mut members, &mut waiting);
            members
        },
    )
}
