//! The threads of a run, which share one gate, and what they do.

ghost use Rattle.std.specs.Prelude.{◌≡◌, ◌<◌, ◌≤◌, ◌++◌, ◌∷◌, [], IfOk, length, vec_capacity};
ghost use Rattle.std.specs.List.{AllZip};

use crate::host::Host;
use crate::start_gate::StartGate;
use std::alloc::{AllocError, Global};
use std::marker::Model;
use std::rt::Clock;
use std::snapshot::Snapshot;
use std::sync::{Arc, Wait};
use std::thread;
use std::thread::{Promise, PromisedHandle, Threads};

/// The greatest number of times that a worker looks whether all have arrived at the gate.
const MAX_LOOKS: u64 = 100_000_000;

/// The work of one thread of a run, which leaves a `T`.
pub trait Work<T>: Drop {
    // the work may be done
    ghost able: { Self → Type 0 } = { λ work. Unit {0} };

    // the work may leave this
    ghost leads: { Self → T → Type 0 } = { λ work left. Unit {0} };

    /// Waits at the gate, and does the work. Does nothing if the gate is shut.
    fn run<R: Wait + Clock>(self, gate: &StartGate<R>) -> T
        requires { able self }
        ensures { leads self result };
}

/// Why a work got no thread.
#[derive(Clone, Copy, Debug, PartialEq, Eq)]
pub enum StartFault {
    /// Memory was refused.
    Memory,
    /// A thread could not be started.
    NoThread,
}

/// The promise of a thread: it leaves what this work may leave.
#[derive(Drop)]
struct Doing<W> {
    work: Snapshot<W>,
}

impl<T, W: Work<T>> Promise<T> for Doing<W> {
    ghost kept_by = { λ doing left. W.leads doing.work.value left };
}

/// Where a work has begun.
#[derive(Drop)]
enum Place<T, W: Work<T>> {
    /// In a thread.
    Thread(PromisedHandle<T, Doing<W>>),
    /// In the thread that began it, at the shut gate. It left this.
    Here(T),
}

/// A work that has begun. A contract sees the work.
#[derive(Drop)]
struct Begun<T, W: Work<T>> {
    work: Snapshot<W>,
    place: Place<T, W>,
}

impl<T, W: Work<T>> Model for Begun<T, W> {
    ghost use Rattle.mx_jobs.specs.Groups.{IsOf};

    ghost Value = { W };

    ghost view = { λ begun. begun.work.value };

    ghost invariant = { λ begun. IsOf W.leads begun.work.value begun.place };
}

impl<T, W: Work<T>> Begun<T, W> {
    fn join<R: Threads>(self, rt: &R) -> T
        ensures { W.leads self result }
    {
        let Begun { work: _, place } = self;
        match place {
            Place::Thread(handle) => handle.join(rt),
            Place::Here(left) => left,
        }
    }
}

/// The threads of a run, which share one gate. A contract sees the works that have begun, in order,
/// and how many may begin in all.
#[derive(Drop)]
pub struct ThreadGroup<T, W: Work<T>, R> {
    gate: Arc<StartGate<R>, Global>,
    room: usize,
    begun: Vec<Begun<T, W>>,
    /// Room for what all works leave.
    lefts: Vec<T>,
    /// Why a work got no thread. The gate is shut then.
    fault: Option<StartFault>,
}

impl<T, W: Work<T>, R> Model for ThreadGroup<T, W, R> {
    ghost use Rattle.std.specs.Prelude.{◌≡◌, ◌≤◌, [], length, vec_capacity};
    ghost use Rattle.mx_jobs.specs.Groups.{Group};

    ghost Value = { Group W };

    ghost view = { λ group. record {
      room = group.room;
      works = group.begun.items;
    } };

    ghost invariant = { λ group. (length group.begun.items ≤ group.room)
        × (group.room ≤ vec_capacity group.begun) × (group.room ≤ vec_capacity group.lefts)
        × (group.lefts.items ≡ []) };
}

impl<T: Send + Drop + 'static, W: Work<T> + Send + 'static, R: Host> ThreadGroup<T, W, R> {
    /// Creates a group without threads, with a gate for this number of nodes, and with room for
    /// `room` works.
    pub fn new(rt: &R, alloc: Global, nodes: u8, room: usize) -> Result<Self, AllocError>
        requires { nodes < 22 }
        ensures { IfOk result (λ group. group ≡ record { room = room; works = [] }) }
    {
        let begun = Vec::with_capacity(alloc, room)?;
        let lefts = Vec::with_capacity(alloc, room)?;
        let gate = Arc::new(alloc, StartGate::new(*rt, nodes, MAX_LOOKS))?;
        Ok(ThreadGroup {
            gate,
            room,
            begun,
            lefts,
            fault: None,
        })
    }

    /// Begins a work in a thread. If memory or a thread is refused, the gate is shut, and the work
    /// is run in the calling thread. It returns at once there, as do all other works.
    pub fn start(&mut self, rt: &R, work: W)
        requires able { W.able work }
        requires room { length self.old.works < self.old.room }
        ensures { self.new ≡ record {
          room = self.old.room;
          works = self.old.works ++ work ∷ [];
        } }
    {
        let begun = self.begin(rt, work);
        self.begun.push_reserved(begun);
    }

    fn begin(&mut self, rt: &R, work: W) -> Begun<T, W>
        requires { W.able work }
        ensures begun { result ≡ work }
        ensures same { self.new ≡ self.old }
    {
        let of = Snapshot::of(&work);
        let Ok(share) = Arc::try_clone(&self.gate) else {
            self.refuse(StartFault::Memory);
            let place = Place::Here(work.run(&*self.gate));
            return Begun { work: of, place };
        };
        let doing = Doing {
            work: Snapshot::of(&work),
        };
        let started = thread::spawn_with(
            rt,
            doing,
            move || -> T
                requires { W.able work }
                ensures { W.leads work result }
            { work.run(&*share) },
        );
        let place = match started {
            Ok(handle) => Place::Thread(handle),
            Err(refused) => {
                self.refuse(StartFault::NoThread);
                Place::Here((refused.value)())
            }
        };
        Begun { work: of, place }
    }

    fn refuse(&mut self, fault: StartFault)
        ensures { self.new ≡ self.old }
    {
        self.gate.shut();
        self.fault = self.fault.or(Some(fault));
    }

    /// Waits until all works have ended. Returns what they left, in order, and why a work got no
    /// thread, if one got none.
    pub fn join(self, rt: &R) -> (Vec<T>, Option<StartFault>)
        ensures { AllZip W.leads self.works result.0.items }
    {
        let ThreadGroup {
            gate: _,
            room: _,
            mut begun,
            mut lefts,
            fault,
        } = self;
        while let Some(last) = begun.pop() {
            put_first(&mut lefts, last.join(rt));
        }
        (lefts, fault)
    }
}

impl<T, W: Work<T>, R> ThreadGroup<T, W, R> {
    /// Returns whether all threads have ended: each has a share of the gate until then.
    pub fn has_ended(&self) -> bool {
        Arc::strong_count(&self.gate) == 1
    }
}

pub(crate) fn put_first<T: Drop>(items: &mut Vec<T>, item: T)
    requires { length items.old.items < vec_capacity items.old }
    ensures items { items.new.items ≡ item ∷ items.old.items }
    ensures room { vec_capacity items.old ≤ vec_capacity items.new }
{
    let Ok(()) = items.insert(0, item) else {
        unreachable!();
    };
}
