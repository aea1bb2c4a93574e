//! One event of a cluster: a parcel reaches its addressee, or a node does something by itself.

ghost use Rattle.std.specs.Prelude.{◌≡◌, ◌^◌, ◌≤◌, ◌<◌, ℕ, List, [], ◌∷◌, ◌++◌, length, IfErr, IfOk, IsSome, OnErr, OnOk, vec_len, vec_capacity};
ghost use Rattle.mx_stamps.specs.declared.limits.TheConstants.{MAX_REGISTERS, MAX_SECTIONS};
ghost use Rattle.mx_stamps.specs.Lists.{each_below};
ghost use Rattle.mx_journal.specs.declared.receipts.Receipt.{Receipt as OneReceipt};
ghost use Rattle.mx_letters.specs.declared.outbox.TheConstants.{OUTBOX_ROOM};
ghost use Rattle.mx_member.specs.Member.{BringsUnknown};
ghost use Rattle.mx_member.specs.Steps.{IsTakeable, start_of};
ghost use Rattle.mx_member.specs.declared.acts.Act.TheVariants.{Deliver, Leave};
ghost use Rattle.mx_network.specs.Step.{own_act, own_node, step_of, IsByItself, IsFaultOf, IsStep, NotesAct};

use crate::cluster::Cluster;
use crate::faults::StepFault;
use crate::outcome::{asked, cancelled, entered, read, settled, written};
use crate::parcel_log::ParcelLog;
use mx_events::Event;
use mx_journal::Receipt;
use mx_letters::{OUTBOX_ROOM, Outbox};
use mx_member::{CloseFault, Member, Parcel};
use mx_nodelaws::Exclusion;
use mx_stamps::NodeId;
use mx_trace::{Boxed, Cause, Entry, Outcome};
use std::alloc::{AllocError, Global};

impl<C: Exclusion> Cluster<C> {
    pub(crate) fn apply(&mut self, event: Event) -> Result<(), StepFault>
        ensures { IsStep C.core event self.old self.new result }
    {
        match event {
            Event::Deliver(number) => self.deliver(number),
            _ => self.act(&event),
        }
    }

    /// Applies an event as `apply` does. Before an exit, allocates a box for a copy of its receipt.
    pub(crate) fn apply_with_room(
        &mut self,
        event: Event,
    ) -> Result<Option<Boxed<Receipt>>, StepFault>
        ensures ok { OnOk result (step_of C.core self.old event ≡ Ok self.new) }
        ensures fault { IfErr result (IsFaultOf (step_of C.core self.old event)) }
        ensures err { OnErr result (self.new ≡ self.old) }
        ensures room { IfOk result (λ room. (receipt : OneReceipt) → self.new.trace
            ≡ self.old.trace ++ (record { event = event; outcome = Outcome.Left receipt }) ∷ []
            → IsSome room) }
    {
        let room = self.room_for(&event)?;
        match self.apply(event) {
            Ok(()) => Ok(room),
            Err(fault) => Err(fault),
        }
    }

    /// An exit of a node that is not there gets no box, so its fault is named even without memory.
    fn room_for(&self, event: &Event) -> Result<Option<Boxed<Receipt>>, AllocError>
        ensures some { IfOk result (λ room. (node : ℕ) → event.now ≡ Event.Leave node →
            node < length self.now.members → IsSome room) }
        ensures err { OnErr result (IsFaultOf (step_of C.core self.now event.now) StepFault.Memory) }
    {
        match event {
            Event::Leave(node) if (node.get() as usize) < self.members.len() => {
                Ok(Some(Boxed::new(*self.trace.allocator(), Receipt::default())?))
            }
            _ => Ok(None),
        }
    }

    fn deliver(&mut self, number: u64) -> Result<(), StepFault>
        ensures { IsStep C.core (Event.Deliver number) self.old self.new result }
    {
        let room = reserve(&mut self.parcel_log, &mut self.trace);
        match self.parcel_log.get(number) {
            Some(found) => {
                room?;
                let to = found.to;
                let index = to.get() as usize;
                take_and_note(
                    &mut self.members[index],
                    number,
                    found.from,
                    found.parcel,
                    &mut self.out,
                    &mut self.trace,
                )?;
                self.parcel_log.send_all(to, &mut self.out);
                Ok(())
            }
            None => Err(StepFault::NoParcel),
        }
    }

    fn act(&mut self, event: &Event) -> Result<(), StepFault>
        requires { IsByItself event.now }
        ensures { IsStep C.core event.now self.old self.new result }
    {
        let node = node_of(self.members.len(), event)?;
        let index = node.get() as usize;
        if index >= self.members.len() {
            return Err(StepFault::NoNode);
        }
        reserve(&mut self.parcel_log, &mut self.trace)?;
        do_and_note(
            &mut self.members[index],
            event,
            &mut self.out,
            &mut self.trace,
        )?;
        self.parcel_log.send_all(node, &mut self.out);
        Ok(())
    }
}

pub(crate) fn start_members<C: Exclusion>(
    alloc: Global,
    shape: &C::Shape,
    origin: u64,
    limit: u64,
    registers: u8,
) -> Result<Vec<Member<C>>, AllocError>
    requires low { 0 < limit }
    requires high { limit ≤ MAX_SECTIONS }
    requires some { 0 < registers }
    requires few { registers ≤ MAX_REGISTERS }
    ensures members { IfOk result (λ members. members.items
        ≡ each_below (λ i. start_of C.core shape.now i origin limit registers)
        (C.core.count shape.now)) }
    ensures valid { C.IsShape shape.now }
    ensures in_range { origin < 2 ^ 64 }
{
    let mut members = Vec::new(alloc);
    for i in 0..C::nodes(shape) {
        if let Some(me) = NodeId::of(i) {
            members.push(Member::start(alloc, shape, me, origin, limit, registers))?;
        }
    }
    Ok(members)
}

fn node_of(nodes: usize, event: &Event) -> Result<NodeId, StepFault>
    ensures { result ≡ own_node nodes event.now }
{
    match event {
        Event::Want(_, other) if other.get() as usize >= nodes => Err(StepFault::NoNode),
        // a delivery names no node: it is an event of the parcel's addressee
        _ => event.node().ok_or(StepFault::NoParcel),
    }
}

/// An event adds at most the parcels of a full outbox, and an item of the trace.
fn reserve<C: Exclusion>(
    parcel_log: &mut ParcelLog<C>,
    trace: &mut Vec<Entry>,
) -> Result<(), AllocError>
    ensures sent { parcel_log.new.sent ≡ parcel_log.old.sent }
    ensures trace { trace.new.items ≡ trace.old.items }
    ensures room { OnOk result (OUTBOX_ROOM ≤ parcel_log.new.room) }
    ensures item { OnOk result (vec_len trace.new < vec_capacity trace.new) }
{
    trace.reserve(1)?;
    parcel_log.reserve(OUTBOX_ROOM)
}

fn take_and_note<C: Exclusion>(
    member: &mut Member<C>,
    number: u64,
    from: NodeId,
    parcel: &Parcel<C::Msg>,
    out: &mut Outbox<Parcel<C::Msg>>,
    trace: &mut Vec<Entry>,
) -> Result<(), AllocError>
    requires empty { out.old ≡ [] }
    requires takeable { IsTakeable from parcel.now member.old }
    requires room { vec_len trace.old < vec_capacity trace.old }
    ensures ok { OnOk result (NotesAct C.core (Event.Deliver number) (Deliver from parcel.now)
        member.old trace.old.items member.new out.new trace.new.items) }
    ensures memory { OnErr result (BringsUnknown parcel.now member.old.journal) }
    ensures err { OnErr result ((member.new ≡ member.old) × (out.new ≡ [])
        × (trace.new.items ≡ trace.old.items)) }
{
    match member.receive(from, parcel, out) {
        Ok(()) => {
            note(trace, &Event::Deliver(number), Outcome::Delivered);
            Ok(())
        }
        // the member can take the parcel: the sender is no stranger, and nothing leads to a
        // conflict
        Err(_) => Err(AllocError),
    }
}

fn do_and_note<C: Exclusion>(
    member: &mut Member<C>,
    event: &Event,
    out: &mut Outbox<Parcel<C::Msg>>,
    trace: &mut Vec<Entry>,
) -> Result<(), AllocError>
    requires empty { out.old ≡ [] }
    requires itself { IsByItself event.now }
    requires room { vec_len trace.old < vec_capacity trace.old }
    ensures ok { OnOk result (NotesAct C.core event.now (own_act event.now)
        member.old trace.old.items member.new out.new trace.new.items) }
    ensures err { OnErr result ((member.new ≡ member.old) × (out.new ≡ [])
        × (trace.new.items ≡ trace.old.items)) }
{
    match *event {
        Event::Ask(_) => note(trace, event, asked(member.ask(out))),
        Event::Enter(_) => note(trace, event, entered(member.enter())),
        Event::Read(_, register) => note(trace, event, read(member.read(register))),
        Event::Write(_, register, value) => {
            note(trace, event, written(member.write(register, value)))
        }
        Event::Leave(_) => leave_and_note(member, event, out, trace)?,
        Event::Cancel(_) => note(trace, event, cancelled(member.cancel(out))),
        Event::Settle(_, upto) => note(trace, event, settled(member.settle(upto))),
        Event::Tick(_) => {
            member.tick(out);
            note(trace, event, Outcome::Sent(out.len() as u64));
        }
        Event::Want(_, to) => {
            member.want(to, out);
            note(trace, event, Outcome::Sent(out.len() as u64));
        }
        Event::Restart(_) => {
            member.restart();
            note(trace, event, Outcome::Woken);
        }
        Event::Deliver(_) => unreachable!(),
    }
    Ok(())
}

fn leave_and_note<C: Exclusion>(
    member: &mut Member<C>,
    event: &Event,
    out: &mut Outbox<Parcel<C::Msg>>,
    trace: &mut Vec<Entry>,
) -> Result<(), AllocError>
    requires empty { out.old ≡ [] }
    requires room { vec_len trace.old < vec_capacity trace.old }
    ensures ok { OnOk result (NotesAct C.core event.now Leave
        member.old trace.old.items member.new out.new trace.new.items) }
    ensures err { OnErr result ((member.new ≡ member.old) × (out.new ≡ [])
        × (trace.new.items ≡ trace.old.items)) }
{
    let mut left = Boxed::new(*trace.allocator(), Receipt::default())?;
    match member.leave(out) {
        Ok(receipt) => {
            left.set(receipt);
            note(trace, event, Outcome::Left(left));
            Ok(())
        }
        Err(CloseFault::NotInside) => {
            note(trace, event, Outcome::Refused(Cause::NotInside));
            Ok(())
        }
        Err(CloseFault::Memory) => Err(AllocError),
    }
}

#[inline(always)]
fn note(trace: &mut Vec<Entry>, event: &Event, outcome: Outcome)
    requires { vec_len trace.old < vec_capacity trace.old }
    ensures { trace.new.items ≡ trace.old.items
        ++ (record { event = event.now; outcome = outcome }) ∷ [] }
{
    trace.push_reserved(Entry {
        event: *event,
        outcome,
    });
}

/// Returns the outcome of the newest item. The copy of a receipt goes into the box `room`.
pub(crate) fn newest(trace: &[Entry], room: Option<Boxed<Receipt>>) -> Outcome
    requires ends { (front : List Entry) × (entry : Entry) × (trace.now ≡ front ++ entry ∷ [])
        × ((receipt : OneReceipt) → entry.outcome ≡ Outcome.Left receipt → IsSome room) }
    ensures { (front : List Entry) (entry : Entry) → trace.now ≡ front ++ entry ∷ [] →
        result ≡ entry.outcome }
{
    trace[trace.len() - 1].outcome.copy_into(room)
}
