//! A worker: it takes a station through sections, and in each of them adds 1 to a register.

ghost use Rattle.std.specs.Prelude.{◌≡◌, ◌<◌, ◌≤◌, ◌↔◌, ℕ, length, IsTrue};
ghost use Rattle.mx_nodelaws.specs.Core.{IsInside};
ghost use Rattle.mx_stations.specs.Gathered.{KeepsTable};
ghost use Rattle.mx_stations.specs.Works.{IsWithin, MayLeave, Serves, TakesTurn, Works, WorksAtMost, WorksFor};

use crate::collection::is_inside;
use crate::gate::Gate;
use crate::patience::Patience;
use crate::settlement::work_settling;
use crate::station::Station;
use mx_letters::Fates;
use mx_member::ReadFault;
use mx_nodelaws::{Exclusion, Phase};
use mx_stamps::NodeId;

/// The task of a worker: to add 1 to this register, in a given number of sections.
#[derive(Clone, Copy, Debug, PartialEq, Eq)]
pub struct Script {
    /// The number of the register.
    pub register: u8,
    /// The number of sections.
    pub sections: u64,
}

/// How a worker ended.
#[derive(Clone, Copy, Debug, PartialEq, Eq)]
pub enum Worked {
    /// The station has left all its sections, and the gate let the worker stop.
    Done,
    /// The worker made all its turns, of this number, before it could stop.
    NotYet(u64),
    /// The gate did not let the worker start.
    GateShut,
}

/// The progress of a worker: whether it has written in its section, the node that it asked last for
/// missing records, and its patience between two turns.
#[derive(Drop)]
pub(crate) struct WorkerState {
    pub(crate) written: bool,
    pub(crate) wanted: NodeId,
    pub(crate) patience: Patience,
}

/// Waits at the gate, then takes the station through the sections of `script`, in at most `turns`
/// turns.
///
/// In each turn the acts that are due come first. The node asks if it is idle and has sections to
/// make, and enters if it can. Inside, it reads the register and writes 1 more, or asks the next
/// node in cyclic order for records that its journal lacks. It leaves once it has written. Then the
/// station takes a turn, in which parcels have these fates.
///
/// A station that starts idle leaves no more sections than the script says, unless it had left more
/// before. The worker waits only in the gate and, a bounded number of times, between turns. The
/// station must not be inside at the start. If the register does not exist, the worker never leaves
/// its first section.
pub fn work<C: Exclusion, G: Gate, F: Fates + Drop>(
    station: Station<C>,
    script: Script,
    gate: &G,
    fates: F,
    turns: u64,
) -> (Station<C>, Worked)
    ensures works { Works C.core script.register station result.0 }
    ensures most { WorksAtMost C.core script.register 0 turns station result.0 }
    ensures same { KeepsTable station result.0 }
    ensures node { result.0.me.node ≡ station.me.node }
    ensures within { IsWithin C.core script.sections station
        → IsWithin C.core script.sections result.0 }
    ensures done { result.1 ≡ Worked.Done → script.sections ≤ length result.0.me.receipts }
    ensures outside { result.1 ≡ Worked.Done → IsInside C.core result.0.me.member.core → ⊥ }
    ensures not_yet { (n : ℕ) → result.1 ≡ Worked.NotYet n
        → (n ≡ turns) × WorksFor C.core script.register 0 n station result.0 }
    ensures shut { result.1 ≡ Worked.GateShut → result.0 ≡ station }
{
    work_settling(station, script, 0, gate, fates, turns)
}

pub(crate) fn is_finished<C: Exclusion>(station: &Station<C>, sections: u64) -> bool
    ensures enough { IsTrue result → sections ≤ length station.now.me.receipts }
    ensures outside { IsTrue result → IsInside C.core station.now.me.member.core → ⊥ }
{
    if is_inside(station) {
        return false;
    }
    has_sections(station, sections)
}

fn has_sections<C: Exclusion>(station: &Station<C>, sections: u64) -> bool
    ensures { IsTrue result ↔ (sections ≤ length station.now.me.receipts) }
{
    station.receipts().len() as u64 >= sections
}

/// A turn in which memory runs out counts too.
pub(crate) fn take_turn<C: Exclusion, G: Gate, F: Fates>(
    station: &mut Station<C>,
    script: &Script,
    stance: &mut WorkerState,
    gate: &G,
    fates: &mut F,
)
    ensures turn { TakesTurn C.core script.now.register station.old station.new }
    ensures within { IsWithin C.core script.now.sections station.old
        → IsWithin C.core script.now.sections station.new }
{
    ask_if_due(station, script.sections);
    enter_if_due(station);
    add_if_due(station, script.register, stance);
    leave_if_due(station, stance);
    stance.patience.before_turn(station, gate);
    let report = station.turn(fates);
    stance.patience.after_turn(station, gate, &report);
}

pub(crate) fn is_to_ask<C: Exclusion>(station: &Station<C>, sections: u64) -> bool
    ensures { IsTrue result → length station.now.me.receipts < sections }
{
    if has_sections(station, sections) {
        return false;
    }
    matches!(station.phase(), Phase::Idle)
}

fn ask_if_due<C: Exclusion>(station: &mut Station<C>, sections: u64)
    ensures { (register : ℕ) → Serves C.core register sections station.old station.new }
{
    if is_to_ask(station, sections) {
        let _ = station.ask();
    }
}

fn enter_if_due<C: Exclusion>(station: &mut Station<C>)
    ensures { (register most : ℕ) → Serves C.core register most station.old station.new }
{
    if station.can_enter() {
        let _ = station.enter();
    }
}

fn add_if_due<C: Exclusion>(station: &mut Station<C>, register: u8, stance: &mut WorkerState)
    ensures { (most : ℕ) → Serves C.core register most station.old station.new }
{
    if stance.written || !is_inside(station) {
        return;
    }
    match station.read(register) {
        Ok(value) => {
            stance.written = station.write(register, value.wrapping_add(1)).is_ok();
        }
        Err(ReadFault::Gap(_)) => want_next(station, stance),
        Err(
            ReadFault::NotInside | ReadFault::NoRegister | ReadFault::Full | ReadFault::Settled(_),
        ) => {}
    }
}

fn want_next<C: Exclusion>(station: &mut Station<C>, stance: &mut WorkerState)
    ensures { (register most : ℕ) → Serves C.core register most station.old station.new }
{
    let next = node_after(stance.wanted, station);
    station.want(next);
    stance.wanted = next;
}

fn node_after<C: Exclusion>(node: NodeId, station: &Station<C>) -> NodeId
    ensures { result < station.now.nodes }
{
    let own = station.node();
    match NodeId::of((node.get() + 1) % station.nodes()) {
        Some(next) => next,
        None => own,
    }
}

fn leave_if_due<C: Exclusion>(station: &mut Station<C>, stance: &mut WorkerState)
    ensures { MayLeave C.core station.old station.new }
{
    if stance.written && station.leave().is_ok() {
        stance.written = false;
    }
}
