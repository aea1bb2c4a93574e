//! A worker that settles: from time to time, the values of the registers replace the records of the
//! first sections in its station's journal, up to the first gap.

ghost use Rattle.std.specs.Prelude.{◌≡◌, ◌≤◌, ◌↔◌, ℕ, length, IsTrue};
ghost use Rattle.mx_nodelaws.specs.Core.{IsInside};
ghost use Rattle.mx_stations.specs.Gathered.{KeepsTable};
ghost use Rattle.mx_stations.specs.Works.{IsDue, IsWithin, SettlesIfDue, Works, WorksAtMost, WorksFor, WorksSettling};

use crate::gate::Gate;
use crate::patience::Patience;
use crate::station::Station;
use crate::worker::{Script, Worked, WorkerState, is_finished, is_to_ask, take_turn};
use mx_letters::Fates;
use mx_nodelaws::Exclusion;

/// Does the work of `work`, and settles. The station settles at the end of a turn in which it left
/// a section, if `every` divides the number of sections that it has left. Then the values of the
/// registers replace the records of all sections before the first that its journal lacks. If
/// `every` is 0, the station never settles.
pub fn work_settling<C: Exclusion, G: Gate, F: Fates + Drop>(
    mut station: Station<C>,
    script: Script,
    every: u64,
    gate: &G,
    mut fates: F,
    turns: u64,
) -> (Station<C>, Worked)
    ensures works { WorksSettling C.core script.register every station result.0 }
    ensures never { every ≡ 0 → Works C.core script.register station result.0 }
    ensures most { WorksAtMost C.core script.register every turns station result.0 }
    ensures same { KeepsTable station result.0 }
    ensures node { result.0.me.node ≡ station.me.node }
    ensures within { IsWithin C.core script.sections station
        → IsWithin C.core script.sections result.0 }
    ensures done { result.1 ≡ Worked.Done → script.sections ≤ length result.0.me.receipts }
    ensures outside { result.1 ≡ Worked.Done → IsInside C.core result.0.me.member.core → ⊥ }
    ensures not_yet { (n : ℕ) → result.1 ≡ Worked.NotYet n
        → (n ≡ turns) × WorksFor C.core script.register every n station result.0 }
    ensures shut { result.1 ≡ Worked.GateShut → result.0 ≡ station }
{
    let worked = settle_on(&mut station, &script, every, gate, &mut fates, turns);
    (station, worked)
}

fn settle_on<C: Exclusion, G: Gate, F: Fates>(
    station: &mut Station<C>,
    script: &Script,
    every: u64,
    gate: &G,
    fates: &mut F,
    turns: u64,
) -> Worked
    ensures most { WorksAtMost C.core script.now.register every turns station.old station.new }
    ensures within { IsWithin C.core script.now.sections station.old
        → IsWithin C.core script.now.sections station.new }
    ensures done { result ≡ Worked.Done → script.now.sections ≤ length station.new.me.receipts }
    ensures outside { result ≡ Worked.Done → IsInside C.core station.new.me.member.core → ⊥ }
    ensures not_yet { (n : ℕ) → result ≡ Worked.NotYet n
        → (n ≡ turns) × WorksFor C.core script.now.register every n station.old station.new }
    ensures shut { result ≡ Worked.GateShut → station.new ≡ station.old }
{
    let node = station.node();
    if !gate.arrive(node) {
        return Worked::GateShut;
    }
    let mut stance = WorkerState {
        written: false,
        wanted: node,
        patience: Patience::new(),
    };
    for _turn in 0..turns {
        let before = station.receipts().len();
        take_turn(station, script, &mut stance, gate, fates);
        settle_if_due(station, before, every);
        if is_finished(station, script.sections) && gate.done(node) {
            return Worked::Done;
        }
        let asks = is_to_ask(station, script.sections);
        stance.patience.wait(station, gate, asks);
    }
    Worked::NotYet(turns)
}

/// Settles all sections before the first that the journal lacks, if that is due. It is due if the
/// station has more receipts than `before`, their number when the turn began, and `every` divides
/// their number now. If `every` is 0, it is never due. A worker calls this at the end of each of
/// its turns.
pub fn settle_if_due<C: Exclusion>(station: &mut Station<C>, before: usize, every: u64)
    ensures { SettlesIfDue C.core every before station.old station.new }
{
    if is_due(before, station.receipts().len(), every) {
        let upto = station.journal().gapless_to();
        let _ = station.settle(upto);
    }
}

fn is_due(before: usize, now: usize, every: u64) -> bool
    ensures { IsTrue result ↔ IsDue every before now }
{
    if every == 0 || now <= before {
        return false;
    }
    now as u64 % every == 0
}
