//! Gathers the merged journal and the receipts of all stations of a table, while no node is inside.
//! All memory is allocated before seats are joined, so on an error the caller gets the stations
//! back unchanged.

ghost use Rattle.std.specs.Prelude.{ℕ, suc, ◌≡◌, ◌≤◌, ◌↔◌, ◌++◌, ◌⊎◌, Err, IfErr, IfNone, IfOk, IfSome, IsErrAnd, IsOk, IsTrue, MatchBool, OnOk};
ghost use Rattle.std.specs.List.Sorted.{IsNonDecreasingBy, IsPermutation};
ghost use Rattle.mx_journal.specs.Records.{Ascending};
ghost use Rattle.mx_journal.specs.declared.receipts.Receipt.{Receipt as OneReceipt};
ghost use Rattle.mx_nodelaws.specs.Core.{IsInside};
ghost use Rattle.mx_member.specs.Running.{IsJoinOfNodes};
ghost use Rattle.mx_stations.specs.Gathered.{Disagree, Has, HasInside, IsGathered, IsLeastInside, IsLeastMissing, IsQuiet, IsReady, IsTogether, IsWhole, Lacks, NotInside, OfOneTable, Refuses, nodes_in, owned_in, receipts_of};

use crate::station::Station;
use crate::together::join_all;
use mx_journal::{Journal, Receipt};
use mx_merge::{MergeFault, merge};
use mx_nodelaws::{Exclusion, Phase};
use mx_stamps::{MAX_NODES, NodeId};
use std::alloc::{AllocError, Global};
use thiserror::Error;

/// The merged journal and the receipts of all stations of a table.
#[derive(Drop)]
pub struct Gathered {
    /// The journal of all sections that were left, settled as far as any station has settled them.
    pub journal: Journal,
    /// The receipts of these sections, in order of number.
    pub receipts: Vec<Receipt>,
}

/// Why stations cannot be gathered.
#[derive(Clone, Copy, Debug, PartialEq, Eq, Error)]
pub enum GatherFault {
    /// Not all stations were passed: this is the least node whose station is missing (0 if none was
    /// passed).
    #[error("not all {}", .0.get())]
    NotAll(NodeId),
    /// A node is still inside: this is the least one.
    #[error("still inside {}", .0.get())]
    StillInside(NodeId),
    /// Memory ran out.
    #[error("out of memory")]
    Memory,
}

/// The stations that were not gathered, in the order in which they were passed, and why.
#[derive(Drop)]
pub struct Ungathered<C: Exclusion> {
    /// Why they were not gathered.
    pub fault: GatherFault,
    /// The stations, unchanged.
    pub stations: Vec<Station<C>>,
}

fn count_of<C: Exclusion>(stations: &[Station<C>]) -> u8
    ensures value { result ≡ nodes_in stations.now }
    ensures few { result ≤ MAX_NODES }
{
    match stations.first() {
        Some(station) => station.field.nodes,
        None => 1,
    }
}

fn is_of<C: Exclusion>(station: &Station<C>, node: NodeId) -> bool
    ensures { IsTrue result ↔ (station.now.me.node ≡ node) }
{
    station.node().get() == node.get()
}

fn has<C: Exclusion>(stations: &[Station<C>], node: NodeId) -> bool
    ensures { MatchBool result (Has stations.now node) (Lacks stations.now node) }
{
    for station in stations {
        if is_of(station, node) {
            return true;
        }
    }
    false
}

pub(crate) fn is_inside<C: Exclusion>(station: &Station<C>) -> bool
    ensures { IsTrue result ↔ IsInside C.core station.now.me.member.core }
{
    matches!(station.phase(), Phase::Inside(_))
}

fn has_inside<C: Exclusion>(stations: &[Station<C>], node: NodeId) -> bool
    ensures { MatchBool result (HasInside C.core stations.now node)
        (NotInside C.core stations.now node) }
{
    for station in stations {
        if is_of(station, node) && is_inside(station) {
            return true;
        }
    }
    false
}

fn least_missing<C: Exclusion>(stations: &[Station<C>]) -> Option<NodeId>
    ensures some { IfSome result (λ i. IsLeastMissing stations.now i) }
    ensures none { IfNone result (IsWhole stations.now) }
{
    for index in 0..count_of(stations) {
        let Some(node) = NodeId::of(index) else {
            unreachable!();
        };
        if !has(stations, node) {
            return Some(node);
        }
    }
    None
}

fn least_inside<C: Exclusion>(stations: &[Station<C>]) -> Option<NodeId>
    ensures some { IfSome result (λ i. IsLeastInside C.core stations.now i) }
    ensures none { IfNone result (IsQuiet C.core stations.now) }
{
    for index in 0..count_of(stations) {
        let Some(node) = NodeId::of(index) else {
            unreachable!();
        };
        if has_inside(stations, node) {
            return Some(node);
        }
    }
    None
}

fn fault_of<C: Exclusion>(stations: &[Station<C>]) -> Option<GatherFault>
    ensures some { IfSome result (λ fault. Refuses C.core stations.now fault) }
    ensures none { IfNone result (IsReady C.core stations.now) }
{
    if let Some(node) = least_missing(stations) {
        return Some(GatherFault::NotAll(node));
    }
    if let Some(node) = least_inside(stations) {
        return Some(GatherFault::StillInside(node));
    }
    None
}

fn merge_all<C: Exclusion>(alloc: Global, stations: &[Station<C>]) -> Result<Journal, MergeFault>
    ensures join { IfOk result (λ journal. IsJoinOfNodes (owned_in stations.now) journal) }
    ensures ordered { IfOk result (λ journal.
        Ascending (suc journal.base.upto) journal.records) }
    ensures conflict { (n : ℕ) → (result ≡ Err (MergeFault.Conflict n))
        → Disagree (owned_in stations.now) }
{
    let mut all = Journal::new(alloc);
    for station in stations {
        merge(&mut all, station.journal())?;
    }
    Ok(all)
}

fn add_copies(all: &mut Vec<Receipt>, receipts: &[Receipt]) -> Result<(), AllocError>
    ensures { OnOk result (all.new.items ≡ all.old.items ++ receipts.now) }
{
    for receipt in receipts {
        all.push(receipt.copy())?;
    }
    Ok(())
}

fn sorted_receipts<C: Exclusion>(
    alloc: Global,
    stations: &[Station<C>],
) -> Result<Vec<Receipt>, AllocError>
    ensures each { IfOk result (λ all. IsPermutation (receipts_of stations.now) all.items) }
    ensures sorted { IfOk result (λ all.
        IsNonDecreasingBy (λ (r : OneReceipt). r.number) all.items) }
{
    let mut all = Vec::new(alloc);
    for station in stations {
        add_copies(&mut all, station.receipts())?;
    }
    all.sort_unstable_by_key(|receipt| receipt.number);
    Ok(all)
}

/// Returns the merged journal and the sorted receipts of the stations. Journals never conflict, but
/// the proof knows this only once the seats are joined.
fn put_together<C: Exclusion>(
    alloc: Global,
    stations: &[Station<C>],
) -> Result<Gathered, MergeFault>
    ensures ok { IfOk result (λ all.
        IsTogether stations.now all.journal all.receipts.items) }
    ensures conflict { (n : ℕ) → (result ≡ Err (MergeFault.Conflict n))
        → Disagree (owned_in stations.now) }
{
    let journal = merge_all(alloc, stations)?;
    let receipts = sorted_receipts(alloc, stations)?;
    Ok(Gathered { journal, receipts })
}

/// Gathers the stations of one table: returns the receipts of all sections that were left, in
/// order, and the journal of these sections. It needs the stations of all nodes, in any order.
/// Parcels that were not delivered are dropped with the table.
///
/// # Errors
///
/// Returns the stations with `NotAll` and the least node without a station, with `StillInside` and
/// the least node inside, or with `Memory` if memory runs out.
pub fn gather<C: Exclusion>(
    alloc: Global,
    stations: Vec<Station<C>>,
) -> Result<Gathered, Ungathered<C>>
    requires { OfOneTable stations.items }
    ensures ok { IfOk result (λ all.
        IsGathered stations.items all.journal all.receipts.items) }
    ensures merged { IfOk result (λ all.
        IsJoinOfNodes (owned_in stations.items) all.journal) }
    ensures not_all { (i : ℕ) → IsErrAnd result (λ back. back.fault ≡ GatherFault.NotAll i)
        ↔ IsLeastMissing stations.items i }
    ensures still_inside { (i : ℕ) →
        IsErrAnd result (λ back. back.fault ≡ GatherFault.StillInside i)
        ↔ (IsWhole stations.items × IsLeastInside C.core stations.items i) }
    ensures ready { (IsOk result ⊎ IsErrAnd result (λ back. back.fault ≡ GatherFault.Memory))
        ↔ IsReady C.core stations.items }
    ensures kept { IfErr result (λ back. back.stations.items ≡ stations.items) }
{
    if let Some(fault) = fault_of(stations.as_slice()) {
        return Err(Ungathered { fault, stations });
    }
    match put_together(alloc, stations.as_slice()) {
        Ok(gathered) => {
            join_all(stations);
            Ok(gathered)
        }
        Err(MergeFault::Memory) => Err(Ungathered {
            fault: GatherFault::Memory,
            stations,
        }),
        Err(MergeFault::Conflict(_)) => {
            join_all(stations);
            unreachable!()
        }
    }
}
