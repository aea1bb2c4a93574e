//! The texts of faults.

use crate::given::node;
use mx_journal::{BaseFault, Full, PutFault, SettleFault};
use mx_member::{CloseFault, DeliverFault, ReadFault, WriteFault};
use mx_merge::MergeFault;
use mx_network::{RunFault, StepFault};
use mx_nodelaws::{AskFault, CancelFault, EnterFault, LeaveFault};
use mx_quorums::QuorumFault;
use mx_stations::GatherFault;
use mx_trees::TreeFault;
use std::alloc::Global;
use std::fmt::Display;

fn is_told<F: Display>(alloc: Global, fault: &F, text: &str) -> bool {
    match format!(in alloc; "{fault}") {
        Ok(told) => told.as_str() == text,
        Err(_) => false,
    }
}

fn are_told<F: Display>(alloc: Global, cases: &[(F, &str)]) -> bool {
    for (fault, text) in cases {
        if !is_told(alloc, fault, *text) {
            return false;
        }
    }
    true
}

const ASK: [(AskFault, &str); 2] = [
    (AskFault::NotIdle, "not idle"),
    (AskFault::StampsSpent, "stamps spent"),
];

const ENTER: [(EnterFault, &str); 3] = [
    (EnterFault::NotWaiting, "not waiting"),
    (EnterFault::NotGranted, "not granted"),
    (EnterFault::NumbersSpent, "numbers spent"),
];

const QUORUMS: [(QuorumFault, &str); 7] = [
    (QuorumFault::NoNodes, "no nodes"),
    (QuorumFault::TooMany, "too many"),
    (QuorumFault::EmptySet(1), "empty set 1"),
    (QuorumFault::Stranger(1, 200), "stranger 1 200"),
    (QuorumFault::NotOwnMember(3), "not own member 3"),
    (QuorumFault::Apart(0, 2), "apart 0 2"),
    (QuorumFault::NoPlane(8), "no plane 8"),
];

const TREES: [(TreeFault, &str); 6] = [
    (TreeFault::NoNodes, "no nodes"),
    (TreeFault::TooMany, "too many"),
    (TreeFault::BadEdge(1), "bad edge 1"),
    (TreeFault::WrongCount, "wrong count"),
    (TreeFault::NotJoined(2), "not joined 2"),
    (TreeFault::BadHolder, "bad holder"),
];

const PUT: [(PutFault, &str); 3] = [
    (PutFault::ZeroNumber, "a record bears the number 0"),
    (PutFault::Conflict(7), "another record bears 7"),
    (PutFault::Memory, "out of memory"),
];

const MERGE: [(MergeFault, &str); 2] = [
    (MergeFault::Conflict(7), "two records bear 7"),
    (MergeFault::Memory, "out of memory"),
];

const SETTLE: [(SettleFault, &str); 2] = [
    (SettleFault::Below(4), "sections up to 4 are settled"),
    (SettleFault::Gap(2), "no record bears 2"),
];

const READ: [(ReadFault, &str); 5] = [
    (ReadFault::NotInside, "not inside"),
    (ReadFault::NoRegister, "no register"),
    (ReadFault::Gap(3), "gap 3"),
    (ReadFault::Full, "full"),
    (ReadFault::Settled(3), "settled 3"),
];

const WRITE: [(WriteFault, &str); 3] = [
    (WriteFault::NotInside, "not inside"),
    (WriteFault::NoRegister, "no register"),
    (WriteFault::Full, "full"),
];

const CLOSE: [(CloseFault, &str); 2] = [
    (CloseFault::NotInside, "not inside"),
    (CloseFault::Memory, "out of memory"),
];

const DELIVER: [(DeliverFault, &str); 3] = [
    (DeliverFault::Stranger, "stranger"),
    (DeliverFault::Conflict(2), "conflict 2"),
    (DeliverFault::Memory, "out of memory"),
];

const STEP: [(StepFault, &str); 3] = [
    (StepFault::NoNode, "no node"),
    (StepFault::NoParcel, "no parcel"),
    (StepFault::Memory, "out of memory"),
];

const RUN: [(RunFault, &str); 1] = [(
    RunFault {
        index: 3,
        fault: StepFault::NoParcel,
    },
    "event 3: no parcel",
)];

const LEAVE: [(LeaveFault, &str); 1] = [(LeaveFault::NotInside, "not inside")];

const CANCEL: [(CancelFault, &str); 1] = [(CancelFault::NotWaiting, "not waiting")];

const BASE: [(BaseFault, &str); 1] = [(BaseFault::Conflict(3), "two bases differ at 3")];

const FULL: [(Full, &str); 1] = [(Full, "the draft is full")];

#[test]
fn faults_of_nodes_and_members_are_told(rt: HostRuntime) {
    let alloc = rt.alloc();
    assert!(rt; are_told(alloc, &ASK) && are_told(alloc, &ENTER));
    assert!(rt; are_told(alloc, &LEAVE) && are_told(alloc, &CANCEL));
    assert!(rt; are_told(alloc, &READ) && are_told(alloc, &WRITE));
    assert!(rt; are_told(alloc, &CLOSE) && are_told(alloc, &DELIVER));
    assert!(rt; are_told(alloc, &QUORUMS) && are_told(alloc, &TREES));
}

#[test]
fn faults_of_journals_and_clusters_are_told(rt: HostRuntime) {
    let alloc = rt.alloc();
    let gather = [
        (GatherFault::NotAll(node(0)), "not all 0"),
        (GatherFault::StillInside(node(20)), "still inside 20"),
        (GatherFault::Memory, "out of memory"),
    ];
    assert!(rt; are_told(alloc, &PUT) && are_told(alloc, &MERGE));
    assert!(rt; are_told(alloc, &SETTLE) && are_told(alloc, &BASE));
    assert!(rt; are_told(alloc, &FULL) && are_told(alloc, &gather));
    assert!(rt; are_told(alloc, &STEP) && are_told(alloc, &RUN));
}
