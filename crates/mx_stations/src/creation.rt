//! Creation of the stations of a table, one for each node.

ghost use Rattle.std.specs.Prelude.{◌≡◌, ◌≤◌, ◌<◌, ℕ, List, [], IfOk};
ghost use Rattle.std.specs.Arc.{arc_value};
ghost use Rattle.mx_member.specs.Steps.{start_of};
ghost use Rattle.mx_stations.specs.Opened.{AreFresh, starts_of};
ghost use Rattle.mx_stations.specs.Running.{all_of, fresh};

use crate::field::{Field, SeatOf};
use crate::node_set::NodeSet;
use crate::rule::{HandOn, Setup};
use crate::slots::SLOTS;
use crate::station::Station;
use arrayvec::ArrayVec;
use atomic_table::Table;
use mx_letters::Outbox;
use mx_member::Member;
use mx_nodelaws::Exclusion;
use mx_stamps::{MAX_NODES, MAX_REGISTERS, MAX_SECTIONS, NodeId};
use std::alloc::{AllocError, Global};
use std::sync::Arc;

impl<C: Exclusion> Field<C> {
    /// Creates idle stations, one for each node, in order, at one new table. The numbers of
    /// requests count on from `origin`, `limit` is the greatest section number, and `registers` the
    /// number of registers.
    ///
    /// # Errors
    ///
    /// Returns `AllocError` if memory runs out.
    pub fn stations(
        alloc: Global,
        shape: &C::Shape,
        origin: u64,
        limit: u64,
        registers: u8,
    ) -> Result<Vec<Station<C>>, AllocError>
        requires low { 0 < limit }
        requires high { limit ≤ MAX_SECTIONS }
        requires some { 0 < registers }
        requires few { registers ≤ MAX_REGISTERS }
        ensures { IfOk result (λ all. AreFresh (C.core.count shape.now)
            (λ i. start_of C.core shape.now i origin limit registers) all.items) }
    {
        let nodes = C::nodes(shape);
        let setup = Setup {
            nodes,
            shape: *shape,
            origin,
            limit,
            registers,
        };
        let count = nodes as usize;
        let slots = count * count * SLOTS as usize;
        let words = Vec::from_elem(alloc, 0u64, count + slots)?;
        let (board, seat) = Table::vacant(alloc, words.as_slice(), slots, &setup)?;
        let field = Arc::new(alloc, Field { board, nodes })?;
        let (all, _) = seat_all(alloc, &setup, field, seat)?;
        Ok(all)
    }
}

fn start_members<C: Exclusion>(
    alloc: Global,
    setup: &Setup<C::Shape>,
) -> Result<Vec<Member<C>>, AllocError>
    requires nodes { setup.now.nodes ≡ C.core.count setup.now.shape }
    requires named { setup.now.nodes ≤ MAX_NODES }
    requires low { 0 < setup.now.limit }
    requires high { setup.now.limit ≤ MAX_SECTIONS }
    requires some { 0 < setup.now.registers }
    requires few { setup.now.registers ≤ MAX_REGISTERS }
    ensures { IfOk result (λ all. all.items ≡ all_of setup.now.nodes (starts_of C.core setup.now)) }
{
    let mut members = Vec::new(alloc);
    for index in 0..setup.nodes {
        if let Some(me) = NodeId::of(index) {
            members.push(Member::start(
                alloc,
                &setup.shape,
                me,
                setup.origin,
                setup.limit,
                setup.registers,
            ))?;
        }
    }
    Ok(members)
}

/// Also returns the list of members, from which all were removed.
fn seat_all<C: Exclusion>(
    alloc: Global,
    setup: &Setup<C::Shape>,
    field: Arc<Field<C>, Global>,
    mut seat: SeatOf<C>,
) -> Result<(Vec<Station<C>>, Vec<Member<C>>), AllocError>
    requires table { seat.table_id ≡ (arc_value field).board.shared.table_id }
    requires nodes { (arc_value field).nodes ≡ setup.now.nodes }
    requires named { setup.now.nodes ≤ MAX_NODES }
    requires counted { setup.now.nodes ≡ C.core.count setup.now.shape }
    requires low { 0 < setup.now.limit }
    requires high { setup.now.limit ≤ MAX_SECTIONS }
    requires some { 0 < setup.now.registers }
    requires few { setup.now.registers ≤ MAX_REGISTERS }
    requires all { seat.me
        ≡ (all_of setup.now.nodes (λ i. fresh i (starts_of C.core setup.now i)), []) }
    ensures { IfOk result (λ all.
        AreFresh setup.now.nodes (starts_of C.core setup.now) all.0.items) }
{
    let mut members = start_members(alloc, setup)?;
    let mut all = Vec::new(alloc);
    for index in 0..setup.nodes {
        let Some(node) = NodeId::of(index) else {
            unreachable!();
        };
        let shared = Arc::try_clone(&field)?;
        all.reserve(1)?;
        let own = field.board.shared.split_seat::<HandOn>(&mut seat);
        all.push_reserved(Station {
            field: shared,
            seat: own,
            node,
            member: members.remove(0),
            hand: None,
            receipts: Vec::new(alloc),
            out: Outbox::new(),
            waiting: ArrayVec::new(),
            put_to: NodeSet::default(),
            took_from: NodeSet::default(),
        });
    }
    Ok((all, members))
}
