//! The lines of a node, and the closing lines of a run: those of all nodes, of a run that stands
//! still, and of the verdict.

ghost use Rattle.std.specs.Prelude.{◌≡◌, ◌<◌, ◌++◌, length, string_bytes, IfOk, OnOk};
ghost use Rattle.mx_format.specs.Lines.{texts_from};
ghost use Rattle.mx_format.specs.StuckTexts.{stuck_text};
ghost use Rattle.mx_driver.specs.Shown.{closing_with, shown_closing, shown_member, shown_node, shown_waiters, where_shown};
ghost use Rattle.mx_driver.specs.Standstill.{stuck_in};

use crate::standstill::stuck_in;
use crate::view::View;
use mx_explorer::{Verdict, add_verdict, judge};
use mx_format::{Waiter, add_facts_line, add_member_line, add_node_json, add_stuck};
use mx_knowledge::Knowledge;
use mx_member::Member;
use mx_network::Cluster;
use mx_nodelaws::Exclusion;
use mx_plan::Plan;
use mx_stamps::NodeId;
use std::alloc::{AllocError, Global};

impl View {
    /// Appends what is shown at the end of a run: the nodes, whether the run stands still, and the
    /// verdict. Returns the verdict.
    pub fn add_closing<C: Exclusion + Knowledge>(
        &self,
        alloc: Global,
        plan: &Plan,
        cluster: &Cluster<C>,
        text: &mut String,
    ) -> Result<Verdict, AllocError>
        requires { length cluster.now.members ≡ length plan.now.nodes }
        ensures text { OnOk result (string_bytes text.new ≡ string_bytes text.old
            ++ shown_closing plan.now self.now C.core C.knows cluster.now) }
        ensures sound { IfOk result (λ verdict. verdict ≡ Verdict.Sound) }
    {
        let waiters = self.waiters(alloc, plan, cluster)?;
        self.add_closing_with(alloc, plan, cluster, waiters.as_slice(), text)
    }

    /// Appends the same of a run in which these nodes wait, since it stands still; or none, if it
    /// does not.
    pub fn add_closing_with<C: Exclusion + Knowledge>(
        &self,
        alloc: Global,
        plan: &Plan,
        cluster: &Cluster<C>,
        waiters: &[Waiter],
        text: &mut String,
    ) -> Result<Verdict, AllocError>
        requires { length cluster.now.members ≡ length plan.now.nodes }
        ensures text { OnOk result (string_bytes text.new ≡ string_bytes text.old
            ++ closing_with plan.now self.now C.core C.knows waiters.now cluster.now) }
        ensures sound { IfOk result (λ verdict. verdict ≡ Verdict.Sound) }
    {
        self.add_nodes(alloc, plan, cluster, text)?;
        self.add_waiters(plan, waiters, text)?;
        let verdict = judge(cluster.trace());
        add_verdict(self.is_json, verdict, text)?;
        Ok(verdict)
    }

    /// Appends what is shown of each node.
    pub fn add_nodes<C: Exclusion + Knowledge>(
        &self,
        alloc: Global,
        plan: &Plan,
        cluster: &Cluster<C>,
        text: &mut String,
    ) -> Result<(), AllocError>
        requires { length cluster.now.members ≡ length plan.now.nodes }
        ensures { OnOk result (string_bytes text.new ≡ string_bytes text.old
            ++ texts_from (shown_member plan.now self.now C.core C.knows) 0 cluster.now.members) }
    {
        for (index, member) in cluster.members().iter().enumerate() {
            self.add_member(alloc, plan, node_at(plan, index), member, text)?;
        }
        Ok(())
    }

    /// Returns the nodes that wait in a run that stands still, if the view has states.
    fn waiters<C: Exclusion + Knowledge>(
        &self,
        alloc: Global,
        plan: &Plan,
        cluster: &Cluster<C>,
    ) -> Result<Vec<Waiter>, AllocError>
        requires { length cluster.now.members ≡ length plan.now.nodes }
        ensures { IfOk result (λ waiters.
            shown_waiters plan.now self.now C.core C.knows waiters.items
            ≡ shown_waiters plan.now self.now C.core C.knows
            (stuck_in C.core C.knows cluster.now)) }
    {
        if !self.has_state {
            return Ok(Vec::new(alloc));
        }
        stuck_in(alloc, plan, cluster)
    }

    /// Appends the line of a run in which these nodes wait, if the view has states.
    fn add_waiters(
        &self,
        plan: &Plan,
        waiters: &[Waiter],
        text: &mut String,
    ) -> Result<(), AllocError>
        ensures { OnOk result (string_bytes text.new ≡ string_bytes text.old
            ++ where_shown self.now.has_state
            (stuck_text self.now.is_json plan.now waiters.now)) }
    {
        if !self.has_state {
            return Ok(());
        }
        add_stuck(plan, self.is_json, waiters, text)
    }

    /// Appends what is shown of one node.
    pub(crate) fn add_node<C: Exclusion + Knowledge>(
        &self,
        alloc: Global,
        plan: &Plan,
        node: NodeId,
        cluster: &Cluster<C>,
        text: &mut String,
    ) -> Result<(), AllocError>
        ensures { OnOk result (string_bytes text.new ≡ string_bytes text.old
            ++ shown_node plan.now self.now C.core C.knows cluster.now.members node) }
    {
        match cluster.member(node) {
            Some(member) => self.add_member(alloc, plan, node, member, text),
            None => Ok(()),
        }
    }

    fn add_member<C: Exclusion + Knowledge>(
        &self,
        alloc: Global,
        plan: &Plan,
        node: NodeId,
        member: &Member<C>,
        text: &mut String,
    ) -> Result<(), AllocError>
        ensures { OnOk result (string_bytes text.new ≡ string_bytes text.old
            ++ shown_member plan.now self.now C.core C.knows node member.now) }
    {
        if !self.shows_node(node) {
            return Ok(());
        }
        if self.is_json {
            return add_node_json(alloc, plan, node, member, text);
        }
        add_member_line(plan, node, member, text)?;
        if !self.has_state {
            return Ok(());
        }
        let facts = member.core().facts(alloc)?;
        add_facts_line(plan, &facts, text)
    }
}

/// Returns the node of a plan with this index.
pub fn node_at(plan: &Plan, index: usize) -> NodeId
    requires { index < length plan.now.nodes }
    ensures { result ≡ index }
{
    // for the prover: the call shows that a plan has at most 21 nodes
    let _ = plan.nodes();
    NodeId::of(index as u8).unwrap()
}
