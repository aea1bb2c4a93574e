//! The sink of a replay: it appends what a view shows of each event of a run, and of the end.

ghost use Rattle.std.specs.Prelude.{◌≡◌, ◌<◌, ◌≤◌, List, [], ◌∷◌, ◌++◌, drop, length, string_bytes, IfOk, OnOk};
ghost use Rattle.mx_network.specs.Step.{ClusterState};
ghost use Rattle.mx_trace.specs.declared.outcome.Entry.{Entry};
ghost use Rattle.mx_format.specs.Lines.{texts_from};
ghost use Rattle.mx_driver.specs.Sinks.{same};
ghost use Rattle.mx_driver.specs.Shown.{shown_closing, shown_entry, shown_owner, shown_parcel, step_text, view_texts, where_shown};

use crate::sink::{Sink, newest};
use crate::view::{View, owner_of};
use mx_explorer::verdict_status;
use mx_format::{EventLine, Letter, add_event_json, add_parcel_json, add_parcel_line};
use mx_knowledge::Knowledge;
use mx_member::SentParcel;
use mx_network::{Cluster, Entry};
use mx_nodelaws::Exclusion;
use mx_plan::Plan;
use std::alloc::{AllocError, Global};

impl<C: Exclusion + Knowledge> Sink<Cluster<C>> for View
where
    C::Msg: Letter,
{
    ghost texts = { λ view p. view_texts C.core C.Msg.parts p view C.knows };

    ghost tells = { λ _. same };

    fn event(
        &mut self,
        alloc: Global,
        plan: &Plan,
        index: u64,
        before: u64,
        cluster: &Cluster<C>,
        text: &mut String,
    ) -> Result<(), AllocError>
        requires noted { 0 < length cluster.now.trace }
        requires sent { before ≤ length cluster.now.sent }
        ensures text { (old : ClusterState C C.Msg) (entry : Entry)
            → cluster.now.trace ≡ old.trace ++ entry ∷ [] → before ≡ length old.sent
            → OnOk result (string_bytes text.new ≡ string_bytes text.old
            ++ step_text C.core C.Msg.parts plan.now self.old C.knows index old cluster.now) }
        ensures stays { self.new ≡ self.old }
        ensures heard { (old : ClusterState C C.Msg) (entry : Entry)
            → cluster.now.trace ≡ old.trace ++ entry ∷ [] → before ≡ length old.sent
            → OnOk result (self.new ≡ self.old) }
    {
        if self.is_quiet {
            return Ok(());
        }
        self.add_newest(alloc, plan, index, before, cluster, text)
    }

    fn end(
        &mut self,
        alloc: Global,
        plan: &Plan,
        cluster: &Cluster<C>,
        text: &mut String,
    ) -> Result<u8, AllocError>
        requires members { length cluster.now.members ≡ length plan.now.nodes }
        ensures text { OnOk result (string_bytes text.new ≡ string_bytes text.old
            ++ shown_closing plan.now self.old C.core C.knows cluster.now) }
        ensures zero { IfOk result (λ status. status ≡ 0) }
        ensures closed { OnOk result (self.new ≡ self.old) }
    {
        let verdict = self.add_closing(alloc, plan, cluster, text)?;
        Ok(verdict_status(verdict))
    }
}

impl View {
    fn add_newest<C: Exclusion + Knowledge>(
        &self,
        alloc: Global,
        plan: &Plan,
        index: u64,
        before: u64,
        cluster: &Cluster<C>,
        text: &mut String,
    ) -> Result<(), AllocError>
    where
        C::Msg: Letter,
        requires { 0 < length cluster.now.trace }
        ensures { (front : List Entry) (entry : Entry)
            → cluster.now.trace ≡ front ++ entry ∷ []
            → OnOk result (string_bytes text.new ≡ string_bytes text.old
            ++ (shown_entry plan.now self.now cluster.now.sent index entry
            ++ texts_from (shown_parcel plan.now self.now C.Msg.parts) before
            (drop before cluster.now.sent)
            ++ where_shown self.now.has_state
            (shown_owner plan.now self.now C.core C.knows cluster.now entry))) }
    {
        let entry = newest(cluster.trace());
        self.add_event(plan, index, cluster, entry, text)?;
        self.add_parcels(plan, cluster, before, text)?;
        self.add_owner(alloc, plan, cluster, entry, text)
    }

    fn add_event<C: Exclusion>(
        &self,
        plan: &Plan,
        index: u64,
        cluster: &Cluster<C>,
        entry: &Entry,
        text: &mut String,
    ) -> Result<(), AllocError>
        ensures { OnOk result (string_bytes text.new ≡ string_bytes text.old
            ++ shown_entry plan.now self.now cluster.now.sent index entry.now) }
    {
        if !self.shows_event(cluster, &entry.event) {
            return Ok(());
        }
        if self.is_json {
            return add_event_json(plan, index, entry, text);
        }
        text.write(EventLine {
            plan,
            index,
            event: &entry.event,
            outcome: &entry.outcome,
        })
    }

    /// Appends what is shown of the parcels from the number `before` on.
    pub fn add_parcels<C: Exclusion>(
        &self,
        plan: &Plan,
        cluster: &Cluster<C>,
        before: u64,
        text: &mut String,
    ) -> Result<(), AllocError>
    where
        C::Msg: Letter,
        ensures { OnOk result (string_bytes text.new ≡ string_bytes text.old
            ++ texts_from (shown_parcel plan.now self.now C.Msg.parts) before
            (drop before cluster.now.sent)) }
    {
        for (number, sent) in cluster.parcels_from(before) {
            self.add_sent(plan, number, &sent, text)?;
        }
        Ok(())
    }

    fn add_sent<M: Letter>(
        &self,
        plan: &Plan,
        number: u64,
        sent: &SentParcel<'_, M>,
        text: &mut String,
    ) -> Result<(), AllocError>
        ensures { OnOk result (string_bytes text.new ≡ string_bytes text.old
            ++ shown_parcel plan.now self.now M.parts number
            (sent.now.from, sent.now.to, sent.now.parcel.now)) }
    {
        if !self.shows_parcel(sent) {
            return Ok(());
        }
        if self.is_json {
            return add_parcel_json(plan, number, sent, text);
        }
        add_parcel_line(plan, number, sent, text)
    }

    /// Appends the lines of the node of an event, if the view has states.
    fn add_owner<C: Exclusion + Knowledge>(
        &self,
        alloc: Global,
        plan: &Plan,
        cluster: &Cluster<C>,
        entry: &Entry,
        text: &mut String,
    ) -> Result<(), AllocError>
        ensures { OnOk result (string_bytes text.new ≡ string_bytes text.old
            ++ where_shown self.now.has_state
            (shown_owner plan.now self.now C.core C.knows cluster.now entry.now)) }
    {
        if !self.has_state {
            return Ok(());
        }
        match owner_of(cluster, &entry.event) {
            Some(owner) => self.add_node(alloc, plan, owner, cluster, text),
            None => Ok(()),
        }
    }
}
