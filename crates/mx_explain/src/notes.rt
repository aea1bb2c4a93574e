//! What a run notes of its events, until there is a report.

ghost use Rattle.mx_driver.specs.Runs.{silent};

use crate::location::FilePart;
use crate::report::{FaultReport, MAX_LINES, ReportResult};
use crate::spot::offset_of;
use mx_cli::Fault;
use mx_driver::{Sink, stuck_in, stuck_nodes};
use mx_events::Event;
use mx_format::{EventText, OutcomeText, Waiter, add_facts_line, add_stuck};
use mx_knowledge::Knowledge;
use mx_network::Cluster;
use mx_nodelaws::Exclusion;
use mx_plan::Plan;
use mx_scripts::{Recorder, RefusedLine, SessionEvent, State};
use mx_stamps::NodeId;
use mx_trace::{Cause, Outcome};
use std::alloc::{AllocError, Global};

/// The number of an event or a line, and the message about it, which begins with a space.
type Note = (u64, String);

#[derive(Drop)]
pub(crate) struct Notes {
    alloc: Global,
    /// The first `MAX_LINES` warnings of refused events.
    refused: Vec<Note>,
    /// How many further ones there are.
    more: u64,
    pub(crate) sent: u64,
    pub(crate) fault: Option<Fault>,
    /// The number of the newest line of a script.
    line: u64,
    /// The line of a script that cannot be done, unless one of its words is wrong.
    bad_line: Option<Note>,
    /// The last event, or the last line with one, and the warning that the run stands still then.
    stuck: Option<Note>,
    /// No parcel of a script below this number is under way any more.
    under_way: u64,
}

impl<C: Exclusion + Knowledge> Sink<Cluster<C>> for Notes {
    ghost texts = { λ _ _. silent };

    fn event(
        &mut self,
        _alloc: Global,
        plan: &Plan,
        index: u64,
        _before: u64,
        cluster: &Cluster<C>,
        _text: &mut String,
    ) -> Result<(), AllocError> {
        self.sent = cluster.sent();
        self.note_newest(plan, cluster, index)
    }

    fn end(
        &mut self,
        alloc: Global,
        plan: &Plan,
        cluster: &Cluster<C>,
        _text: &mut String,
    ) -> Result<u8, AllocError> {
        let waiters = stuck_in(alloc, plan, cluster)?;
        self.note_stuck(plan, newest_index(cluster), waiters.as_slice())?;
        Ok(0)
    }
}

impl<C: Exclusion + Knowledge> Recorder<State<C>> for Notes {
    fn line(&mut self, number: u64) {
        self.line = number;
    }

    fn event(
        &mut self,
        plan: &Plan,
        event: &SessionEvent,
        _before: u64,
        state: &State<C>,
    ) -> Result<(), AllocError> {
        self.note_event(plan, event, state)
    }

    fn refused(
        &mut self,
        _plan: &Plan,
        line: &RefusedLine,
        _state: &State<C>,
    ) -> Result<(), AllocError> {
        self.stuck = None;
        if !line.is_unread {
            let text = format!(in self.alloc; " {}{}", line.fault, line.message.as_str())?;
            self.bad_line = Some((line.number, text));
        }
        Ok(())
    }
}

impl Notes {
    pub(crate) fn new(alloc: Global) -> Self {
        Notes {
            alloc,
            refused: Vec::new(alloc),
            more: 0,
            sent: 0,
            fault: None,
            line: 0,
            bad_line: None,
            stuck: None,
            under_way: 0,
        }
    }

    /// Notes the newest event of a cluster if it is refused. `number` is that of the event or of
    /// its line.
    fn note_newest<C: Exclusion + Knowledge>(
        &mut self,
        plan: &Plan,
        cluster: &Cluster<C>,
        number: u64,
    ) -> Result<(), AllocError> {
        let Some(newest) = cluster.trace().last() else {
            return Ok(());
        };
        let Outcome::Refused(cause) = newest.outcome else {
            return Ok(());
        };
        if self.refused.len() >= MAX_LINES {
            self.more = self.more.saturating_add(1);
            return Ok(());
        }
        let text = refusal(self.alloc, plan, cluster, &newest.event, cause)?;
        self.refused.push((number, text))?;
        Ok(())
    }

    /// Notes an event of the newest line of a script, if it is refused, and whether the run stands
    /// still after it.
    fn note_event<C: Exclusion + Knowledge>(
        &mut self,
        plan: &Plan,
        event: &SessionEvent,
        state: &State<C>,
    ) -> Result<(), AllocError> {
        if let SessionEvent::Happens(_) = event {
            self.note_newest(plan, state.cluster(), self.line)?;
        }
        self.note_standstill(plan, state)
    }

    /// Notes whether a script stands still after an event of its newest line.
    fn note_standstill<C: Exclusion + Knowledge>(
        &mut self,
        plan: &Plan,
        state: &State<C>,
    ) -> Result<(), AllocError> {
        self.stuck = None;
        let members = state.cluster().members();
        // the cluster is that of the plan, but the recorder's contract does not say so
        if self.has_under_way(state) || members.len() != plan.nodes() as usize {
            return Ok(());
        }
        let waiters = stuck_nodes(self.alloc, plan, members)?;
        self.note_stuck(plan, self.line, waiters.as_slice())
    }

    /// Whether a parcel is under way. None becomes so again, so each is looked at only until then.
    fn has_under_way<C: Exclusion>(&mut self, state: &State<C>) -> bool {
        let sent = state.cluster().sent();
        for number in self.under_way..sent {
            if state.is_under_way(number) {
                self.under_way = number;
                return true;
            }
        }
        self.under_way = sent;
        false
    }

    fn note_stuck(&mut self, plan: &Plan, number: u64, waiters: &[Waiter]) -> ReportResult {
        if waiters.is_empty() {
            return Ok(());
        }
        let mut line = String::new(self.alloc);
        add_stuck(plan, false, waiters, &mut line)?;
        let text = format!(in self.alloc; " warning: {}", line.as_str().trim())?;
        self.stuck = Some((number, text));
        Ok(())
    }

    pub(crate) fn add_warnings(
        &self,
        report: &mut FaultReport,
        part: &FilePart<'_>,
    ) -> ReportResult {
        for (k, text) in &self.refused {
            self.add_at_event(report, part, *k, text.as_str())?;
        }
        report.count(part.file, self.more)?;
        match &self.stuck {
            Some((k, text)) => self.add_at_event(report, part, *k, text.as_str()),
            None => Ok(()),
        }
    }

    fn add_at_event(
        &self,
        report: &mut FaultReport,
        part: &FilePart<'_>,
        k: u64,
        text: &str,
    ) -> ReportResult {
        let offset = offset_of(self.alloc, part.text, &[k as usize])?;
        report.add_at(part, offset, text)
    }

    pub(crate) fn explain_script(
        &self,
        report: &mut FaultReport,
        part: &FilePart<'_>,
    ) -> ReportResult {
        for (number, text) in &self.refused {
            report.add_at(part, part.offset_of_line(*number), text.as_str())?;
        }
        report.count(part.file, self.more)?;
        for note in [&self.stuck, &self.bad_line] {
            if let Some((number, text)) = note {
                report.add_at(part, part.offset_of_line(*number), text.as_str())?;
            }
        }
        Ok(())
    }
}

/// Returns the warning that `event`, the newest one of a cluster, is refused for this cause.
fn refusal<C: Exclusion + Knowledge>(
    alloc: Global,
    plan: &Plan,
    cluster: &Cluster<C>,
    event: &Event,
    cause: Cause,
) -> Result<String, AllocError> {
    let index = newest_index(cluster);
    let outcome = Outcome::Refused(cause);
    let outcome = OutcomeText(&outcome);
    let said = EventText { plan, event };
    let mut text = format!(in alloc; " warning: event {index}, {said}: {outcome}")?;
    if let (Cause::NotGranted, Event::Enter(node)) = (cause, event) {
        add_known(alloc, plan, cluster, *node, &mut text)?;
    }
    Ok(text)
}

/// Returns the index of the newest event of a cluster, or 0 before the first.
fn newest_index<C: Exclusion>(cluster: &Cluster<C>) -> u64 {
    (cluster.trace().len() as u64).saturating_sub(1)
}

/// Appends what a node knows, in the words that `show` of `mx play` prints.
fn add_known<C: Exclusion + Knowledge>(
    alloc: Global,
    plan: &Plan,
    cluster: &Cluster<C>,
    node: NodeId,
    text: &mut String,
) -> Result<(), AllocError> {
    let Some(member) = cluster.member(node) else {
        return Ok(());
    };
    let mut line = String::new(alloc);
    add_facts_line(plan, &member.core().facts(alloc)?, &mut line)?;
    text.push_str(": ")?;
    text.push_str(line.as_str().trim())
}
