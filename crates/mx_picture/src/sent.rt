//! What is drawn as an arrow: the parcels of a run, and the messages of a trace.

use crate::labels::Side;
use crate::letters::is_letter;
use mx_format::{Letter, Style, add_parcel};
use mx_judge::Trace;
use mx_member::Parcel;
use mx_network::Cluster;
use mx_nodelaws::Exclusion;
use mx_plan::Plan;
use mx_stamps::NodeId;
use std::alloc::{AllocError, Global};

/// The sender and the addressee of a parcel, and the style of its arrow.
#[derive(Clone, Copy)]
pub(crate) struct Route {
    pub(crate) from: NodeId,
    pub(crate) to: NodeId,
    pub(crate) style: Style,
}

impl Route {
    /// Returns the class of the arrow, which is also the name of its tip.
    pub(crate) fn class(&self) -> &'static str {
        match self.style {
            Style::Request => "request",
            Style::Grant => "grant",
            Style::Other => "other",
        }
    }

    /// Returns the side of its sender on which the parcel leaves: the left, if the addressee comes
    /// before the sender in the plan.
    pub(crate) fn side(&self) -> Side {
        if self.to.get() < self.from.get() {
            Side::Left
        } else {
            Side::Right
        }
    }
}

/// A parcel of a run, or a message of a trace.
#[derive(Clone, Copy)]
pub(crate) struct Sent {
    /// The number by which an event delivers it.
    pub(crate) number: u64,
    /// How many were sent before.
    pub(crate) flight: u64,
    pub(crate) route: Route,
    /// Whether it is a letter, and not gossip.
    pub(crate) is_letter: bool,
}

/// What is drawn: a run, or a trace.
pub(crate) trait Drawable {
    /// Returns the parcel of this flight, if it was sent.
    fn find(&self, flight: u64) -> Option<Sent>;

    /// Appends what that parcel says.
    fn add_text(&self, plan: &Plan, flight: u64, text: &mut String) -> Result<(), AllocError>;
}

/// Returns the parcels of the flights from `from` on, up to the one before `to`.
pub(crate) fn find_all<S: Drawable>(
    alloc: Global,
    source: &S,
    from: u64,
    to: u64,
) -> Result<Vec<Sent>, AllocError> {
    let mut all = Vec::new(alloc);
    for flight in from..to {
        if let Some(sent) = source.find(flight) {
            all.push(sent)?;
        }
    }
    Ok(all)
}

impl<C: Exclusion> Drawable for Cluster<C>
where
    C::Msg: Letter,
{
    fn find(&self, flight: u64) -> Option<Sent> {
        let Some(found) = self.sent_parcel(flight) else {
            return None;
        };
        let style = match found.parcel {
            Parcel::Guard(letter) => letter.parts().style,
            Parcel::Want(_) | Parcel::Base(_) | Parcel::Records(_) => Style::Other,
        };
        Some(Sent {
            number: flight,
            flight,
            route: Route {
                from: found.from,
                to: found.to,
                style,
            },
            is_letter: is_letter(found.parcel),
        })
    }

    fn add_text(&self, plan: &Plan, flight: u64, text: &mut String) -> Result<(), AllocError> {
        match self.sent_parcel(flight) {
            Some(sent) => add_parcel(plan, sent.parcel, text),
            None => Ok(()),
        }
    }
}

impl Drawable for Trace {
    fn find(&self, flight: u64) -> Option<Sent> {
        let message = self.messages.get(flight as usize)?;
        let style = match message.kind.as_str() {
            "\"request\"" => Style::Request,
            "\"reply\"" | "\"locked\"" | "\"privilege\"" => Style::Grant,
            _ => Style::Other,
        };
        Some(Sent {
            number: message.parcel,
            flight,
            route: Route {
                from: message.from,
                to: message.to,
                style,
            },
            is_letter: true,
        })
    }

    fn add_text(&self, plan: &Plan, flight: u64, text: &mut String) -> Result<(), AllocError> {
        match self.messages.get(flight as usize) {
            Some(message) => message.add_text(plan, text),
            None => Ok(()),
        }
    }
}
