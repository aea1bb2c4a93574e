//! Draws a run: a `Drawing` is a sink that draws each event, and the losses between events.

ghost use Rattle.mx_driver.specs.Runs.{silent};

use crate::losses::{Loss, Losses};
use crate::part::ShownPart;
use crate::rows::{PictureRows, Step};
use crate::sent::{Drawable, find_all};
use mx_driver::{Sink, newest};
use mx_format::Letter;
use mx_network::{Cluster, Event};
use mx_nodelaws::Exclusion;
use mx_plan::Plan;
use std::alloc::{AllocError, Global};

#[derive(Drop)]
pub(crate) struct Drawing<'a> {
    pub(crate) rows: PictureRows<'a>,
    losses: Vec<Loss>,
    /// How many losses have been drawn.
    drawn: usize,
}

impl<'a> Drawing<'a> {
    pub(crate) fn new(
        alloc: Global,
        plan: &'a Plan,
        events: &[Event],
        losses: Losses,
        part: &ShownPart,
    ) -> Result<Self, AllocError> {
        let Losses { list, mut fates } = losses;
        for event in events {
            fates.expect(event)?;
        }
        Ok(Drawing {
            rows: PictureRows::new(alloc, plan, part, fates),
            losses: list,
            drawn: 0,
        })
    }

    /// Draws the losses that come after `place` events.
    fn draw_losses<C: Exclusion>(
        &mut self,
        place: u64,
        cluster: &Cluster<C>,
    ) -> Result<(), AllocError>
    where
        C::Msg: Letter,
    {
        let mut lost = Vec::new(self.rows.sheet.alloc);
        for index in self.drawn..self.losses.len() {
            match self.losses.get(index) {
                Some(loss) if loss.place <= place => lost.push(loss.number)?,
                _ => break,
            }
        }
        self.drawn = self.drawn.saturating_add(lost.len());
        self.rows.draw_lost(cluster, lost.as_slice(), place)
    }
}

impl<C: Exclusion> Sink<Cluster<C>> for Drawing<'_>
where
    C::Msg: Letter,
{
    ghost texts = { λ _ _. silent };

    fn event(
        &mut self,
        alloc: Global,
        _plan: &Plan,
        index: u64,
        before: u64,
        cluster: &Cluster<C>,
        _text: &mut String,
    ) -> Result<(), AllocError> {
        self.draw_losses(index, cluster)?;
        let entry = newest(cluster.trace());
        let delivered = match &entry.event {
            Event::Deliver(number) => cluster.find(*number),
            _ => None,
        };
        let step = Step {
            index,
            entry,
            delivered,
            sent: find_all(alloc, cluster, before, cluster.sent())?,
        };
        self.rows.draw(cluster, &step)
    }

    /// Ends the picture. Returns status 0.
    fn end(
        &mut self,
        _alloc: Global,
        _plan: &Plan,
        cluster: &Cluster<C>,
        _text: &mut String,
    ) -> Result<u8, AllocError> {
        self.draw_losses(cluster.trace().len() as u64, cluster)?;
        self.rows.end()?;
        Ok(0)
    }
}
