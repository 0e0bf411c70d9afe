// A record and the index over it, untested here, since each call of the library tests it; and what the program shows of them.
use crate::report::{self, Fault, Stop, TextError};
use crate::saved::write_file;
use edge_index::{Summary, dwell, next, previous, rank, select, write_image};
use std::rt::Files;

#[derive(Clone, Copy)]
pub struct Index<'a> {
    pub words: &'a [u64],
    pub summary: Summary,
    pub inventory: &'a [u64],
    pub spill: &'a [u64],
}

impl<'a> Index<'a> {
    // Writes the index to a file.
    pub fn save<'b>(
        &self,
        rt: &impl Files,
        name: &'b [u8],
        image: &mut [u8],
        out: &impl Print,
    ) -> Result<(), Stop<'b>> {
        let n = write_image(self.summary, self.inventory, self.spill, image)?;
        if write_file(rt, name, &image[..n as usize]).is_err() {
            return Err(Stop::Text(name, TextError::NotSaved));
        }
        report::saved_line(out, n)?;
        Ok(())
    }

    fn show_edge(&self, rank: u64, out: &impl Print) -> Result<(), Stop<'static>> {
        let plan = self.summary.plan;
        if rank >= plan.num {
            return Err(Stop::Fault(Fault::NoSuchEdge(rank, plan.num)));
        }
        let sample = select(self.words, self.summary, self.inventory, self.spill, rank)?;
        report::edge_line(out, plan.polarity, rank, sample)?;
        Ok(())
    }

    fn show_period(&self, a: u64, b: u64, out: &impl Print) -> Result<(), Stop<'static>> {
        let samples = dwell(self.words, self.summary, self.inventory, self.spill, a, b)?;
        report::period_line(out, samples)?;
        Ok(())
    }

    // Each edge, and the period from the one before it.
    fn show_edges(&self, edges: &[u64], out: &impl Print) -> Result<(), Stop<'static>> {
        let mut before = None;
        for rank in edges {
            self.show_edge(*rank, out)?;
            if let Some(before) = before {
                self.show_period(before, *rank, out)?;
            }
            before = Some(*rank);
        }
        Ok(())
    }

    // The edges before a sample, and those on either side of it.
    fn show_at(&self, sample: u64, out: &impl Print) -> Result<(), Stop<'static>> {
        let polarity = self.summary.plan.polarity;
        let rank = rank(self.words, self.summary, self.inventory, self.spill, sample)?;
        report::rank_line(out, polarity, sample, rank)?;
        let before = previous(self.words, self.summary, sample)?;
        report::neighbour_line(out, polarity, "previous", before)?;
        let after = next(self.words, self.summary, sample)?;
        report::neighbour_line(out, polarity, "next", after)?;
        Ok(())
    }

    // The count, then the sample and the edges asked for, or what the index is like.
    pub fn show(
        &self,
        at: Option<u64>,
        edges: &[u64],
        out: &impl Print,
    ) -> Result<(), Stop<'static>> {
        let plan = self.summary.plan;
        report::count_line(out, plan.polarity, plan.num)?;
        if let Some(sample) = at {
            self.show_at(sample, out)?;
        } else if edges.is_empty() {
            report::spacing_line(out, plan)?;
            report::cells_line(out, self.summary.inventory_len, self.summary.spill_len)?;
        }
        self.show_edges(edges, out)
    }
}
