// What was compared, and the lines.
ghost use Rattle.std.specs.Prelude.{◌≡◌, ◌≢◌, OnOk};
ghost use Rattle.replay.specs.Tally.{NoneMeans};

use std::io;

// So many differences have a line each; the others are only counted.
const MOST_LINES: u64 = 20;

#[derive(Drop)]
pub(crate) struct Tally<'a, P> {
    out: &'a P,
    cases: u64,
    refused: u64,
    comparisons: u64,
    cells: u64,
    selects: u64,
    differences: u64,
}

impl<'a, P: Print> Tally<'a, P> {
    pub(crate) fn new(out: &'a P) -> Self {
        Self {
            out,
            cases: 0,
            refused: 0,
            comparisons: 0,
            cells: 0,
            selects: 0,
            differences: 0,
        }
    }

    pub(crate) fn add_case(&mut self, is_refused: bool)
        ensures { self.new.differences ≡ self.old.differences }
    {
        self.cases = self.cases.saturating_add(1);
        self.refused = self.refused.saturating_add(u64::from(is_refused));
    }

    pub(crate) fn add_cells(&mut self, n: usize)
        ensures { self.new.differences ≡ self.old.differences }
    {
        self.cells = self.cells.saturating_add(n as u64);
    }

    pub(crate) fn add_selects(&mut self, n: usize)
        ensures { self.new.differences ≡ self.old.differences }
    {
        self.selects = self.selects.saturating_add(n as u64);
    }

    // A number of the library's against the one that it has to be.
    pub(crate) fn compare(&mut self, what: &str, ours: u64, expected: u64) -> io::Result<()>
        ensures { OnOk result (NoneMeans self.old.differences self.new.differences (ours ≡ expected)) }
    {
        self.comparisons = self.comparisons.saturating_add(1);
        if ours == expected {
            return Ok(());
        }
        if self.differences < MOST_LINES {
            let case = self.cases;
            println!(self.out; "case {case}, {what}: {ours}, expected {expected}")?;
        }
        self.differences = self.differences.saturating_add(1);
        Ok(())
    }

    // A list that ends in no end mark, or goes on in no case.
    pub(crate) fn break_off(&mut self) -> io::Result<()>
        ensures { OnOk result (self.new.differences ≢ 0) }
    {
        println!(self.out; "the list breaks off after case {}", self.cases)?;
        self.differences = self.differences.saturating_add(1);
        Ok(())
    }

    pub(crate) fn show(&self) -> io::Result<()> {
        println!(self.out; "cases: {}", self.cases)?;
        println!(self.out; "of them refused: {}", self.refused)?;
        println!(self.out; "comparisons: {}", self.comparisons)?;
        println!(self.out; "cells alike: {}", self.cells)?;
        println!(self.out; "selects alike: {}", self.selects)?;
        println!(self.out; "differences: {}", self.differences)
    }
}
