// An index past its tests.
ghost use Rattle.bit_record.specs.Record.{AdmittedFrom};
ghost use Rattle.read_inventory.specs.Tests.{Legible};

use inventory::Summary;

// A summary and cells that 2, 9, 6 and 7 do not turn down: what steps 2 to 6 read. That a rank is below N is asked of each: a type
// of such a rank would be a struct of one number that holds these again.
#[derive(Clone, Copy)]
pub struct Cells<'a> {
    pub summary: Summary,
    pub inventory: &'a [u64],
    pub spill: &'a [u64],
    ghost legible: { Legible summary inventory.now spill.now },
}

// The same with the words of the record, past 1 and 14 too. Before they are tested an entry takes the four as they are handed in.
// It is handed out by value, and what a jump calls is inlined: in a call it has to be stored. What a list asks for every rank takes a
// reference: by value it is copied each time.
#[derive(Clone, Copy)]
pub struct Index<'a> {
    pub words: &'a [u64],
    pub cells: Cells<'a>,
    ghost from: { AdmittedFrom words.now cells.summary.plan.len cells.summary.origin },
}
