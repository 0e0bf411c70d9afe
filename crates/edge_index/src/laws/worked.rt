// The worked records.
ghost use Rattle.edge_index.specs.Table.{WorkedRecords};

/// The worked values of the records, of lists, origins, steps, images and limits come out as stated.
#[tactic(auto, using(crate::proofs::Table::worked_records))]
pub fn worked_records_come_out()
    ensures { WorkedRecords }
{}
