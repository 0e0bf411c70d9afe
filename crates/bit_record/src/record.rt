// A record past its tests.
ghost use Rattle.bit_record.specs.Record.{Admitted};

use crate::Polarity;

// A record that neither 1 nor 2 turns down. Before it is tested an entry takes the three as they are handed in.
#[derive(Clone, Copy)]
pub struct Record<'a> {
    pub words: &'a [u64],
    pub len: u64,
    pub polarity: Polarity,
    ghost admitted: { Admitted words.now len },
}
