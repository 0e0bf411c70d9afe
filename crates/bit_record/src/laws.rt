// What the words of specs/ are held to, each as the contract of a function with no parameters and nothing to do: the law has to be
// proved for it to be built.
ghost use Rattle.bit_record.specs.Record.{SameCount, SameSelected};

/// Bits at or past the length, and later words, alter neither what a record selects nor its count.
pub fn padding_alters_no_selection()
    ensures bits { SameSelected }
    ensures number { SameCount }
{}
