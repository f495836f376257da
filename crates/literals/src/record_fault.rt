// Why plain numbers make no record.
ghost use Rattle.literals.specs.Faults.{number_of, line_of};

use crate::numbered::Numbered;

// The first that applies.
#[derive(Clone, Copy, PartialEq, Eq, Debug)]
pub enum RecordFault {
    // a number outside its range
    OutOfRange,
    // an atom together with its strong negation, in a fit
    Inconsistent,
}

impl Numbered for RecordFault {
    ghost number = { number_of };

    ghost line = { line_of };

    fn number(&self) -> u8 {
        4
    }

    fn line(&self) -> u32 {
        0
    }
}
