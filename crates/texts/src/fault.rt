// What is wrong with a text, a table or a buffer.
ghost use Rattle.std.specs.Prelude.{◌≡◌};
ghost use Rattle.texts.specs.declared.fault.Fault.TheVariants as fault;
ghost use Rattle.texts.specs.Reading.{number_of};

use frames::FrameFault;
use literals::Numbered;

#[derive(Clone, Copy, PartialEq, Eq, Debug)]
pub enum Fault {
    // a line that is no frame: 1 to 4
    Frame(FrameFault),
    // a frame out of place, or no end frame: 5
    Place,
    // a wrong number in the end frame: 6
    Count,
    // a table too short for an accepted text: 20
    TableShort,
    // a buffer too short for what is to be written: 21
    BufferShort,
    // a text above the limit: 23
    TooLong,
    // tables that no text gives: 24
    NoText,
}

impl From<FrameFault> for Fault {
    ghost from_gives = { λ f r. r ≡ fault.Frame f };

    fn from(fault: FrameFault) -> Fault {
        Fault::Frame(fault)
    }
}

// A fault, and the line that shows it, from 1; 0 where it lies in no line.
#[derive(Clone, Copy, PartialEq, Eq, Debug)]
pub struct Refusal {
    pub fault: Fault,
    pub line: u32,
}

// A fault that lies in no line.
impl From<Fault> for Refusal {
    ghost from_gives = { λ f r. r ≡ record { fault = f; line = 0 } };

    fn from(fault: Fault) -> Refusal {
        Refusal { fault, line: 0 }
    }
}

impl Numbered for Refusal {
    ghost number = { λ refusal. number_of refusal.fault };

    ghost line = { λ refusal. refusal.line };

    fn number(&self) -> u8 {
        match self.fault {
            Fault::Frame(fault) => fault.number(),
            Fault::Place => 5,
            Fault::Count => 6,
            Fault::TableShort => 20,
            Fault::BufferShort => 21,
            Fault::TooLong => 23,
            Fault::NoText => 24,
        }
    }

    fn line(&self) -> u32 {
        self.line
    }
}
