// Frames, and why a line is none.
ghost use Rattle.std.specs.Prelude.{◌≡◌, ℕ, List};
ghost use Rattle.frames.specs.declared.frame.FrameFault.TheVariants.{Digits};
ghost use Rattle.frames.specs.Faults.{FaultsStand};
ghost use Rattle.frames.specs.Frames.{makes_record, number_of};

use literals::{Condition, LiteralSet};
use tables::{Row, RuleRow};

// What one line of a text says.
#[derive(Clone, Copy, PartialEq, Eq, Debug)]
pub enum Frame {
    // kinds 01, 02 and 03
    Rule(RuleRow),
    // kind 10
    RankStep,
    // kind 11
    Wish(Condition),
    // kind 12
    Alternative { level: u8, condition: Condition },
    // kind 20, the number of frames before it
    End(u16),
    // kind 30
    Fit(LiteralSet),
}

// Why a line is no row of digits: the first that applies.
#[derive(Clone, Copy, PartialEq, Eq, Debug)]
pub enum DigitFault {
    // a byte that is no digit, with its position in the line
    BadByte { at: usize, byte: u8 },
    Odd,
    Few,
    NoLineFeed,
}

// Why a line is no frame: the first that applies.
#[derive(Clone, Copy, PartialEq, Eq, Debug)]
pub enum FrameFault {
    Digits(DigitFault),
    // a wrong check byte
    Check,
    // a kind not in the table, or a length that is not its kind's
    Kind,
    // a field outside its range, or an inconsistent fit
    Field,
}

impl From<DigitFault> for FrameFault {
    ghost from_gives = { λ d r. r ≡ Digits d };

    fn from(fault: DigitFault) -> FrameFault {
        FrameFault::Digits(fault)
    }
}

impl FrameFault {
    // The number of the refusal; it has no line of its own, so it is no `Numbered`. A line is refused with a number exactly when it
    // has the fault of that number and none before it.
    pub fn number(self) -> u8
        ensures number { result ≡ number_of self }
        ensures meaning { (t : List ℕ) → FaultsStand t }
    {
        match self {
            FrameFault::Digits(_) => 1,
            FrameFault::Check => 2,
            FrameFault::Kind => 3,
            FrameFault::Field => 4,
        }
    }
}

impl Frame {
    // Whether the row of the frame makes a record. An alternative's frame has no row until its wish is known, so its level is judged.
    pub fn makes_record(&self) -> bool
        ensures { result ≡ makes_record self.now }
    {
        match self {
            Frame::Rule(row) => row.makes_record(),
            Frame::Alternative { level, .. } => (1..=8).contains(level),
            Frame::Fit(set) => set.makes_record(),
            Frame::RankStep | Frame::Wish(_) | Frame::End(_) => true,
        }
    }
}
