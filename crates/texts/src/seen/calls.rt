// Going on by one frame: whether it may come, and what has been seen then.
ghost use Rattle.std.specs.Prelude.{◌≡◌, ◌+◌, ◌-◌, ◌^◌, ◌<◌, true, false, List, [], ◌∷◌, ◌++◌};
ghost use Rattle.std.specs.Option.{option_map_or};
ghost use Rattle.frames.specs.declared.frame.Frame.{Frame};
ghost use Rattle.texts.specs.declared.seen.TextKind.{TextKind};
ghost use Rattle.texts.specs.Places.{is_end, of_wish, is_step, in_book, in_catalogue, in_place};
ghost use Rattle.texts.specs.Reading.{admitted};
ghost use Rattle.texts.specs.Summary.{Saw, Few, size_seen};

use super::{Seen, TextKind};
use crate::book_size::BookSize;
use crate::fault::{Fault, Refusal};
use frames::Frame;

// The greatest number of rank steps: ranks go from 1 to 16.
const STEPS: usize = 15;

impl Seen {
    // Nothing yet.
    pub(crate) const START: Seen = Seen {
        frames: 0,
        rules: 0,
        steps: 0,
        wishes: 0,
        alternatives: 0,
        fits: 0,
        last: None,
    };

    // How many rows of a book there are.
    pub(crate) fn book_size(self) -> BookSize
        ensures { result ≡ size_seen self }
    {
        BookSize {
            rules: self.rules,
            wishes: self.wishes,
            alternatives: self.alternatives,
        }
    }

    // The refusal of the next line for a fault.
    pub(crate) fn refusal(self, fault: Fault) -> Refusal
        requires { self.frames < 2 ^ 32 - 1 }
        ensures { result ≡ record { fault = fault; line = self.frames + 1 } }
    {
        Refusal {
            fault,
            line: self.frames as u32 + 1,
        }
    }

    // Whether the end frame has come.
    pub(crate) fn is_ended(self) -> bool
        ensures { result ≡ option_map_or is_end self.last false }
    {
        matches!(self.last, Some(Frame::End(_)))
    }

    // Whether a frame may come next in a book.
    fn in_book(self, frame: Frame) -> bool
        ensures { (fs : List Frame) → Saw self fs → result ≡ in_book fs frame }
    {
        match frame {
            Frame::Rule(_) => self.rules == self.frames,
            Frame::RankStep => !self.is_ended() && self.steps < STEPS,
            Frame::Wish(_) => !self.is_ended(),
            Frame::Alternative { .. } => matches!(
                self.last,
                Some(Frame::Wish(_) | Frame::Alternative { .. })
            ),
            Frame::End(_) => !self.is_ended() && !matches!(self.last, Some(Frame::RankStep)),
            Frame::Fit(_) => false,
        }
    }

    // Whether a frame may come next in a catalogue.
    fn in_catalogue(self, frame: Frame) -> bool
        ensures { (fs : List Frame) → Saw self fs → result ≡ in_catalogue fs frame }
    {
        match frame {
            Frame::Fit(_) | Frame::End(_) => !self.is_ended(),
            _ => false,
        }
    }

    // Refuses a frame that may not come next. Here alone one asks for the kind: there are two grammars.
    pub(crate) fn admit(self, kind: TextKind, frame: Frame) -> Result<(), Fault>
        ensures { (fs : List Frame) → Saw self fs → result ≡ admitted kind fs frame }
    {
        let in_place = match kind {
            TextKind::Book => self.in_book(frame),
            TextKind::Catalogue => self.in_catalogue(frame),
        };
        if !in_place {
            return Err(Fault::Place);
        }
        match frame {
            Frame::End(count) if usize::from(count) != self.frames => Err(Fault::Count),
            _ => Ok(()),
        }
    }

    // What has been seen with one frame more, in its place.
    pub(crate) fn after(self, frame: Frame) -> Seen
        requires { Few self }
        ensures { (kind : TextKind) (fs : List Frame) → Saw self fs → in_place kind fs frame ≡ true
            → Saw result (fs ++ frame ∷ []) }
    {
        let mut seen = self;
        seen.frames += 1;
        seen.last = Some(frame);
        match frame {
            Frame::Rule(_) => seen.rules += 1,
            Frame::RankStep => seen.steps += 1,
            Frame::Wish(_) => seen.wishes += 1,
            Frame::Alternative { .. } => seen.alternatives += 1,
            Frame::Fit(_) => seen.fits += 1,
            Frame::End(_) => {}
        }
        seen
    }
}
