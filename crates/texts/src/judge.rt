// Judging a whole text before anything is written from it: the lines in turn, and the first fault with its line.
ghost use Rattle.std.specs.Prelude.{◌≡◌, ◌≤◌, List, [], length, Ok, Err, MatchResult};
ghost use Rattle.frames.specs.declared.frame.Frame.{Frame};
ghost use Rattle.texts.specs.Lines.{lines};
ghost use Rattle.texts.specs.Reading.{limit, read_from, frames_in};
ghost use Rattle.texts.specs.Summary.{Saw, SawRead, stepped};

use crate::fault::{Fault, Refusal};
use crate::seen::{Seen, TextKind};
use frames::{Frame, read_frame};

// The longest text, in bytes.
pub(crate) const LIMIT: usize = 1_048_576;

// The frame at the front of a text, where it may come next, together with the text that follows it. Kind, what was seen and text
// are no struct with a step, since a text does not tell its kind, and a row is made by what was seen before its frame.
pub(crate) fn next_frame(kind: TextKind, seen: Seen, text: &[u8]) -> Result<(Frame, &[u8]), Fault>
    ensures { (fs : List Frame) → Saw seen fs
        → MatchResult result (λ p. stepped kind fs text.now ≡ Ok (p.0, p.1.now))
        (λ e. stepped kind fs text.now ≡ Err e) }
{
    let (frame, rest) = read_frame(text)?;
    seen.admit(kind, frame)?;
    Ok((frame, rest))
}

// What has been seen of a text within the limit.
fn judge(kind: TextKind, text: &[u8]) -> Result<Seen, Refusal>
    requires { length text.now ≤ limit }
    ensures { SawRead (read_from kind [] (lines text.now)) result }
{
    let mut rest = text;
    let mut seen = Seen::START;
    while !rest.is_empty() {
        match next_frame(kind, seen, rest) {
            Ok((frame, behind)) => {
                seen = seen.after(frame);
                rest = behind;
            }
            Err(fault) => return Err(seen.refusal(fault)),
        }
    }
    if seen.is_ended() {
        return Ok(seen);
    }
    Err(seen.refusal(Fault::Place))
}

// What has been seen of an accepted text; a text above the limit is refused before its lines are looked at.
pub(crate) fn accept(kind: TextKind, text: &[u8]) -> Result<Seen, Refusal>
    ensures { SawRead (frames_in kind text.now) result }
{
    if text.len() > LIMIT {
        return Err(Fault::TooLong.into());
    }
    judge(kind, text)
}
