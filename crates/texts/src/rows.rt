// Filling a table from an accepted text.
ghost use Rattle.std.specs.Prelude.{◌≡◌, ℕ, ◌+◌, ◌<◌, ◌≤◌, true, List, [], length, Ok, Option};
ghost use Rattle.frames.specs.declared.frame.Frame.{Frame};
ghost use Rattle.texts.specs.Reading.{frames_in};
ghost use Rattle.tables.specs.Tables.{onto};
ghost use Rattle.texts.specs.Rows.{rows_in, overwritten, rule_in, wish_in, alternative_in, fit_in};
ghost use Rattle.texts.specs.Summary.{placed_at};

use crate::judge::next_frame;
use crate::seen::{Seen, TextKind};
use frames::Frame;
use literals::LiteralSet;
use tables::{AlternativeRow, RuleRow, WishRow};

// A row of a table that texts fill.
pub trait FrameRow {
    // the row that a frame gives, behind so many rank steps and so many wishes
    ghost given: { ℕ → ℕ → Frame → Option Self };

    fn of_frame(steps: usize, wishes: usize, frame: Frame) -> Option<Self>
        requires { steps ≤ 15 }
        ensures { result ≡ given steps wishes frame };
}

impl FrameRow for RuleRow {
    ghost given = { rule_in };

    fn of_frame(_steps: usize, _wishes: usize, frame: Frame) -> Option<RuleRow> {
        match frame {
            Frame::Rule(row) => Some(row),
            _ => None,
        }
    }
}

impl FrameRow for WishRow {
    ghost given = { wish_in };

    fn of_frame(steps: usize, _wishes: usize, frame: Frame) -> Option<WishRow> {
        match frame {
            Frame::Wish(body) => Some(WishRow {
                rank: steps as u8 + 1,
                body,
            }),
            _ => None,
        }
    }
}

impl FrameRow for AlternativeRow {
    ghost given = { alternative_in };

    fn of_frame(_steps: usize, wishes: usize, frame: Frame) -> Option<AlternativeRow> {
        match frame {
            Frame::Alternative { level, condition } => Some(AlternativeRow {
                wish: wishes.saturating_sub(1),
                level,
                condition,
            }),
            _ => None,
        }
    }
}

impl FrameRow for LiteralSet {
    ghost given = { fit_in };

    fn of_frame(_steps: usize, _wishes: usize, frame: Frame) -> Option<LiteralSet> {
        match frame {
            Frame::Fit(set) => Some(set),
            _ => None,
        }
    }
}

// Puts a row, if there is one, behind the first `count`; how many there are then. The count stands beside the table since of a
// tail that the loop below would hand on, as by `split_first_mut`, the proof does not know what it leaves in the table (tried).
fn put<R: Copy>(table: &mut [R], count: usize, row: Option<R>) -> usize
    requires { length (onto row []) + count ≤ length table.old }
    ensures number { result ≡ count + length (onto row []) }
    ensures table { table.new ≡ placed_at table.old count row }
{
    match row {
        Some(row) => {
            table[count] = row;
            count + 1
        }
        None => count,
    }
}

// Writes the rows that an accepted text gives at the front of a table.
pub(crate) fn fill<R: FrameRow + Copy>(kind: TextKind, text: &[u8], table: &mut [R])
    requires { (fs : List Frame) × (frames_in kind text.now ≡ Ok fs)
        × (length (rows_in R.given fs) ≤ length table.old) }
    ensures { (fs : List Frame) → frames_in kind text.now ≡ Ok fs
        → table.new ≡ overwritten (rows_in R.given fs) table.old }
{
    let mut rest = text;
    let mut seen = Seen::START;
    let mut count = 0;
    while let Ok((frame, behind)) = next_frame(kind, seen, rest) {
        count = put(table, count, R::of_frame(seen.steps, seen.wishes, frame));
        seen = seen.after(frame);
        rest = behind;
    }
}
