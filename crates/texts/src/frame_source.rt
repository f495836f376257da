// The frames of tables, one after another.
ghost use Rattle.std.specs.Prelude.{◌≡◌, ◌+◌, ◌^◌, ◌<◌, false, List, [], ◌∷◌, length, MatchOption, IfNone, IfSome};
ghost use Rattle.frames.specs.declared.frame.Frame.{Frame};
ghost use Rattle.texts.specs.Rows.{book_rows};
ghost use Rattle.texts.specs.Writing.{fit_frames, book_frames};
ghost use Rattle.texts.specs.Summary.{book_left, starts_last};

use crate::book::Book;
use frames::Frame;
use literals::LiteralSet;
use tables::AlternativeRow;

// Frames, and which of them are still to come. It is no bound of `Iterator`, since that would take three laws beside `left` (that
// `next` may be called, that it ends, what it gives) for what one clause says here.
pub trait FrameSource {
    // the frames that are still to come
    ghost left: { Self → List Frame };

    fn next_frame(&mut self) -> Option<Frame>
        ensures { MatchOption result (left self.old ≡ []) (λ f. left self.old ≡ f ∷ left self.new) };
}

// The rows of a catalogue that are still to come.
#[derive(Clone, Copy)]
pub struct CatalogueFrames<'a> {
    pub rows: &'a [LiteralSet],
}

impl FrameSource for CatalogueFrames<'_> {
    ghost left = { λ s. fit_frames s.rows.now };

    fn next_frame(&mut self) -> Option<Frame> {
        let (row, rest) = self.rows.split_first()?;
        self.rows = rest;
        Some(Frame::Fit(*row))
    }
}

// The rows of a book that are still to come, behind so many wishes, the rank being reached.
#[derive(Clone, Copy)]
pub struct BookFrames<'a> {
    pub book: Book<'a>,
    pub rank: u8,
    pub wishes: usize,
    ghost few: { wishes + length book.wishes.now < 2 ^ 64 },
}

impl<'a> BookFrames<'a> {
    // All rows of a book.
    pub fn of(book: Book<'a>) -> BookFrames<'a>
        ensures { book_left (book_rows result.book) result.rank result.wishes
            ≡ book_frames (book_rows book.entry) }
    {
        BookFrames {
            book,
            rank: 1,
            wishes: 0,
        }
    }

    // The next alternative, where it is one of the last wish, and those behind it.
    fn own_alternative(&self) -> Option<(AlternativeRow, &'a [AlternativeRow])>
        ensures none { IfNone result (starts_last self.now.wishes self.now.book.alternatives.now ≡ false) }
        ensures first { IfSome result (λ p. self.now.book.alternatives.now ≡ p.0 ∷ p.1.now) }
        ensures own { IfSome result (λ p. p.0.wish + 1 ≡ self.now.wishes) }
    {
        let (alternative, rest) = self.book.alternatives.split_first()?;
        if alternative.wish.checked_add(1) != Some(self.wishes) {
            return None;
        }
        Some((*alternative, rest))
    }
}

impl FrameSource for BookFrames<'_> {
    ghost left = { λ s. book_left (book_rows s.book) s.rank s.wishes };

    fn next_frame(&mut self) -> Option<Frame> {
        if let Some((rule, rest)) = self.book.rules.split_first() {
            self.book.rules = rest;
            return Some(Frame::Rule(*rule));
        }
        if let Some((alternative, rest)) = self.own_alternative() {
            self.book.alternatives = rest;
            return Some(Frame::Alternative {
                level: alternative.level,
                condition: alternative.condition,
            });
        }
        let (wish, rest) = self.book.wishes.split_first()?;
        if self.rank < wish.rank {
            self.rank += 1;
            return Some(Frame::RankStep);
        }
        self.book.wishes = rest;
        self.wishes += 1;
        Some(Frame::Wish(wish.body))
    }
}
