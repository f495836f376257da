// What has been seen of a text so far, and whether a frame may come next.

mod calls;

use frames::Frame;

// The two sorts of texts. They differ in which frames may stand where, and there alone one asks which it is.
#[derive(Clone, Copy, PartialEq, Eq, Debug)]
pub enum TextKind {
    // rules, then wishes with their alternatives, then the end frame
    Book,
    // fits, then the end frame
    Catalogue,
}

// The frames before a line: how many there are, in all and of each sort that counts, and the last of them.
#[derive(Clone, Copy)]
pub struct Seen {
    pub frames: usize,
    pub rules: usize,
    pub steps: usize,
    pub wishes: usize,
    pub alternatives: usize,
    pub fits: usize,
    pub last: Option<Frame>,
}
