// Writing the text of frames: it is measured first, so that a refusal leaves the buffer as it was.
ghost use Rattle.std.specs.Prelude.{◌≡◌, ◌≤◌, true, false, ◌++◌, length, drop, MatchOption, IfSome};
ghost use Rattle.texts.specs.Writing.{ending, text_of, holdable, write_text, written};

use crate::fault::{Fault, Refusal};
use crate::frame_source::FrameSource;
use crate::judge::LIMIT;
use frames::{Frame, line_length, write_frame};

// The length of the end frame's line.
const END_LINE: usize = 9;

// The length of a text in bytes, and the number of its frames before the end frame.
#[derive(Clone, Copy)]
struct TextSize {
    bytes: usize,
    frames: u16,
}

// The size of the text of frames, the end frame included; none where no text can hold them. Bytes and frames are added up here,
// since a source of frames is no iterator.
fn measure<F: FrameSource + Copy>(frames: F) -> Option<TextSize>
    ensures can { MatchOption result (holdable (F.left frames) ≡ false) (λ _. holdable (F.left frames) ≡ true) }
    ensures bytes { IfSome result (λ s. s.bytes ≡ length (text_of (ending (F.left frames)))) }
    ensures frames { IfSome result (λ s. s.frames ≡ length (F.left frames)) }
{
    let mut source = frames;
    let mut bytes = END_LINE;
    let mut count: u16 = 0;
    while let Some(frame) = source.next_frame() {
        bytes += line_length(frame);
        if bytes > LIMIT || count == u16::MAX {
            return None;
        }
        count += 1;
    }
    Some(TextSize {
        bytes,
        frames: count,
    })
}

// Writes the lines of frames at the front of a buffer, each into the tail behind the line before, as the project asks; how many
// bytes they have. The place is counted, since of a tail that is handed on the proof does not know what it leaves in the buffer
// (tried).
fn write_lines<F: FrameSource + Copy>(frames: F, out: &mut [u8]) -> usize
    requires { length (text_of (F.left frames)) ≤ length out.old }
    ensures number { result ≡ length (text_of (F.left frames)) }
    ensures buffer { out.new ≡ text_of (F.left frames) ++ drop (length (text_of (F.left frames))) out.old }
{
    let mut source = frames;
    let mut at = 0;
    while let Some(frame) = source.next_frame() {
        at += write_frame(frame, &mut out[at..]).unwrap();
    }
    at
}

// Writes the text of frames, the end frame included, at the front of a buffer; how many bytes it has. A refusal leaves the buffer
// as it was.
pub(crate) fn write_text<F: FrameSource + Copy>(frames: F, out: &mut [u8]) -> Result<usize, Refusal>
    ensures result { result
        ≡ write_text (holdable (F.left frames)) (text_of (ending (F.left frames))) (length out.old) }
    ensures buffer { out.new ≡ written result (text_of (ending (F.left frames))) out.old }
{
    let Some(size) = measure(frames) else {
        return Err(Fault::NoText.into());
    };
    if out.len() < size.bytes {
        return Err(Fault::BufferShort.into());
    }
    let at = write_lines(frames, out);
    let _ = write_frame(Frame::End(size.frames), &mut out[at..]);
    Ok(size.bytes)
}
