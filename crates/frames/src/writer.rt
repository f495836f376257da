// Writing: the line of a frame, at the front of a buffer.
ghost use Rattle.std.specs.Prelude.{◌≡◌, ◌+◌, ◌*◌, ◌%◌, ◌≤◌, [], ◌∷◌, ◌++◌, length, sum};
ghost use Rattle.frames.specs.declared.frame.Frame.TheVariants.{Rule};
ghost use Rattle.std.specs.List.{flat_map};
ghost use Rattle.frames.specs.Frames.{word_bytes, sealed, line_with, line_for, wrote_in, written_in};

use crate::frame::Frame;
use crate::hex::push_hex;
use arrayvec::ArrayVec;
use literals::Condition;
use tables::RuleRow;

// The longest kind and fields of a frame that is read, in bytes.
const LONGEST: usize = 51;

// The longest line, that of a row of 255 columns.
const LONGEST_LINE: usize = 1027;

// The sum of bytes modulo 251. That bytes are at most 512 is a premise here and below, and no type of theirs, since they come as
// arrays of their own and out of buffers.
fn check_byte(body: &[u8]) -> u8
    requires { length body.now ≤ 512 }
    ensures { result ≡ sum body.now % 251 }
{
    let sum: u32 = body.iter().map(|b| u32::from(*b)).sum();
    (sum % 251) as u8
}

// The line of a kind and fields: their digits and those of the check byte, and a line feed.
fn line(body: &[u8]) -> ArrayVec<u8, LONGEST_LINE>
    requires { length body.now ≤ 512 }
    ensures bytes { result.items ≡ line_with (sealed body.now) }
    ensures len { length result.items ≡ 2 * length body.now + 3 }
{
    let mut line = ArrayVec::new();
    for byte in body {
        push_hex(&mut line, *byte);
    }
    push_hex(&mut line, check_byte(body));
    line.push(b'\n');
    line
}

// Writes the line of a kind and fields at the front of `out`, and leaves what is behind it.
// Where there is no room it writes nothing, and makes no line.
#[tactic(auto, using(crate::proofs::WriteLaws::line_with_long))]
pub(crate) fn write_line(body: &[u8], out: &mut [u8]) -> Option<usize>
    requires { length body.now ≤ 512 }
    ensures result { result ≡ wrote_in (line_with (sealed body.now)) out.old }
    ensures buffer { out.new ≡ written_in (line_with (sealed body.now)) out.old }
{
    let count = 2 * body.len() + 3;
    if out.len() < count {
        return None;
    }
    out[..count].copy_from_slice(line(body).as_slice());
    Some(count)
}

// The kind and fields of a frame: bytes, the kind first, and then numbers of `WIDTH` bytes each,
// highest byte first. There is room for them, so no `unwrap` fails.
pub(crate) fn fields<const WIDTH: usize, const ROOM: usize>(
    head: &[u8],
    numbers: &[u64],
) -> ArrayVec<u8, ROOM>
    requires width { WIDTH ≤ 8 }
    requires room { length head.now + WIDTH * length numbers.now ≤ ROOM }
    ensures { result.items ≡ head.now ++ flat_map (word_bytes WIDTH) numbers.now }
{
    let mut body = ArrayVec::new();
    body.try_extend_from_slice(head).unwrap();
    for number in numbers {
        body.try_extend_from_slice(&number.to_be_bytes()[8 - WIDTH..])
            .unwrap();
    }
    body
}

// Writes the line of bytes, the kind first, and words.
fn write_fields(head: &[u8], words: &[u64], out: &mut [u8]) -> Option<usize>
    requires { length head.now + 8 * length words.now ≤ 51 }
    ensures result { result ≡ wrote_in
        (line_with (sealed (head.now ++ flat_map (word_bytes 8) words.now))) out.old }
    ensures buffer { out.new ≡ written_in
        (line_with (sealed (head.now ++ flat_map (word_bytes 8) words.now))) out.old }
{
    let body = fields::<8, LONGEST>(head, words);
    write_line(body.as_slice(), out)
}

// The words of a condition.
fn condition_words(condition: Condition) -> [u64; 4]
    ensures { result ≡ condition.wanted.plus ∷ condition.wanted.minus
        ∷ condition.absent.plus ∷ condition.absent.minus ∷ [] }
{
    let Condition { wanted, absent } = condition;
    [wanted.plus, wanted.minus, absent.plus, absent.minus]
}

// Writes the line of a rule's frame. Here and below a kind is the format's own byte: an enum of kinds would be a second list of
// the cases of a frame.
fn write_rule(row: RuleRow, out: &mut [u8]) -> Option<usize>
    ensures result { result ≡ wrote_in (line_for (Rule row)) out.old }
    ensures buffer { out.new ≡ written_in (line_for (Rule row)) out.old }
{
    match row {
        RuleRow::Plain { code, body } => write_fields(&[0x01, code], &condition_words(body), out),
        RuleRow::Constraint { body } => write_fields(&[0x02], &condition_words(body), out),
        RuleRow::Choice {
            least,
            greatest,
            head,
            body,
        } => {
            let [a, b, c, d] = condition_words(body);
            write_fields(
                &[0x03, least, greatest],
                &[head.plus, head.minus, a, b, c, d],
                out,
            )
        }
    }
}

// Writes the line of a frame at the front of `out`, and leaves what is behind it.
// Where there is no room it writes nothing.
pub fn write_frame(frame: Frame, out: &mut [u8]) -> Option<usize>
    ensures result { result ≡ wrote_in (line_for frame) out.old }
    ensures buffer { out.new ≡ written_in (line_for frame) out.old }
{
    match frame {
        Frame::Rule(row) => write_rule(row, out),
        Frame::RankStep => write_line(&[0x10], out),
        Frame::Wish(body) => write_fields(&[0x11], &condition_words(body), out),
        Frame::Alternative { level, condition } => {
            write_fields(&[0x12, level], &condition_words(condition), out)
        }
        Frame::End(count) => {
            let [high, low] = count.to_be_bytes();
            write_line(&[0x20, high, low], out)
        }
        Frame::Fit(set) => write_fields(&[0x30], &[set.plus, set.minus], out),
    }
}

// The length of a frame's line, two digits a byte and a line feed.
pub fn line_length(frame: Frame) -> usize
    ensures { result ≡ length (line_for frame) }
{
    match frame {
        Frame::Rule(RuleRow::Plain { .. }) => 71,
        Frame::Rule(RuleRow::Constraint { .. }) => 69,
        Frame::Rule(RuleRow::Choice { .. }) => 105,
        Frame::RankStep => 5,
        Frame::Wish(_) => 69,
        Frame::Alternative { .. } => 71,
        Frame::End(_) => 9,
        Frame::Fit(_) => 37,
    }
}
