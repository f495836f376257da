// Reading: the frame of the line at the front of a text.
ghost use Rattle.std.specs.Prelude.{◌≡◌, ◌<◌, ◌≤◌, ◌==◌, length, take, drop, position, Ok, Err, MatchOption, MatchResult};
ghost use Rattle.std.specs.Option.{option_map};
ghost use Rattle.frames.specs.Digits.{bytes_of};
ghost use Rattle.frames.specs.Frames.{word_of, set_of, condition_of, said_by, parsed, body_of, framed, line_of, behind, read_frame};

use crate::frame::{DigitFault, Frame, FrameFault};
use crate::hex::Digits;
use literals::{Condition, LiteralSet};
use tables::RuleRow;

// The longest frame that has a kind, in bytes.
const LONGEST: usize = 52;

// A word, highest byte first, and the bytes behind it.
fn word(bytes: &[u8]) -> Option<(u64, &[u8])>
    ensures { MatchOption result (length bytes.now < 8)
        (λ p. (8 ≤ length bytes.now) × (p.0 ≡ word_of (take 8 bytes.now)) × (p.1.now ≡ drop 8 bytes.now)) }
{
    let (word, rest) = bytes.split_first_chunk::<8>()?;
    Some((u64::from_be_bytes(*word), rest))
}

// A set of literals, and the bytes behind it.
fn set_of_literals(bytes: &[u8]) -> Option<(LiteralSet, &[u8])>
    ensures { MatchOption result (length bytes.now < 16)
        (λ p. (16 ≤ length bytes.now) × (p.0 ≡ set_of (take 16 bytes.now)) × (p.1.now ≡ drop 16 bytes.now)) }
{
    let (plus, rest) = word(bytes)?;
    let (minus, rest) = word(rest)?;
    Some((LiteralSet { plus, minus }, rest))
}

// The condition of exactly four words.
fn condition(fields: &[u8]) -> Option<Condition>
    ensures { result ≡ condition_of fields.now }
{
    let (wanted, rest) = set_of_literals(fields)?;
    let (absent, []) = set_of_literals(rest)? else {
        return None;
    };
    Some(Condition { wanted, absent })
}

// What a kind and its fields say; nothing where the kind is unknown or the length is not its own. The kinds are the format's bytes.
fn said_by(body: &[u8]) -> Option<Frame>
    ensures { result ≡ said_by body.now }
{
    match body {
        [0x01, code, rest @ ..] => {
            let body = condition(rest)?;
            Some(Frame::Rule(RuleRow::Plain { code: *code, body }))
        }
        [0x02, rest @ ..] => {
            let body = condition(rest)?;
            Some(Frame::Rule(RuleRow::Constraint { body }))
        }
        [0x03, least, greatest, rest @ ..] => {
            let (head, rest) = set_of_literals(rest)?;
            let body = condition(rest)?;
            Some(Frame::Rule(RuleRow::Choice {
                least: *least,
                greatest: *greatest,
                head,
                body,
            }))
        }
        [0x10] => Some(Frame::RankStep),
        [0x11, rest @ ..] => condition(rest).map(Frame::Wish),
        [0x12, level, rest @ ..] => {
            let condition = condition(rest)?;
            Some(Frame::Alternative {
                level: *level,
                condition,
            })
        }
        [0x20, high, low] => Some(Frame::End(u16::from_be_bytes([*high, *low]))),
        [0x30, rest @ ..] => {
            let (set, []) = set_of_literals(rest)? else {
                return None;
            };
            Some(Frame::Fit(set))
        }
        _ => None,
    }
}

// The frame of bytes, of which the last is the check byte.
fn parse(bytes: &[u8]) -> Result<Frame, FrameFault>
    ensures { result ≡ parsed (body_of bytes.now) }
{
    let [body @ .., _] = bytes else {
        return Err(FrameFault::Kind);
    };
    let frame = said_by(body).ok_or(FrameFault::Kind)?;
    if !frame.makes_record() {
        return Err(FrameFault::Field);
    }
    Ok(frame)
}

// The frame that digits write.
fn decode(digits: &Digits) -> Result<Frame, FrameFault>
    ensures { result ≡ framed (bytes_of digits.now.line.now) }
{
    if !digits.check_holds() {
        return Err(FrameFault::Check);
    }
    let bytes = digits.bytes::<LONGEST>().ok_or(FrameFault::Kind)?;
    parse(bytes.as_slice())
}

// Where the first line feed stands.
fn line_feed(text: &[u8]) -> Option<usize>
    ensures { result ≡ position (λ b. b == 10) text.now }
{
    text.iter().position(|b| *b == b'\n')
}

// The line at the front of a text, and the text behind its line feed.
fn split_line(text: &[u8]) -> (&[u8], Option<&[u8]>)
    ensures line { result.0.now ≡ line_of text.now }
    ensures rest { option_map (λ x. x.now) result.1 ≡ behind text.now }
{
    match line_feed(text) {
        Some(at) => (&text[..at], Some(&text[at + 1..])),
        None => (text, None),
    }
}

// The frame at the front of a text, with the text that follows it.
pub fn read_frame(text: &[u8]) -> Result<(Frame, &[u8]), FrameFault>
    ensures { MatchResult result
        (λ p. read_frame text.now ≡ Ok (p.0, p.1.now))
        (λ e. read_frame text.now ≡ Err e) }
{
    let (line, rest) = split_line(text);
    let digits = Digits::of(line)?;
    let rest = rest.ok_or(DigitFault::NoLineFeed)?;
    let frame = decode(&digits)?;
    Ok((frame, rest))
}
