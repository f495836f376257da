// Hexadecimal digits and the bytes that they write.
ghost use Rattle.std.specs.Prelude.{◌≡◌, ◌+◌, ◌*◌, ◌<◌, ◌≤◌, true, not, [], ◌∷◌, ◌++◌, length, position, None};
ghost use Rattle.frames.specs.Digits.{is_digit, value_of, digit_of, hex_of, digit_fault};

use crate::frame::DigitFault;
use arrayvec::ArrayVec;

// A line of good digits, an even number and four at least.
#[derive(Clone, Copy)]
pub(crate) struct Digits<'a> {
    line: &'a [u8],
    ghost good: { digit_fault line.now ≡ None },
}

impl<'a> Digits<'a> {
    ghost use Rattle.std.specs.Prelude.{Some, MatchOption, MatchResult};
    ghost use Rattle.frames.specs.Digits.{bytes_of};
    ghost use Rattle.frames.specs.Frames.{checked_from};

    // The digits of a line, or why it has none.
    pub(crate) fn of(line: &'a [u8]) -> Result<Digits<'a>, DigitFault>
        ensures { MatchResult result
            (λ d. d.line.now ≡ line.now)
            (λ e. digit_fault line.now ≡ Some e) }
    {
        if let Some(at) = first_bad(line) {
            let byte = line[at];
            return Err(DigitFault::BadByte { at, byte });
        }
        if line.len() % 2 != 0 {
            return Err(DigitFault::Odd);
        }
        if line.len() < 4 {
            return Err(DigitFault::Few);
        }
        Ok(Digits { line })
    }

    // Whether the last byte that the digits write is the sum of the others modulo 251.
    pub(crate) fn check_holds(&self) -> bool
        ensures { result ≡ checked_from 0 (bytes_of self.now.line.now) }
    {
        let mut sum: u32 = 0;
        let mut rest = self.line;
        while let [high, low, more @ ..] = rest {
            let byte = byte_of(*high, *low);
            if more.len() < 2 {
                return byte as u32 == sum;
            }
            sum = (sum + byte as u32) % 251;
            rest = more;
        }
        false
    }

    // The bytes that the digits write, where there are at most `ROOM`. It goes over the digits by twos as above; but that ends before
    // the last byte, so there is a loop for each. Room is asked for once, since a test at each byte costs a quarter of all reading.
    #[tactic(auto, using(crate::proofs::HexLaws::length_bytes_of))]
    pub(crate) fn bytes<const ROOM: usize>(&self) -> Option<ArrayVec<u8, ROOM>>
        ensures { MatchOption result
            (ROOM < length (bytes_of self.now.line.now))
            (λ v. v.items ≡ bytes_of self.now.line.now) }
    {
        if self.line.len() / 2 > ROOM {
            return None;
        }
        let mut bytes = ArrayVec::new();
        let mut rest = self.line;
        while let [high, low, more @ ..] = rest {
            bytes.push(byte_of(*high, *low));
            rest = more;
        }
        Some(bytes)
    }
}

// The position of the first byte that is no digit.
fn first_bad(line: &[u8]) -> Option<usize>
    ensures { result ≡ position (λ b. not (is_digit b)) line.now }
{
    line.iter().position(|b| !is_digit(*b))
}

fn is_digit(b: u8) -> bool
    ensures { result ≡ is_digit b }
{
    matches!(b, b'0'..=b'9' | b'A'..=b'F')
}

// The value of a digit. By hand, as `digit` is: the library's `to_digit` takes small letters too,
// and its `from_digit` gives them.
fn digit_value(b: u8) -> u8
    requires { is_digit b ≡ true }
    ensures value { result ≡ value_of b }
    ensures bound { result < 16 }
{
    if b <= b'9' { b - b'0' } else { b - b'A' + 10 }
}

// The byte that two digits write.
fn byte_of(high: u8, low: u8) -> u8
    requires high { is_digit high ≡ true }
    requires low { is_digit low ≡ true }
    ensures { result ≡ value_of high * 16 + value_of low }
{
    digit_value(high) * 16 + digit_value(low)
}

// The digit of a value.
fn digit(value: u8) -> u8
    requires { value < 16 }
    ensures { result ≡ digit_of value }
{
    if value < 10 {
        b'0' + value
    } else {
        b'A' + (value - 10)
    }
}

// Puts the digits of a byte behind `line`.
pub(crate) fn push_hex<const ROOM: usize>(line: &mut ArrayVec<u8, ROOM>, byte: u8)
    requires { length line.old.items + 2 ≤ ROOM }
    ensures items { line.new.items ≡ line.old.items ++ hex_of (byte ∷ []) }
    ensures len { length line.new.items ≡ length line.old.items + 2 }
{
    line.push(digit(byte / 16));
    line.push(digit(byte % 16));
}
