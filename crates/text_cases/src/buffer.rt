// Buffers to write to: what they are full of before, and how they are shown after.
use std::fmt;

// The byte that a buffer is full of before a case.
pub const UNTOUCHED: u8 = b'.';

// The longest text that is shown.
const LONGEST_SHOWN: usize = 2000;

// Whether nothing has been written to a buffer.
pub fn is_untouched(buffer: &[u8]) -> bool {
    buffer.iter().all(|byte| *byte == UNTOUCHED)
}

// Shows each byte as the character of its number. Where all are ASCII they go out in one piece: byte by byte takes several times
// as long.
fn write_bytes<W: fmt::Write>(f: &mut fmt::Formatter<W>, bytes: &[u8]) -> fmt::Result {
    if bytes.is_ascii() {
        if let Ok(text) = str::from_utf8(bytes) {
            return f.write_str(text);
        }
    }
    for byte in bytes {
        f.write_char(char::from(*byte))?;
    }
    Ok(())
}

// A buffer with so many bytes written at its front. It is shown as one line, with `/` for the line feed; of a long one, only
// whether the bytes behind the first ones are untouched.
#[derive(Clone, Copy)]
pub struct Written<'a> {
    pub count: usize,
    pub buffer: &'a [u8],
}

impl fmt::Display for Written<'_> {
    fn fmt<W: fmt::Write>(&self, f: &mut fmt::Formatter<W>) -> fmt::Result {
        if self.buffer.len() > LONGEST_SHOWN {
            let behind = self.buffer.get(self.count..).unwrap_or(self.buffer);
            return f.write_str(if is_untouched(behind) {
                "too long to be shown"
            } else {
                "BAD bytes behind"
            });
        }
        for (number, line) in self.buffer.split(|byte| *byte == b'\n').enumerate() {
            if number > 0 {
                f.write_char('/')?;
            }
            write_bytes(f, line)?;
        }
        Ok(())
    }
}
