// The text of a case. `/` stands for the line feed, and a few more signs for bytes that a line of input cannot well have.
use crate::words::repeated;
use std::alloc::Global;

// The byte that a byte of a case stands for.
fn meant(byte: u8) -> u8 {
    match byte {
        b'/' => b'\n',
        b'\\' => b'/',
        b'_' => b' ',
        b'~' => b'\r',
        b'^' => 0,
        other => other,
    }
}

// The text of these words, each behind the one before. It grows byte by byte: a word with many copies reserves no more than the
// bytes need as they come.
pub fn text_of(heap: Global, words: &[&str]) -> anyhow::Result<Vec<u8>> {
    let mut text = Vec::new(heap);
    for word in words {
        let (times, once) = repeated(word)?;
        for byte in (0..times).flat_map(|_| once.bytes()) {
            text.push(meant(byte))?;
        }
    }
    Ok(text)
}
