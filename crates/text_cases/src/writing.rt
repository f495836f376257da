// Writing to a buffer, which is then shown.
use crate::buffer::{UNTOUCHED, Written, is_untouched};
use literals::Numbered;
use std::alloc::{AllocError, Global};

// What comes of writing to a buffer of so many bytes.
pub fn try_write<E: Numbered + Drop, W: FnOnce(&mut [u8]) -> Result<usize, E>>(
    heap: Global,
    room: usize,
    write: W,
) -> Result<String, AllocError>
    requires { W.IsAlwaysCallable write }
{
    let mut buffer = vec![in heap; UNTOUCHED; room]?;
    match write(buffer.as_mut_slice()) {
        Ok(count) => {
            let buffer = buffer.as_slice();
            let text = Written { count, buffer };
            format!(in heap; "written: {count} bytes, {text}")
        }
        Err(refusal) => {
            let number = refusal.number();
            let kept = if is_untouched(buffer.as_slice()) {
                ""
            } else {
                ", BAD buffer"
            };
            format!(in heap; "refused: {number}{kept}")
        }
    }
}
