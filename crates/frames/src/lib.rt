// Frames: lines of hexadecimal digits, one frame a line.
#![tactic(auto)]

mod answer_frames;
mod frame;
mod hex;
mod reader;
mod writer;

pub use answer_frames::{WriteFault, write_more, write_refusal, write_row};
pub use frame::{DigitFault, Frame, FrameFault};
pub use reader::read_frame;
pub use writer::{line_length, write_frame};

#[cfg(test)]
mod tests {
    use crate::answer_frames::*;
    use crate::reader::*;
    use crate::writer::*;
    use literals::Numbered;

    // Whether a line is read as a frame whose line it is.
    fn rewritten(line: &[u8]) -> bool {
        let mut out = [0; 105];
        match read_frame(line) {
            Ok((frame, rest)) => {
                let count = write_frame(frame, &mut out);
                rest.is_empty() && count == Some(line.len()) && out.starts_with(line)
            }
            Err(_) => false,
        }
    }

    // The number of the fault of a line, where it has one.
    fn fault(line: &[u8]) -> Option<u8> {
        read_frame(line).err().map(|fault| fault.number())
    }

    #[test]
    fn each_kind(rt: HostRuntime) {
        assert!(rt;
            rewritten(
                b"03010100000000000000030000000000000000000000000000000000000000000000000000000000000000000000000000000008\n",
            )
        );
        assert!(rt;
            rewritten(b"010800000000000000010000000000000000000000000000000000000000000000000A\n",)
        );
        assert!(rt;
            rewritten(b"02000000000000000600000000000000000000000000000000000000000000000008\n",)
        );
        assert!(rt;
            rewritten(b"11000000000000000800000000000000000000000000000000000000000000000019\n",)
        );
        assert!(rt;
            rewritten(b"1201000000000000000200000000000000000000000000000000000000000000000015\n",)
        );
        assert!(rt; rewritten(b"1010\n"));
        assert!(rt; rewritten(b"20000B2B\n"));
        assert!(rt; rewritten(b"300000000000000015000000000000000045\n"));
    }

    #[test]
    fn each_fault(rt: HostRuntime) {
        assert_eq!(rt; fault(b"10G0\n"), Some(1));
        assert_eq!(rt; fault(b"101\n"), Some(1));
        assert_eq!(rt; fault(b"10\n"), Some(1));
        assert_eq!(rt; fault(b"1011"), Some(1));
        assert_eq!(rt; fault(b"1G11\n"), Some(1));
        assert_eq!(rt; fault(b"1011\n"), Some(2));
        assert_eq!(rt; fault(b"3132\n"), Some(2));
        assert_eq!(rt; fault(b"3131\n"), Some(3));
        assert_eq!(rt; fault(b"200020\n"), Some(3));
        assert_eq!(rt; fault(b"018081\n"), Some(3));
        assert_eq!(rt;
            fault(b"0180000000000000000000000000000000000000000000000000000000000000000081\n"),
            Some(4)
        );
        assert_eq!(rt;
            fault(
                b"03000200000000000000010000000000000000000000000000000000000000000000000000000000000000000000000000000006\n",
            ),
            Some(4)
        );
        assert_eq!(rt;
            fault(b"120900000000000000000000000000000000000000000000000000000000000000001B\n"),
            Some(4)
        );
        assert_eq!(rt; fault(b"300000000000000001000000000000000132\n"), Some(4));
    }

    // The length of what was written, or the number of the refusal.
    fn outcome(wrote: Result<usize, WriteFault>) -> Result<usize, u8> {
        wrote.map_err(|fault| fault.number())
    }

    #[test]
    fn answers(rt: HostRuntime) {
        let mut out = [0; 15];
        assert_eq!(rt; outcome(write_row(&[0, 1], &mut out)), Ok(15));
        assert!(rt; out.starts_with(b"31020000000134\n"));
        assert_eq!(rt; outcome(write_refusal(&(40, 0), &mut out)), Ok(15));
        assert!(rt; out.starts_with(b"3F280000000067\n"));
        assert_eq!(rt; outcome(write_more(&mut out)), Ok(5));
        assert!(rt; out.starts_with(b"3232\n0000"));
        assert_eq!(rt; outcome(write_row(&[65536, 0, 0], &mut out)), Err(22));
        assert_eq!(rt; outcome(write_row(&[0, 0, 0], &mut out)), Err(21));
    }
}
