// What a program is given: the words of its call, and the bytes of a reader. What the system answers for a word is handed in, so
// that what is made of it is fixed; what is read is, where the reader's bytes are known and no read fails.
#![tactic(auto)]

ghost use Rattle.std.specs.Prelude.{◌≡◌, ◌≤◌, ℕ, List, IfOk, OnErr, length, take};
ghost use Rattle.std.specs.Result.{result_unwrap_or};
ghost use Rattle.std.specs.Io.{WritesAtMost};
ghost use Rattle.std.specs.Io.KnownBytes.{Consumes};
ghost use Rattle.given.specs.Words.{is_there};
ghost use Rattle.given.specs.Bytes.{Gave};

use std::env::FillError;
use std::io;
use std::io::Read;

// Whether the call has the word that the system was asked for; one that is longer than its room is there too.
pub fn is_there(asked: Result<usize, FillError>) -> bool
    ensures { result ≡ is_there asked }
{
    !matches!(asked, Err(FillError::NotPresent))
}

// The word that the system was asked for, which stands at the start of its room; nothing where it is missing or longer than that.
pub fn word(asked: Result<usize, FillError>, room: &[u8]) -> &[u8]
    requires { WritesAtMost asked room.now }
    ensures { result.now ≡ take (result_unwrap_or asked 0) room.now }
{
    &room[..asked.unwrap_or(0)]
}

// Reads until the room is full or the input ends, and gives what it read. The programs have one each, which is not public
// (docs/CONTRACTS.md).
#[tactic(auto, using(crate::proofs::Reading::read_on, crate::proofs::Reading::read_all))]
pub fn read_full<'a, R: Read>(input: &mut R, room: &'a mut [u8]) -> io::Result<&'a [u8]>
    ensures within { IfOk result (λ text. length text.now ≤ length room.old) }
    ensures bytes { IfOk result (λ text. Gave (R.remaining input.old) (R.remaining input.new) (length room.old) text.now) }
    ensures err { OnErr result ((lost : List ℕ) × Consumes (R.remaining input.old) (R.remaining input.new) lost) }
{
    // By hand, since std's `read_to_end` asks for a heap, and its `read_exact` does not say how much it read.
    let mut size: usize = 0; // bytes read
    while size < room.len() {
        let more = input.read(&mut room[size..])?; // bytes
        if more == 0 {
            break;
        }
        size += more;
    }
    Ok(&room[..size])
}

#[cfg(test)]
mod tests {
    use super::*;
    use std::io::{Error, ErrorKind};
    use std::test::Fail;

    // A reader that fails.
    #[derive(Drop)]
    struct Broken;

    impl Read for Broken {
        fn read(&mut self, _buf: &mut [u8]) -> io::Result<usize> {
            Err(Error::from(ErrorKind::TimedOut))
        }
    }

    // Rooms of fewer bytes than the reader has, of as many and of more; it gives them in two reads, and has the others left.
    #[test]
    fn full_or_ended(rt: HostRuntime) -> Result<(), Fail> {
        for (size, text, others) in [
            (0, "", "abcdef"),
            (1, "a", "bcdef"),
            (2, "ab", "cdef"),
            (3, "abc", "def"),
            (6, "abcdef", ""),
            (8, "abcdef", ""),
        ] {
            let mut room = [b'-'; 8];
            let mut input = b"ab".as_slice().chain(b"cdef".as_slice());
            let first = read_full(&mut input, &mut room[..size])?;
            assert_eq!(rt; first, text.as_bytes(), "a room of {size}");
            let mut room = [b'-'; 8];
            let behind = read_full(&mut input, &mut room)?;
            assert_eq!(rt; behind, others.as_bytes(), "behind a room of {size}");
        }
        Ok(())
    }

    // The reader's error comes back, also behind bytes that were read.
    #[test]
    fn failed(rt: HostRuntime) {
        let mut room = [b'-'; 8];
        let mut input = b"ab".as_slice().chain(Broken);
        let read = read_full(&mut input, &mut room).map_err(|e| e.kind());
        assert!(rt; matches!(read, Err(ErrorKind::TimedOut)));
    }
}
