// A record of the sample: its call, then its other bytes, read whole and compared with what the call replied.
ghost use Rattle.std.specs.Prelude.{◌+◌, ◌≤◌, length};

use arguments::Reply;
use std::io;
use std::io::{ErrorKind, Read};

// Fills a record with the next bytes of the file; no where the file ends first.
pub fn filled(file: &mut impl Read, bytes: &mut [u8]) -> io::Result<bool> {
    match file.read_exact(bytes) {
        Ok(()) => Ok(true),
        Err(error) if error.kind() == ErrorKind::UnexpectedEof => Ok(false),
        Err(error) => Err(error),
    }
}

// The next record's call; none at the end of the file, which a call 0 says too.
pub fn call(file: &mut impl Read) -> io::Result<Option<u32>> {
    let mut number = [0u8; 1];
    let whole = filled(file, &mut number)?;
    let call = u32::from(number[0]);
    Ok((whole && call != 0).then_some(call))
}

// The next record, of N bytes behind its call; none where the file ends first.
pub fn read<const N: usize>(file: &mut impl Read) -> io::Result<Option<[u8; N]>> {
    let mut record = [0u8; N];
    let whole = filled(file, &mut record)?;
    Ok(whole.then_some(record))
}

// Whether a reply is the recorded one: the number, then whether there is an answer.
pub fn replied(bytes: &[u8], at: usize, r: Reply) -> bool
    requires { at + 2 ≤ length bytes.now }
{
    u32::from(bytes[at]) == r.code && u32::from(bytes[at + 1]) == r.found
}
