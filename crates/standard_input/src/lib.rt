// Standard input, or a file, read into a buffer: what the programs share.
#![tactic(auto)]

ghost use Rattle.std.specs.Prelude.{◌≤◌, IfOk, IfErr, length};

use std::io;
use std::io::Read;

// A read failed: the bytes that were read before it, and why.
#[derive(Debug, Drop)]
pub struct ReadError<'a> {
    pub read: &'a [u8],
    pub error: io::Error,
}

// Reads until the buffer is full, the input ends or a read fails, and lends the bytes that it read, the first of the buffer; it asks for no
// byte past the buffer. Of the bytes of standard input or of a file no contract can speak: what a read brings is the system's. Nor does one
// name the buffer after the call: it is lent out.
pub fn read_input<'a, R: Read>(reader: &mut R, buf: &'a mut [u8]) -> Result<&'a [u8], ReadError<'a>>
    ensures read { IfOk result (λ bytes. length bytes.now ≤ length buf.old) }
    ensures read_before { IfErr result (λ e. length e.read.now ≤ length buf.old) }
{
    let mut length = 0;
    // no index is counted: a read gives as many bytes as it likes
    while length < buf.len() {
        match reader.read(&mut buf[length..]) {
            Ok(0) => break,
            Ok(more) => length += more,
            Err(error) => {
                let read = &buf[..length];
                return Err(ReadError { read, error });
            }
        }
    }
    Ok(&buf[..length])
}
