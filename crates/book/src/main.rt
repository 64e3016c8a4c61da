// Reads records from standard input to its end, and writes an answer record for each to standard output.
#![tactic(auto)]

use desk::{Desk, Turn};
use std::io;
use std::io::{BufWriter, Read, Write};

/// How many bytes are read at once.
const CHUNK_BYTES: usize = 4096;

fn main(rt: HostRuntime) -> io::Result<()> {
    let mut input = rt.stdin();
    let mut output = BufWriter::new(rt.alloc(), rt.stdout())?;
    let mut desk = Desk::new();
    let mut chunk = [0; CHUNK_BYTES];
    // A count, and no loop without one: that would need leave to run for ever, which nothing here has.
    for _ in 0..u64::MAX {
        let n = input.read(&mut chunk)?;
        if n == 0 {
            if let Some(reply) = desk.finish() {
                output.write_all(reply.line().as_bytes())?;
            }
            break;
        }
        if !serve(&mut desk, &chunk[0..n], &mut output)? {
            break;
        }
    }
    output.flush()
}

// Hands a chunk on, and writes the reply to each record that ends in it; answers whether there is more to read.
fn serve(desk: &mut Desk, chunk: &[u8], output: &mut impl Write) -> io::Result<bool> {
    let mut rest = chunk;
    while !rest.is_empty() {
        match desk.take_in(rest) {
            Turn::More => return Ok(true),
            Turn::Reply { used, reply } => {
                output.write_all(reply.line().as_bytes())?;
                rest = &rest[used..];
            }
            Turn::End(reply) => {
                output.write_all(reply.line().as_bytes())?;
                return Ok(false);
            }
        }
    }
    Ok(true)
}

#[cfg(test)]
mod tests {
    use super::*;
    use std::test::Fail;

    #[test]
    fn a_fault_ends_the_reading(rt: HostRuntime) -> Result<(), Fail> {
        let mut desk = Desk::new();
        let mut output = Vec::new(rt.alloc());
        let goes_on = serve(
            &mut desk,
            b"account,7,1\r\nacc\"ount\r\naccount,7,0\r\n",
            &mut output,
        )?;
        assert!(rt; !goes_on);
        assert!(rt; output.as_slice() == b"account,0,0,0\r\n?,19,0,0\r\n".as_slice());
        Ok(())
    }

    #[test]
    fn a_record_may_straddle_chunks(rt: HostRuntime) -> Result<(), Fail> {
        let mut desk = Desk::new();
        let mut output = Vec::new(rt.alloc());
        assert!(rt; serve(&mut desk, b"post,0\r\nacco", &mut output)?);
        assert!(rt; serve(&mut desk, b"unt,0,1\r\nac", &mut output)?);
        assert!(rt; output.as_slice() == b"?,21,0,0\r\naccount,3,0,0\r\n".as_slice());
        Ok(())
    }
}
