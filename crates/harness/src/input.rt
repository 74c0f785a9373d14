// What is read from standard input.
ghost use Rattle.std.specs.Prelude.{◌≤◌, length, IfOk};

use crate::vectors::vector;
use std::io;
use std::io::{Read, Write};

// Reads until the buffer is full or the input ends; answers how many bytes stand at the buffer's start then.
pub fn read_full<R: Read>(input: &mut R, buffer: &mut [u8]) -> io::Result<usize>
    ensures { IfOk result (λ n. n ≤ length buffer.new) }
{
    let mut done = 0; // counted by hand: how far a read comes is told by it alone
    while done < buffer.len() {
        let n = input.read(&mut buffer[done..])?;
        if n == 0 {
            break;
        }
        done += n;
    }
    Ok(done)
}

// 4,096 zeros, which hold a line's text.
pub fn buffer() -> [u8; 4096] {
    [0; 4096]
}

// 65,536 zeros, which hold the longest input.
pub fn large_buffer() -> [u8; 65536] {
    [0; 65536]
}

// Runs the vectors of an input. Each line is written back; behind a vector goes what `run` makes of its letter and its text.
pub fn each_vector<R: Read, W: Write, F: FnMut(&mut W, u8, &[u8]) -> io::Result<()>>(
    input: &mut R,
    out: &mut W,
    mut run: F,
) -> io::Result<()>
    requires { F.IsAlwaysCallable run }
{
    let mut buffer = large_buffer();
    let n = read_full(input, &mut buffer)?;
    for line in buffer[..n].split_inclusive(|b| *b == b'\n') {
        let line = line.strip_suffix(b"\n").unwrap_or(line);
        out.write_all(line)?;
        match vector(line) {
            Some((letter, text)) => run(out, letter, text)?,
            None => writeln!(out)?,
        }
    }
    Ok(())
}
