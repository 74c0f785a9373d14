// Runs worked vectors through the leaves. Each line of standard input is a letter that names the leaf, a space and a text, in which `\` and two hexadecimal digits stand
// for a byte; it is written back with what the leaf answers. Lines that are empty or start with `#` are written back as they are.
#![tactic(auto)]

mod leaves;

use harness::{input, vectors};
use std::io;
use std::io::Write;

// What a vector's leaf answers to the text that it has.
fn run_vector<W: Write>(out: &mut W, leaf: u8, s: &[u8]) -> io::Result<()> {
    let mut buffer = input::buffer();
    write!(out, " ->")?;
    leaves::answer(out, leaf, vectors::text(s, &mut buffer))?;
    writeln!(out)
}

fn main(rt: HostRuntime) -> io::Result<()> {
    input::each_vector(&mut rt.stdin(), &mut rt.stdout(), run_vector)
}
