// The records of a store or an outline, one to a line, each field by its bytes.
ghost use Rattle.std.specs.Prelude.{length};

use harness::fields;
use std::io::Write;
use std::{fmt, io};

// A record's kind and body, with a space before each field.
#[derive(Clone, Copy)]
struct Shown<'a> {
    kind: u8,
    body: &'a [u8],
}

impl fmt::Display for Shown<'_> {
    fn fmt<W: fmt::Write>(&self, f: &mut fmt::Formatter<W>) -> fmt::Result {
        let kind = self.kind;
        write!(f, "   {kind:02x}")?;
        for (at, b) in self.body.iter().enumerate() {
            if fields::starts_field(kind, at) {
                write!(f, " ")?;
            }
            write!(f, "{b:02x}")?;
        }
        Ok(())
    }
}

// The records that bytes have, whose bodies are as long as `length_of` says of their kinds.
pub fn records<W: Write, F: Fn(u8) -> usize>(out: &mut W, s: &[u8], length_of: F) -> io::Result<()>
    requires { F.IsAlwaysCallable length_of }
{
    let mut rest = s;
    while let Some((kind, body, behind)) = fields::split_record(rest, &length_of) {
        writeln!(out, "{}", Shown { kind, body })?;
        rest = behind;
    }
    Ok(())
}
