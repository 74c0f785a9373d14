// What is written to standard output, or to any other writer: values that know how they are written.
use entries::Fields;
use places::Report;
use std::fmt;

// Whether, as a word.
#[derive(Clone, Copy)]
pub struct YesNo(pub bool);

impl fmt::Display for YesNo {
    fn fmt<W: fmt::Write>(&self, f: &mut fmt::Formatter<W>) -> fmt::Result {
        f.write_str(if self.0 { "yes" } else { "no" })
    }
}

// Each byte behind a space, as two hexadecimal digits.
#[derive(Clone, Copy)]
pub struct Hex<'a>(pub &'a [u8]);

impl fmt::Display for Hex<'_> {
    fn fmt<W: fmt::Write>(&self, f: &mut fmt::Formatter<W>) -> fmt::Result {
        for b in self.0 {
            write!(f, " {b:02x}")?;
        }
        Ok(())
    }
}

// A text as vectors have it: `\` and two hexadecimal digits for `\` and for each byte that is not printable.
#[derive(Clone, Copy)]
pub struct Text<'a>(pub &'a [u8]);

impl fmt::Display for Text<'_> {
    fn fmt<W: fmt::Write>(&self, f: &mut fmt::Formatter<W>) -> fmt::Result {
        for b in self.0 {
            match *b {
                b'!'..=b'[' | b']'..=b'~' => write!(f, "{}", char::from(*b))?,
                _ => write!(f, "\\{b:02x}")?,
            }
        }
        Ok(())
    }
}

// An answer in document 01's numbers, each behind a space: refusal number, place, detail, both lengths.
#[derive(Clone, Copy)]
pub struct Answer(pub Report);

impl fmt::Display for Answer {
    fn fmt<W: fmt::Write>(&self, f: &mut fmt::Formatter<W>) -> fmt::Result {
        let r = self.0;
        write!(f, " {} {} {} {}", r.number, r.offset, r.line, r.column)?;
        write!(f, " {} {} {}", r.detail, r.first, r.second)
    }
}

// A record's fields, each behind a space: offset, length, line, column, area offset or number of tags, decimal parts.
#[derive(Clone, Copy)]
pub struct Numbers(pub Fields);

impl fmt::Display for Numbers {
    fn fmt<W: fmt::Write>(&self, f: &mut fmt::Formatter<W>) -> fmt::Result {
        let token = self.0.token;
        let parts = self.0.parts;
        write!(f, " {} {}", token.offset, token.length)?;
        write!(f, " {} {} {}", token.line, token.column, self.0.number)?;
        write!(f, " {} {} {}", parts.sign, parts.integer, parts.fraction)?;
        write!(
            f,
            " {} {} {}",
            parts.places, parts.exponent, parts.uncertainty
        )
    }
}
