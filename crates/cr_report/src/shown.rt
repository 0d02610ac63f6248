// Names, as they are shown.
use crate::reduction::Reduction;
use std::fmt::{self, Display, Formatter, Write};

/// A reduction, and the name under which it is shown.
#[derive(Clone, Copy, Debug)]
pub struct Named<'a> {
    pub name: &'a str,
    pub of: &'a Reduction,
}

/// A name on one line: what controls a terminal is shown as a question mark.
#[derive(Clone, Copy)]
pub struct Plain<'a>(pub &'a str);

impl Display for Plain<'_> {
    fn fmt<W: Write>(&self, f: &mut Formatter<W>) -> fmt::Result {
        for c in self.0.chars() {
            f.write_char(if c.is_control() { '?' } else { c })?;
        }
        Ok(())
    }
}

/// A name within SVG.
#[derive(Clone, Copy)]
pub struct Escaped<'a>(pub &'a str);

impl Display for Escaped<'_> {
    fn fmt<W: Write>(&self, f: &mut Formatter<W>) -> fmt::Result {
        for c in self.0.chars() {
            match c {
                '&' => f.write_str("&amp;")?,
                '<' => f.write_str("&lt;")?,
                c => f.write_char(if c.is_control() { '?' } else { c })?,
            }
        }
        Ok(())
    }
}
