// Names that somebody else chose, of files and of entries: in quotes, and escaped so that none can end its quotes, its
// line or look like another.
use std::fmt;
use std::fmt::Write;

// A name, which prints in quotes: printable ASCII as it stands, a quote or a backslash behind a backslash, any other byte
// by its hexadecimal digits.
#[derive(Clone, Copy)]
pub struct Quoted<'a>(pub &'a [u8]);

impl<'a> fmt::Display for Quoted<'a> {
    fn fmt<W: fmt::Write>(&self, f: &mut fmt::Formatter<W>) -> fmt::Result {
        f.write_char('"')?;
        for &b in self.0 {
            match b {
                b'"' | b'\\' => write!(f, "\\{}", char::from(b))?,
                b' '..=b'~' => f.write_char(char::from(b))?,
                _ => write!(f, "\\x{b:02x}")?,
            }
        }
        f.write_char('"')
    }
}
