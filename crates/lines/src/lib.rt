// A case's line: its name, what came, and whether that is what is due.
#![tactic(auto)]

use spec::Refusal;
use std::fmt::{self, Display, Formatter, Write};
use std::io;

// Prints the line. The verdict is what makes a run fail: the stored output has no WRONG. Name, came and due go as they are: one value of
// them would be built for each line.
pub fn line<T: Display + PartialEq + Copy>(
    rt: &impl Print,
    name: &str,
    came: T,
    due: T,
) -> io::Result<()> {
    let verdict = if came == due { "ok" } else { "WRONG" };
    let blank = if shows(&came) { " " } else { "" };
    println!(rt; "{name}:{blank}{came} {verdict}")
}

// Whether a value shows anything: an empty list doesn't, and takes no blank.
fn shows<T: Display>(value: &T) -> bool {
    let mut seen = Seen(false);
    let _ = write!(seen, "{value}");
    seen.0
}

// Whether text was written.
#[derive(Clone, Copy)]
struct Seen(bool);

impl Write for Seen {
    fn write_str(&mut self, text: &str) -> fmt::Result {
        self.0 |= !text.is_empty();
        Ok(())
    }
}

// What a call answers: a value, or a refusal, which prints its number.
#[derive(Clone, Copy, PartialEq)]
pub struct Answer<T>(pub Result<T, Refusal>);

impl<T: Display> Display for Answer<T> {
    fn fmt<W: fmt::Write>(&self, f: &mut Formatter<W>) -> fmt::Result {
        match &self.0 {
            Ok(v) => write!(f, "{v}"),
            Err(e) => write!(f, "refused {}", codes::of_refusal(*e)),
        }
    }
}

// What is looked for, if it is there.
#[derive(Clone, Copy, PartialEq)]
pub struct OrNone<T>(pub Option<T>);

impl<T: Display> Display for OrNone<T> {
    fn fmt<W: fmt::Write>(&self, f: &mut Formatter<W>) -> fmt::Result {
        match &self.0 {
            Some(v) => write!(f, "{v}"),
            None => f.write_str("none"),
        }
    }
}

// Numbers, with a space between.
#[derive(Clone, Copy, PartialEq)]
pub struct List<'a>(pub &'a [u32]);

impl Display for List<'_> {
    fn fmt<W: fmt::Write>(&self, f: &mut Formatter<W>) -> fmt::Result {
        for (i, n) in self.0.iter().enumerate() {
            let space = if i == 0 { "" } else { " " };
            write!(f, "{space}{n}")?;
        }
        Ok(())
    }
}

// Bytes in hex, with a space between.
#[derive(Clone, Copy, PartialEq)]
pub struct Bytes<'a>(pub &'a [u8]);

impl Display for Bytes<'_> {
    // A loop of its own: a format is no parameter.
    fn fmt<W: fmt::Write>(&self, f: &mut Formatter<W>) -> fmt::Result {
        for (i, b) in self.0.iter().enumerate() {
            let space = if i == 0 { "" } else { " " };
            write!(f, "{space}{b:02x}")?;
        }
        Ok(())
    }
}
