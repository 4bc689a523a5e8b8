// What the calls say, each with a space before it.
use clock::{MonthDay, Phase, Stamp, Times};
use refusals::Refusal;
use std::io;
use std::io::Write;

// The word with its space is one write: each piece of a `write!` is one of its own.
pub(crate) fn yes<W: Write>(out: &mut W, b: bool) -> io::Result<()> {
    out.write_all(if b { b" yes" } else { b" no" })
}

pub(crate) fn kind<W: Write>(out: &mut W, listed: bool, class: u32) -> io::Result<()> {
    yes(out, listed)?;
    write!(out, " {class}")
}

// What an answer is printed as, where nothing is refused. A trait of its own: Display cannot be written here for types of other crates.
pub(crate) trait Shown {
    fn show<W: Write>(self, out: &mut W) -> io::Result<()>;
}

impl Shown for () {
    fn show<W: Write>(self, out: &mut W) -> io::Result<()> {
        write!(out, " good")
    }
}

impl Shown for MonthDay {
    fn show<W: Write>(self, out: &mut W) -> io::Result<()> {
        write!(out, " {:02}-{:02}", self.month, self.day)
    }
}

impl Shown for Stamp {
    fn show<W: Write>(self, out: &mut W) -> io::Result<()> {
        write!(
            out,
            " {:02}-{:02} {:02}:{:02}",
            self.month, self.day, self.hour, self.minute
        )
    }
}

impl Shown for Phase {
    fn show<W: Write>(self, out: &mut W) -> io::Result<()> {
        match self {
            Phase::Early => write!(out, " early"),
            Phase::Live => write!(out, " live"),
            Phase::Expired => write!(out, " expired"),
        }
    }
}

impl Shown for Times {
    fn show<W: Write>(self, out: &mut W) -> io::Result<()> {
        self.issued.show(out)?;
        self.until.show(out)?;
        self.phase.show(out)
    }
}

pub(crate) fn answer<W: Write, T: Shown>(
    out: &mut W,
    answer: Result<T, Refusal>,
) -> io::Result<()> {
    match answer {
        Ok(granted) => granted.show(out),
        Err(why) => write!(out, " refused={}", why.number()),
    }
}
