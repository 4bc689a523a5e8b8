// Each line of the input is a case: an event's code, or a call with its numbers. Prints the line, and what the calls say of it.
#![tactic(auto)]

mod asked;
mod said;

use asked::word;
use std::io;
use std::io::Write;

// A code: whether it is listed, and its class, from the two calls and from the one that says both.
fn event<W: Write>(out: &mut W, a: u8, b: u8, c: u8) -> io::Result<()> {
    said::kind(out, event::is_listed(a, b, c), event::class_of(a, b, c))?;
    let kind = event::listed_class(a, b, c);
    said::kind(out, kind.listed, kind.class)
}

fn date<W: Write>(out: &mut W, line: &[u8]) -> io::Result<()> {
    said::answer(out, clock::date_of(word(line, 1), word(line, 2)))
}

fn places<W: Write>(out: &mut W, line: &[u8]) -> io::Result<()> {
    said::yes(out, place::matches(word(line, 1), word(line, 2)))
}

// What the call for all times says, and what the call for the phase says.
fn times<W: Write>(out: &mut W, line: &[u8]) -> io::Result<()> {
    let at = asked::clock_of(line);
    let issue = asked::issue_of(line);
    said::answer(
        out,
        clock::times_of(at, issue.day, issue.hour, issue.minute, issue.duration),
    )?;
    said::answer(
        out,
        clock::lifetime(at, issue.day, issue.hour, issue.minute, issue.duration),
    )
}

// The letter is the input's format: it is how a line says which call.
fn call<W: Write>(out: &mut W, line: &[u8], name: u8) -> io::Result<()> {
    out.write_all(b":")?;
    match name {
        b'c' => said::answer(out, clock::check(asked::clock_of(line))),
        b'd' => date(out, line),
        b't' => times(out, line),
        _ => places(out, line),
    }
}

fn case<W: Write>(out: &mut W, line: &[u8]) -> io::Result<()> {
    out.write_all(line)?;
    match line {
        [a, b, c] => event(out, *a, *b, *c)?,
        [name, _, _, _, ..] => call(out, line, *name)?,
        _ => {}
    }
    out.write_all(b"\n")
}

fn cases<W: Write>(out: &mut W, input: &[u8]) -> io::Result<()> {
    for line in input.split_inclusive(|b| *b == b'\n') {
        case(out, line.strip_suffix(b"\n").unwrap_or(line))?;
    }
    Ok(())
}

// The input's first 8,192 bytes are read, into space of a fixed size, which is not taken from a heap.
fn main(rt: HostRuntime) -> io::Result<()> {
    let mut input = [0u8; 8192];
    let n = reading::read_input(&mut rt.stdin(), &mut input)?;
    cases(&mut rt.stdout(), &input[..n])
}
