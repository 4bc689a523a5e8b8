// Each line of the input is a case, its parts set off by bars: a name, and a burst to strip, or three to vote on and the number
// of bytes lent. Prints the name and what the calls say. After a vote it prints the space lent, which held full stops: so it shows
// what was written, and that a refusal wrote nothing.
//
// In the input and in what is printed, `<` stands for AB, and `!`, `"`, `#`, `$`, `%`, `&` and `'` for AB with bit 0, 1, 2, 3, 4, 5
// or 6 turned. With bit 7 turned it is `+`, which stands for itself. So no name of a case has one of these marks.
#![tactic(auto)]

use refusals::Refusal;
use std::io;
use std::io::Write;

// Each mark, and the byte that is meant.
const MARKS: [(u8, u8); 8] = [
    (b'<', 0xAB),
    (b'!', 0xAA),
    (b'"', 0xA9),
    (b'#', 0xAF),
    (b'$', 0xA3),
    (b'%', 0xBB),
    (b'&', 0x8B),
    (b'\'', 0xEB),
];

// The byte that is meant by a mark; any other byte stays.
fn meant(b: u8) -> u8 {
    MARKS
        .iter()
        .find(|pair| pair.0 == b)
        .map_or(b, |pair| pair.1)
}

// The mark of a byte; any other byte stays.
fn marked(b: u8) -> u8 {
    MARKS
        .iter()
        .find(|pair| pair.1 == b)
        .map_or(b, |pair| pair.0)
}

// Bytes as they are written in the input.
fn show<W: Write>(out: &mut W, bytes: &[u8]) -> io::Result<()> {
    for b in bytes {
        out.write_all(&[marked(*b)])?;
    }
    Ok(())
}

// How many bytes are dropped, and the part that is left.
fn strip<W: Write>(out: &mut W, burst: &[u8]) -> io::Result<()> {
    let part = burst::strip(burst);
    write!(
        out,
        ": leading={} left={} part=",
        burst::leading(burst),
        part.len()
    )?;
    show(out, part)
}

// The text's length; or a number, and the index that is named beside it, if one is.
fn settled<W: Write>(out: &mut W, voted: Result<usize, Refusal>) -> io::Result<()> {
    match voted {
        Ok(n) => write!(out, ": text={n}"),
        Err(why) => {
            write!(out, ": refused={}", why.number())?;
            if let Some(index) = why.index() {
                write!(out, " at={index}")?;
            }
            Ok(())
        }
    }
}

// What was settled, and how many bytes were dropped of each burst; then the space lent.
fn vote<W: Write>(out: &mut W, a: &[u8], b: &[u8], c: &[u8], space: &mut [u8]) -> io::Result<()> {
    let said = burst::vote(a, b, c, space);
    settled(out, said.voted)?;
    write!(
        out,
        " dropped={} {} {} space=",
        said.first, said.second, said.third
    )?;
    show(out, space)
}

// A vote with the first bytes of a space lent, so many as are asked for.
fn vote_case<W: Write>(out: &mut W, line: &[u8]) -> io::Result<()> {
    let mut space = [b'.'; 252];
    match space.get_mut(..room(part(line, 4))) {
        Some(lent) => vote(out, part(line, 1), part(line, 2), part(line, 3), lent),
        None => Ok(()),
    }
}

// Part k of a line, which is empty where the line has fewer.
fn part(line: &[u8], k: usize) -> &[u8] {
    line.split(|b| *b == b'|').nth(k).unwrap_or(&[])
}

// Whether nothing follows the second bar, so that there is one burst alone.
fn is_one(line: &[u8]) -> bool {
    line.splitn(3, |b| *b == b'|')
        .nth(2)
        .unwrap_or(&[])
        .is_empty()
}

fn room(digits: &[u8]) -> usize {
    codec::digits_at(digits, 0, 3).unwrap_or(0) as usize
}

fn case<W: Write>(out: &mut W, line: &[u8]) -> io::Result<()> {
    out.write_all(part(line, 0))?;
    if is_one(line) {
        strip(out, part(line, 1))?;
    } else {
        vote_case(out, line)?;
    }
    out.write_all(b"\n")
}

fn cases<W: Write>(out: &mut W, input: &[u8]) -> io::Result<()> {
    for line in input.split_inclusive(|b| *b == b'\n') {
        case(out, line.strip_suffix(b"\n").unwrap_or(line))?;
    }
    Ok(())
}

// Puts the byte that is meant for each mark.
fn put_preambles(input: &mut [u8]) {
    for b in input.iter_mut() {
        *b = meant(*b);
    }
}

fn run<W: Write>(out: &mut W, input: &mut [u8]) -> io::Result<()> {
    put_preambles(input);
    cases(out, input)
}

// The input's first 8,192 bytes are read, into space of a fixed size, which is not taken from a heap.
fn main(rt: HostRuntime) -> io::Result<()> {
    let mut input = [0u8; 8192];
    let n = reading::read_input(&mut rt.stdin(), &mut input)?;
    run(&mut rt.stdout(), &mut input[..n])
}
