// Reads texts, one to a line, and prints what each says or the number and index of its refusal, and whether it writes back
// the same; then tries the writer on fields that it must refuse.
#![tactic(auto)]

use header::Fields;
use std::io;
use std::io::Write;

// Origin, event, places, minutes, day, hour, minute and sender.
fn fields<W: Write>(out: &mut W, f: &Fields) -> io::Result<()> {
    out.write_all(&f.origin)?;
    out.write_all(b" ")?;
    out.write_all(&f.event)?;
    for code in f.places.iter().take(f.count) {
        write!(out, " {code}")?;
    }
    write!(out, " +{} {} {} {} [", f.duration, f.day, f.hour, f.minute)?;
    out.write_all(&f.sender)?;
    out.write_all(b"] ")
}

// Writes the fields back, and compares.
fn back<W: Write>(out: &mut W, f: Fields, text: &[u8]) -> io::Result<()> {
    let mut space = [0u8; 252];
    let Ok(n) = header_writing::write(f, &mut space) else {
        return out.write_all(b"not written\n");
    };
    match space.get(..n) {
        Some(t) if t == text => writeln!(out, "{n} same"),
        Some(_) => writeln!(out, "{n} differs"),
        None => writeln!(out, "{n} too long"),
    }
}

fn one<W: Write>(out: &mut W, text: &[u8]) -> io::Result<()> {
    match header_reading::read(text) {
        Ok(f) => {
            fields(out, &f)?;
            back(out, f, text)
        }
        Err(e) => {
            write!(out, "{}", e.number())?;
            if let Some(i) = e.index() {
                write!(out, " at {i}")?;
            }
            out.write_all(b"\n")
        }
    }
}

fn texts<W: Write>(out: &mut W, input: &[u8]) -> io::Result<()> {
    for line in input.split_inclusive(|b| *b == b'\n') {
        one(out, line.strip_suffix(b"\n").unwrap_or(line))?;
    }
    Ok(())
}

// The writer: a good header of one place, with one thing changed at a time.

fn good() -> Fields {
    Fields {
        origin: *b"WXR",
        event: *b"TOR",
        places: [39173; 31],
        count: 1,
        duration: 30,
        day: 159,
        hour: 18,
        minute: 29,
        sender: *b"KCLE/NWS",
    }
}

fn tried_in<W: Write>(out: &mut W, f: Fields, space: &mut [u8]) -> io::Result<()> {
    match header_writing::write(f, space) {
        Ok(n) => writeln!(out, "written {n}"),
        Err(e) => writeln!(out, "refused {}", e.number()),
    }
}

fn tried<W: Write>(out: &mut W, f: Fields) -> io::Result<()> {
    tried_in(out, f, &mut [0u8; 252])
}

fn letters<W: Write>(out: &mut W) -> io::Result<()> {
    tried(
        out,
        Fields {
            origin: *b"WXT",
            event: *b"ToR",
            ..good()
        },
    )?;
    tried(
        out,
        Fields {
            event: *b"ToR",
            count: 0,
            ..good()
        },
    )?;
    tried(
        out,
        Fields {
            sender: *b"KCLE-NWS",
            ..good()
        },
    )
}

fn issued<W: Write>(out: &mut W, day: u32, hour: u32, minute: u32) -> io::Result<()> {
    tried(
        out,
        Fields {
            day,
            hour,
            minute,
            ..good()
        },
    )
}

// All texts of the input, then what the writer must refuse and what it must not.
fn run<W: Write>(out: &mut W, input: &[u8]) -> io::Result<()> {
    texts(out, input)?;
    letters(out)?;
    for count in [0, 31, 32] {
        tried(out, Fields { count, ..good() })?;
    }
    for code in [999999, 1000000] {
        tried(
            out,
            Fields {
                places: [code; 31],
                duration: 0,
                ..good()
            },
        )?;
    }
    for duration in [15, 0, 46, 75, 5970, 5971] {
        tried(out, Fields { duration, ..good() })?;
    }
    issued(out, 0, 0, 0)?;
    issued(out, 366, 23, 59)?;
    issued(out, 367, 0, 0)?;
    issued(out, 1, 24, 0)?;
    issued(out, 1, 0, 60)?;
    tried_in(out, good(), &mut [0u8; 41])?;
    tried_in(out, good(), &mut [0u8; 42])
}

// The input's first 16,384 bytes are read, into space of a fixed size, which is not taken from a heap.
fn main(rt: HostRuntime) -> io::Result<()> {
    let mut input = [0u8; 16384];
    let n = reading::read_input(&mut rt.stdin(), &mut input)?;
    run(&mut rt.stdout(), &input[..n])
}
