// Prints the page of each input 001 to 118, behind a line `-- NNN`.
#![tactic(auto)]

use std::io::{Read, Write};
use std::rt::Files;
use std::{fs, io};

// The page of what a file holds: of its first 98,304 bytes. Both spaces have a fixed size: neither is taken from a heap.
fn print_page<R: Read, W: Write>(file: &mut R, out: &mut W) -> io::Result<()> {
    let mut input = [0u8; 98304];
    let n = reading::read_input(file, &mut input)?;
    let mut space = [0u8; 65536];
    match page::page(&input[..n], &mut space) {
        Ok(k) if k <= 65536 => out.write_all(&space[..k]),
        _ => Ok(()),
    }
}

// The page of input n. An input that is missing must not pass for an empty one.
fn print_case<R: Files + Alloc, W: Write>(rt: &R, out: &mut W, n: u8) -> io::Result<()> {
    let name = [48 + n / 100, 48 + n / 10 % 10, 48 + n % 10];
    writeln!(out, "-- {n:03}")?;
    let file = str::from_utf8(&name)
        .ok()
        .and_then(|path| fs::open(rt, path).ok());
    match file {
        Some(mut file) => print_page(&mut file, out),
        None => writeln!(out, "no such input"),
    }
}

fn main(rt: HostRuntime) -> io::Result<()> {
    for n in 1..119 {
        print_case(&rt, &mut rt.stdout(), n)?;
    }
    Ok(())
}
