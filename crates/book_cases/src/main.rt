// A run of edits on one book: each line of the input is one. Prints the line and the number of the answer, 0 where the edit was done;
// then whether the book is good, and the sum of all its words.
//
// add and remove: place, client, wish. poke: a word's index, and what to put there. short: an addition to the book without its last
// word. load: the words of ITEMS from one index up to another. A line with one number is about all of 4,096 subscriptions: filled and
// emptied one by one, with how many were done, or loaded, with the last one's wish.
#![tactic(auto)]

ghost use Rattle.std.specs.Prelude.{◌≡◌, ◌<◌, ◌≤◌, length, IfOk};

use refusals::Refusal;
use std::io;
use std::io::Write;

type Book = [u32; 8293];

// Four items with two words left over; three with a wish 0 in the second; a doubled one.
const ITEMS: [u32; 29] = [
    39051, 7, 1, 439069, 7, 63, 39069, 7, 3, 39173, 12, 63, 1000, 1, 39051, 7, 1, 39069, 7, 0,
    39173, 12, 63, 39051, 7, 1, 39051, 7, 2,
];

// The number of a refusal, 0 where there is none.
fn number_of(answer: Result<(), Refusal>) -> u32 {
    match answer {
        Ok(()) => 0,
        Err(refusal) => refusal.number(),
    }
}

// The sum of all words.
fn sum_of(book: &Book) -> u64 {
    book.iter()
        .fold(0, |sum: u64, word| sum.wrapping_add(u64::from(*word)))
}

// Puts a word in, whatever the rules say.
fn poke(book: &mut Book, i: usize, word: u32) -> u32 {
    if i < book.len() {
        book[i] = word;
    }
    0
}

// A load of the words of ITEMS from one index up to another, if they are there.
fn load_items(book: &mut Book, from: usize, to: usize) -> u32 {
    let items = ITEMS;
    match items.get(from..to) {
        Some(items) => number_of(book_loads::load(book, items)),
        None => 0,
    }
}

// The subscriptions that fill a book: places and clients by number, rising with i.
fn place_by(i: u32) -> u32
    requires { i < 4096 }
{
    i % 10 * 100000 + (1 + i / 42) * 1000 + i % 42
}

// Adds all 4,096, the last one first; answers how many were done.
fn fill(book: &mut Book) -> u32 {
    let mut count = 0;
    for i in (0..4096).rev() {
        if book_edits::add(book, place_by(i), 1 + i % 9999, 1 + i % 63).is_ok() {
            count += 1;
        }
    }
    count
}

// Removes all 4,096, the first one first; answers how many were done.
fn empty(book: &mut Book) -> u32 {
    let mut count = 0;
    for i in 0..4096 {
        if book_edits::remove(book, place_by(i), 1 + i % 9999).is_ok() {
            count += 1;
        }
    }
    count
}

// Loads the same 4,096 at once, in an order far from their own, the last one with this wish.
fn load_all(book: &mut Book, wish: u32) -> u32 {
    let mut items = [[0u32; 3]; 4096];
    for (i, item) in items.iter_mut().enumerate() {
        let k = i as u32 * 2731 % 4096;
        *item = [place_by(k), 1 + k % 9999, 1 + k % 63];
    }
    items[4095][2] = wish;
    number_of(book_loads::load(book, items.as_flattened()))
}

// The letter is the input's format: it is how a line says which edit.
fn edited(book: &mut Book, kind: u8, a: u32, b: u32, c: u32) -> u32 {
    match kind {
        b'a' => number_of(book_edits::add(book, a, b, c)),
        b'r' => number_of(book_edits::remove(book, a, b)),
        b'p' => poke(book, a as usize, b),
        b's' => number_of(book_edits::add(&mut book[..8292], a, b, c)),
        _ => load_items(book, a as usize, b as usize),
    }
}

// The letter is the input's format here too.
fn edited_all(book: &mut Book, kind: u8, wish: u32) -> u32 {
    match kind {
        b'f' => fill(book),
        b'e' => empty(book),
        _ => load_all(book, wish),
    }
}

// A line up to its first space, and what follows that space.
fn cut(line: &[u8]) -> (&[u8], &[u8]) {
    let mut parts = line.splitn(2, |b| *b == b' ');
    (parts.next().unwrap_or(b""), parts.next().unwrap_or(b""))
}

// The number that a word says, 0 where it says none.
fn number(word: &[u8]) -> u32 {
    codec::digits_at(word, 0, word.len()).unwrap_or(0)
}

// One edit, or all 4,096, by how many numbers the line has.
fn edit<W: Write>(out: &mut W, book: &mut Book, line: &[u8]) -> io::Result<()> {
    let Some(kind) = line.first() else {
        return Ok(());
    };
    let (_, numbers) = cut(line);
    let (a, rest) = cut(numbers);
    let (b, rest) = cut(rest);
    if rest.is_empty() {
        out.write_all(line.strip_suffix(numbers).unwrap_or(line))?;
        return write!(out, "{}", edited_all(book, *kind, number(a)));
    }
    let (c, _) = cut(rest);
    out.write_all(line)?;
    write!(
        out,
        " = {}",
        edited(book, *kind, number(a), number(b), number(c))
    )
}

// An edit, and what is then to be seen of the book.
fn case<W: Write>(out: &mut W, book: &mut Book, line: &[u8]) -> io::Result<()> {
    edit(out, book, line)?;
    let kept = if book_check::is_good(book) {
        "good"
    } else {
        "bad"
    };
    writeln!(out, ", {kept}, sum {}", sum_of(book))
}

fn cases<W: Write>(out: &mut W, book: &mut Book, input: &[u8]) -> io::Result<()> {
    for line in input.split_inclusive(|b| *b == b'\n') {
        case(out, book, line.strip_suffix(b"\n").unwrap_or(line))?;
    }
    Ok(())
}

// The input's first 2,048 bytes are read, into space of a fixed size, which is not taken from a heap.
fn main(rt: HostRuntime) -> io::Result<()> {
    let mut book = [0u32; 8293];
    let mut input = [0u8; 2048];
    let n = reading::read_input(&mut rt.stdin(), &mut input)?;
    cases(&mut rt.stdout(), &mut book, &input[..n])
}
