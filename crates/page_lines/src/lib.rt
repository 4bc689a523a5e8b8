// The lines of a printed page, one at a time: each call puts its text at index at, whole or not at all, and answers whether there is
// room for it. It asks that first, so what its parts answer is known.
#![tactic(auto)]

ghost use Rattle.std.specs.Prelude.{◌≡◌, ℕ, List, ◌++◌, ◌+◌, ◌≤◌, leb, length};
ghost use Rattle.laws.specs.Numbers.{dig};
ghost use Rattle.laws.specs.Space.{pasted};
ghost use Rattle.laws.specs.Text.{ascii};
ghost use Rattle.codec.specs.Promise.{PutPromise};
ghost use Rattle.page_lines.specs.Lines.{number_line, text_line, when_text, stamp_line, hits_text};
ghost use Rattle.page_lines.specs.Promise.{SizePromise};

use clock::Stamp;

// How many digits a number has in plain decimal.
pub fn size_of(n: usize) -> usize
    ensures { SizePromise n result }
{
    n.checked_ilog10().unwrap_or(0) as usize + 1
}

// Whether a line fits at index at of so much room: a word, what it says, and the line's end. Differences, so that no sum runs over.
fn line_fits(room: usize, at: usize, word: usize, says: usize) -> bool
    ensures { result ≡ leb (at + (word + (says + 1))) room }
{
    says < room.saturating_sub(at).saturating_sub(word)
}

// What a line says behind its word.
trait Says {
    ghost text_of: { Self → List ℕ };

    fn size(&self) -> usize
        ensures { result ≡ length (text_of self.now) };

    fn put(&self, out: &mut [u8], at: usize)
        requires { at + length (text_of self.now) ≤ length out.old }
        ensures { out.new ≡ pasted out.old at (text_of self.now) };
}

// Bytes as they are.
#[derive(Clone, Copy)]
struct Bytes<'a>(&'a [u8]);

impl<'a> Says for Bytes<'a> {
    ghost text_of = { λ s. s.0.now };

    fn size(&self) -> usize {
        self.0.len()
    }

    fn put(&self, out: &mut [u8], at: usize) {
        codec::put_bytes(out, at, self.0);
    }
}

// The last w digits of a number.
#[derive(Clone, Copy)]
struct Digits {
    n: usize,
    w: usize,
}

impl Says for Digits {
    ghost text_of = { λ s. dig s.w s.n };

    fn size(&self) -> usize {
        self.w
    }

    fn put(&self, out: &mut [u8], at: usize) {
        codec::put_count(out, at, self.n, self.w);
    }
}

// A word, and a number of w digits.
fn put_tag(out: &mut [u8], at: usize, word: &[u8], n: u32, w: usize)
    requires { at + length word.now + w ≤ length out.old }
    ensures { out.new ≡ pasted out.old at (word.now ++ dig w n) }
{
    codec::put_bytes(out, at, word);
    codec::put_digits(out, at + word.len(), n, w);
}

// `MM-DD HH:MM`
impl Says for Stamp {
    ghost text_of = { λ s. when_text s };

    fn size(&self) -> usize {
        11
    }

    fn put(&self, out: &mut [u8], at: usize) {
        codec::put_digits(out, at, self.month, 2);
        put_tag(out, at + 2, b"-", self.day, 2);
        put_tag(out, at + 5, b" ", self.hour, 2);
        put_tag(out, at + 8, b":", self.minute, 2);
    }
}

// A hit's place and wish.
#[derive(Clone, Copy)]
struct Hit {
    place: u32,
    wish: u32,
}

impl Says for Hit {
    ghost text_of = { λ h. dig 6 h.place ++ (ascii " " ++ dig 2 h.wish) };

    fn size(&self) -> usize {
        9
    }

    fn put(&self, out: &mut [u8], at: usize) {
        codec::put_digits(out, at, self.place, 6);
        put_tag(out, at + 6, b" ", self.wish, 2);
    }
}

// Puts a line of a word and what it says at index at and says yes, or says no where there is no room and writes nothing. A yes or no is
// enough: every caller has asked for room.
fn put_line<S: Says>(out: &mut [u8], at: usize, word: &[u8], says: &S) -> bool
    ensures { PutPromise out.old at (text_line word.now (S.text_of says.now)) result out.new }
{
    let n = says.size();
    if !line_fits(out.len(), at, word.len(), n) {
        return false;
    }
    let e = at + word.len();
    codec::put_bytes(out, at, word);
    says.put(out, e);
    codec::put_byte(out, e + n, 10);
    true
}

// Puts a line of a word and a number of w digits: else as put_line.
pub fn put_number(out: &mut [u8], at: usize, word: &[u8], n: usize, w: usize) -> bool
    ensures { PutPromise out.old at (number_line word.now w n) result out.new }
{
    put_line(out, at, word, &Digits { n, w })
}

// Puts a line of a word and some bytes: else as put_line.
pub fn put_text(out: &mut [u8], at: usize, word: &[u8], text: &[u8]) -> bool
    ensures { PutPromise out.old at (text_line word.now text.now) result out.new }
{
    put_line(out, at, word, &Bytes(text))
}

// Puts a line of a word and `MM-DD HH:MM`: else as put_line.
pub fn put_stamp(out: &mut [u8], at: usize, word: &[u8], s: Stamp) -> bool
    ensures { PutPromise out.old at (stamp_line word.now s) result out.new }
{
    put_line(out, at, word, &s)
}

// Puts the lines of all hits, which are pairs of place and wish: else as put_line.
pub fn put_hits(out: &mut [u8], at: usize, hits: &[u32]) -> bool
    ensures { PutPromise out.old at (hits_text hits.now) result out.new }
{
    let (pairs, _) = hits.as_chunks::<2>();
    let Some(room) = out.len().checked_sub(at) else {
        return false;
    };
    if room / 14 < pairs.len() {
        return false;
    }
    // Counted by hand: e is where the next line goes in the lent text, not the number of a hit.
    let mut e = at;
    for [place, wish] in pairs {
        let hit = Hit {
            place: *place,
            wish: *wish,
        };
        put_line(out, e, b"hit=", &hit);
        e += 14;
    }
    true
}
