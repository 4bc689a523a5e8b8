// Fields and summaries as words, for callers outside: reading, writing and reporting over lists of numbers.
#![tactic(auto)]

ghost use Rattle.std.specs.Prelude.{◌≡◌, ◌+◌, ◌≤◌, length};
ghost use Rattle.laws.specs.Space.{pasted};
ghost use Rattle.report.specs.Report.{report_says};
ghost use Rattle.refusals.specs.Refusals.{said};
ghost use Rattle.c_words.specs.Words.{front_words, back_words, byte_of, bytes_at, places_in, fields_in, phase_word, rest_words, summary_words};
ghost use Rattle.c_words.specs.Steps.{Gives, ReadsFields, WritesFields, without_summary, ReportsWords};
ghost use Rattle.c_words.specs.Promise.{ReadWordsPromise, WriteWordsPromise, ReportWordsPromise};

use c_answers::{cap, told, yes};
use clock::{Clock, Phase};
use header::Fields;
use refusals::Refusal;
use report::Summary;

// ---- words written

// Some words at index at.
fn put_words(out: &mut [u32], at: usize, src: &[u32])
    requires { at + length src.now ≤ length out.old }
    ensures { out.new ≡ pasted out.old at src.now }
{
    let e = at + src.len();
    out[at..e].copy_from_slice(src);
}

// Some bytes, each as a word.
fn wide<const N: usize>(bytes: &[u8; N]) -> [u32; N]
    ensures { result ≡ bytes.now }
{
    let mut words = [0u32; N];
    for (k, w) in words.iter_mut().enumerate() {
        *w = u32::from(bytes[k]);
    }
    words
}

// Origin, event and the five numbers.
fn put_front(out: &mut [u32], f: Fields)
    requires { (11 ≤ length out.old) × (f.count ≤ 31) }
    ensures { (out.new ≡ pasted out.old 0 (front_words f)) × (length (front_words f) ≡ 11) }
{
    let numbers = [f.count as u32, f.duration, f.day, f.hour, f.minute];
    put_words(out, 0, &wide(&f.origin));
    put_words(out, 3, &wide(&f.event));
    put_words(out, 6, &numbers);
}

// Sender and places.
fn put_back(out: &mut [u32], f: Fields)
    requires { 50 ≤ length out.old }
    ensures { (out.new ≡ pasted out.old 11 (back_words f)) × (length (back_words f) ≡ 39) }
{
    put_words(out, 11, &wide(&f.sender));
    put_words(out, 19, &f.places);
}

// The fields as words, where there is room for them.
fn give(f: Fields, out: &mut [u32]) -> Result<usize, Refusal>
    requires { f.count ≤ 31 }
    ensures { Gives f out.old result out.new }
{
    if out.len() < 50 {
        return Err(Refusal::NoRoom);
    }
    put_front(out, f);
    put_back(out, f);
    Ok(f.count)
}

// ---- words read

// A word as a byte; one over 255 as the byte 0, which no field of bytes allows, as `fields_in` of the C interface has it.
fn byte_of(w: u32) -> u8
    ensures { result ≡ byte_of w }
{
    u8::try_from(w).unwrap_or(0)
}

// Some bytes, each from its word.
fn bytes_at<const N: usize>(w: &[u32; 50], at: usize) -> [u8; N]
    requires { at + N ≤ 50 }
    ensures { result ≡ bytes_at N at w.now }
{
    let mut bytes = [0u8; N];
    for (k, b) in bytes.iter_mut().enumerate() {
        *b = byte_of(w[at + k]);
    }
    bytes
}

// The 31 words of places.
fn places_in(w: &[u32; 50]) -> [u32; 31]
    ensures { result ≡ places_in w.now }
{
    let mut places = [0u32; 31];
    places.copy_from_slice(&w[19..]);
    places
}

fn fields_in(w: &[u32; 50]) -> Fields
    ensures { result ≡ fields_in w.now }
{
    Fields {
        origin: bytes_at(w, 0),
        event: bytes_at(w, 3),
        places: places_in(w),
        count: w[6] as usize,
        duration: w[7],
        day: w[8],
        hour: w[9],
        minute: w[10],
        sender: bytes_at(w, 11),
    }
}

// ---- header texts

// The fields of a text as words, and how many places it has.
fn read_fields(text: &[u8], fields: &mut [u32]) -> Result<usize, Refusal>
    ensures { ReadsFields text.now fields.old result fields.new }
{
    let read = header_reading::read(text)?;
    give(read, fields)
}

// Reads a header text: its count of places, and its fields as 50 words over the front; or reading's number and index, or 13, and
// nothing is written.
pub fn read_words(text: &[u8], fields: &mut [u32]) -> u64
    ensures { ReadWordsPromise text.now fields.old result fields.new }
{
    told(read_fields(text, fields))
}

// The text of fields that are given as words, and its length.
fn write_fields(fields: &[u32], out: &mut [u8]) -> Result<usize, Refusal>
    ensures { WritesFields fields.now out.old result out.new }
{
    let Some(words) = fields.first_chunk::<50>() else {
        return Err(Refusal::NoRoom);
    };
    header_writing::write(fields_in(words), out)
}

// Writes a header text from its fields, given as 50 words: its length, and the text over the front; or 13 or writing's number, and
// nothing is written.
pub fn write_words(fields: &[u32], out: &mut [u8]) -> u64
    ensures { WriteWordsPromise fields.now out.old result out.new }
{
    told(write_fields(fields, out))
}

// ---- the report

// The numbers are C's, so they stand here and not in an `impl From` of `clock`.
fn phase_word(s: Phase) -> u32
    ensures { result ≡ phase_word s }
{
    match s {
        Phase::Early => 0,
        Phase::Live => 1,
        Phase::Expired => 2,
    }
}

// The words behind the event.
fn rest_of(s: Summary) -> [u32; 5]
    ensures { result ≡ rest_words s }
{
    let times = s.times;
    let phase = times.phase;
    [yes(s.listed), s.class, phase_word(phase), cap(s.hits), 0]
}

// The summary's 16 words.
fn put_summary(out: &mut [u32], s: Summary)
    requires { 16 ≤ length out.old }
    ensures { out.new ≡ pasted out.old 0 (summary_words s) }
{
    let times = s.times;
    let a = times.issued;
    let b = times.until;
    let stamps = [
        a.month, a.day, a.hour, a.minute, b.month, b.day, b.hour, b.minute,
    ];
    let rest = rest_of(s);
    put_words(out, 0, &stamps);
    put_words(out, 8, &wide(&s.event));
    put_words(out, 11, &rest);
}

// What comes before 13, or 13: no summary can be given. Nothing lent is handed on, so nothing is written.
fn report_blind(book: &[u32], client: u32, header: &[u8], at: Clock) -> Result<usize, Refusal>
    ensures { said result ≡ without_summary (report_says book.now client header.now at 1) }
{
    let mut none = [0u32; 1];
    report::report(book, client, header, at, &mut none)?;
    Err(Refusal::NoRoom)
}

// A report with its summary as words, and its count of hits.
fn report_both(
    book: &[u32],
    client: u32,
    header: &[u8],
    at: Clock,
    summary: &mut [u32],
    hits: &mut [u32],
) -> Result<usize, Refusal>
    requires { 16 ≤ length summary.old }
    ensures { ReportsWords (report_says book.now client header.now at (length hits.old)) summary.old hits.old result summary.new hits.new }
{
    let s = report::report(book, client, header, at, hits)?;
    put_summary(summary, s);
    Ok(s.hits)
}

// One client's report on a header, by a clock: its count of hits, the summary as 16 words and two words a hit, each over the front
// of its space; or the report's number and index, or 13 for either space, and nothing is written.
pub fn report_words(
    book: &[u32],
    client: u32,
    header: &[u8],
    at: Clock,
    summary: &mut [u32],
    hits: &mut [u32],
) -> u64
    ensures { ReportWordsPromise book.now client header.now at summary.old hits.old result summary.new hits.new }
{
    if summary.len() < 16 {
        return told(report_blind(book, client, header, at));
    }
    told(report_both(book, client, header, at, summary, hits))
}
