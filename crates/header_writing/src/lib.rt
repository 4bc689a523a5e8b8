// Writes a header text.
#![tactic(auto)]

ghost use Rattle.std.specs.Prelude.{◌≡◌, ◌+◌, ◌*◌, ◌≤◌, ◌∷◌, [], ◌++◌, length};
ghost use Rattle.laws.specs.Numbers.{dig};
ghost use Rattle.laws.specs.Space.{pasted};
ghost use Rattle.refusals.specs.Refusals.{said};
ghost use Rattle.header.specs.Writing.{write_says};
ghost use Rattle.header.specs.Answers.{counted, alert_in};
ghost use Rattle.header.specs.Promise.{WritePromise};
ghost use Rattle.header_writing.specs.Steps.{codes_ok, places_text, duration_text, issue_text, opening_text, closing_text, all_text};

use header::Fields;
use refusals::Refusal;

// First what is answered, then the bytes.

// Whether so many of the codes can stand in a text.
fn codes_ok(codes: &[u32; 31], count: usize) -> bool
    ensures { result ≡ codes_ok (counted codes.now count) }
{
    match codes.get(..count) {
        Some(standing) => !standing.is_empty() && standing.iter().all(|code| *code < 1000000),
        None => false,
    }
}

// How many bytes are written, or why none.
fn judge(f: &Fields, room: usize) -> Result<usize, Refusal>
    ensures { said result ≡ write_says (alert_in f.now) room }
{
    if !header::is_origin(&f.origin) {
        return Err(Refusal::BadOrigin);
    }
    if !header::is_event(&f.event) {
        return Err(Refusal::BadEvent);
    }
    if !codes_ok(&f.places, f.count) {
        return Err(Refusal::BadPlaces);
    }
    if !header::is_duration(f.duration) {
        return Err(Refusal::BadDuration);
    }
    if !header::is_issue(f.day, f.hour, f.minute) {
        return Err(Refusal::BadIssue);
    }
    if !header::is_sender(&f.sender) {
        return Err(Refusal::BadSender);
    }
    let n = 35 + 7 * f.count;
    if room < n {
        return Err(Refusal::NoRoom);
    }
    Ok(n)
}

// These write a part of the text at index at, in space that has room for it. Each part's length is known, and so is its index.

// A place and its mark.
fn put_place(out: &mut [u8], at: usize, code: u32, mark: u8)
    requires { at + 7 ≤ length out.old }
    ensures { out.new ≡ pasted out.old at (dig 6 code ++ (mark ∷ [])) }
{
    codec::put_digits(out, at, code, 6);
    codec::put_byte(out, at + 6, mark);
}

// The places, each with its mark.
fn put_places(out: &mut [u8], at: usize, codes: &[u32])
    requires { at + 7 * length codes.now ≤ length out.old }
    ensures { out.new ≡ pasted out.old at (places_text codes.now) }
{
    for (k, code) in codes.iter().enumerate() {
        let mark = if k + 1 < codes.len() { 45 } else { 43 };
        put_place(out, at + 7 * k, *code, mark);
    }
}

// Some bytes and the mark `-`.
fn put_marked(out: &mut [u8], at: usize, b: &[u8])
    requires { at + length b.now + 1 ≤ length out.old }
    ensures { out.new ≡ pasted out.old at (b.now ++ (45 ∷ [])) }
{
    codec::put_bytes(out, at, b);
    codec::put_byte(out, at + b.len(), 45);
}

fn put_duration(out: &mut [u8], at: usize, minutes: u32)
    requires { at + 5 ≤ length out.old }
    ensures { out.new ≡ pasted out.old at (duration_text minutes) }
{
    codec::put_digits(out, at, minutes / 60, 2);
    codec::put_digits(out, at + 2, minutes % 60, 2);
    codec::put_byte(out, at + 4, 45);
}

// Three of the fields, as `issue_text` takes them.
fn put_issue(out: &mut [u8], at: usize, day: u32, hour: u32, minute: u32)
    requires { at + 8 ≤ length out.old }
    ensures { out.new ≡ pasted out.old at (issue_text day hour minute) }
{
    codec::put_digits(out, at, day, 3);
    codec::put_digits(out, at + 3, hour, 2);
    codec::put_digits(out, at + 5, minute, 2);
    codec::put_byte(out, at + 7, 45);
}

// Start, origin and event.
fn put_opening(out: &mut [u8], f: &Fields)
    requires { 13 ≤ length out.old }
    ensures out_after { out.new ≡ pasted out.old 0 (opening_text f.now) }
    ensures f_len { length (opening_text f.now) ≡ 13 }
{
    codec::put_bytes(out, 0, b"ZCZC-");
    put_marked(out, 5, &f.origin);
    put_marked(out, 9, &f.event);
}

// Duration, issue and sender.
fn put_closing(out: &mut [u8], at: usize, f: &Fields)
    requires { at + 22 ≤ length out.old }
    ensures out_after { out.new ≡ pasted out.old at (closing_text f.now) }
    ensures f_len { length (closing_text f.now) ≡ 22 }
{
    put_duration(out, at, f.duration);
    put_issue(out, at + 5, f.day, f.hour, f.minute);
    put_marked(out, at + 13, &f.sender);
}

fn put_all(out: &mut [u8], f: &Fields)
    requires { (f.now.count ≤ 31) × (35 + 7 * f.now.count ≤ length out.old) }
    ensures { out.new ≡ pasted out.old 0 (all_text f.now) }
{
    put_opening(out, f);
    put_places(out, 13, &f.places[..f.count]);
    put_closing(out, 13 + 7 * f.count, f);
}

// Writes the text of the fields to the front of `out`, or says by number why not. Entries of `places` past `count` do not
// matter.
pub fn write(f: Fields, out: &mut [u8]) -> Result<usize, Refusal>
    ensures { WritePromise f out.old out.new result }
{
    let n = judge(&f, out.len())?;
    put_all(out, &f);
    Ok(n)
}
