// What the report program prints: a report's page, or a refusal's one line. Every byte is written once, and how long a text is
// is known by arithmetic before the first is.
#![tactic(auto)]

ghost use Rattle.std.specs.Prelude.{◌≡◌, ◌+◌, ◌<◌, ◌≤◌, length, MatchOption};
ghost use Rattle.laws.specs.Space.{pasted};
ghost use Rattle.page_lines.specs.Lines.{text_line};
ghost use Rattle.page_printing.specs.Page.{yes_no, phase_text, ended, page_text, refused_text};
ghost use Rattle.page_printing.specs.Promise.{PrintPromise};
ghost use Rattle.page_printing.specs.Steps.{Puts, head_lines, what_lines, found_lines, page_length};

use clock::{Phase, Stamp, Times};
use refusals::Refusal;

// These put lines at index at, in space that has room for them, and answer the index after them.

// A word, and some bytes.
fn put_line(out: &mut [u8], at: usize, word: &[u8], says: &[u8]) -> usize
    requires { at + length (text_line word.now says.now) ≤ length out.old }
    ensures { Puts out.old at (text_line word.now says.now) out.new result }
{
    page_lines::put_text(out, at, word, says);
    at + word.len() + says.len() + 1
}

fn listed_word(listed: bool) -> &'static [u8]
    ensures { result.now ≡ yes_no listed }
{
    if listed { b"yes" } else { b"no" }
}

fn phase_word(phase: Phase) -> &'static [u8]
    ensures { result.now ≡ phase_text phase }
{
    match phase {
        Phase::Early => b"early",
        Phase::Live => b"live",
        Phase::Expired => b"expired",
    }
}

// The lines of client, issue and end, at the front: 49 bytes.
fn put_head(out: &mut [u8], client: u32, issued: Stamp, until: Stamp)
    requires { 49 ≤ length out.old }
    ensures { out.new ≡ pasted out.old 0 (ended (head_lines client issued until)) }
{
    page_lines::put_number(out, 0, b"client=", client as usize, 4);
    page_lines::put_stamp(out, 12, b"issued=", issued);
    page_lines::put_stamp(out, 31, b"until=", until);
}

// The lines of event, whether listed, class and phase.
fn put_what(
    out: &mut [u8],
    at: usize,
    event: &[u8],
    listed: bool,
    class: u32,
    phase: Phase,
) -> usize
    requires { at + length (ended (what_lines event.now listed class phase)) ≤ length out.old }
    ensures { Puts out.old at (ended (what_lines event.now listed class phase)) out.new result }
{
    let e = put_line(out, at, b"event=", event);
    let f = put_line(out, e, b"listed=", listed_word(listed));
    page_lines::put_number(out, f, b"class=", class as usize, 1);
    put_line(out, f + 8, b"state=", phase_word(phase))
}

// The lines of the number of hits, in w digits, and of the hits.
fn put_found(out: &mut [u8], at: usize, w: usize, hits: &[u32]) -> usize
    requires { at + length (ended (found_lines w hits.now)) ≤ length out.old }
    ensures { Puts out.old at (ended (found_lines w hits.now)) out.new result }
{
    let n = hits.len() / 2;
    let e = at + 6 + w;
    page_lines::put_number(out, at, b"hits=", n, w);
    page_lines::put_hits(out, e, hits);
    e + 14 * n
}

// What a page leaves for its lines of 14 bytes whose number of hits has w digits and whose event has so many bytes; nothing where it
// does not fit without them. Differences, so that no sum runs over.
fn room_for_hits(room: usize, listed: bool, phase: Phase, w: usize, event: usize) -> Option<usize>
    ensures { MatchOption result (room < page_length listed phase w event 0) (λ left. page_length listed phase w event 0 + left ≡ room) }
{
    let some = 85 + listed_word(listed).len() + phase_word(phase).len();
    room.checked_sub(some)?.checked_sub(w)?.checked_sub(event)
}

// Prints a refusal's one line to the front of out, and says its length; or 13 where it does not fit, and nothing is written. It takes any
// number, as `refused_text` does.
pub fn print_refusal(out: &mut [u8], number: u32) -> Result<usize, Refusal>
    ensures { PrintPromise (refused_text number) out.old result out.new }
{
    let n = number as usize;
    let w = page_lines::size_of(n);
    if out.len() < 9 + w {
        return Err(Refusal::NoRoom);
    }
    page_lines::put_number(out, 0, b"refused=", n, w);
    Ok(9 + w)
}

// Prints a report's page to the front of out, and says its length; or 13 where it does not fit, and nothing is written. Hits are pairs of
// place and wish. `listed` stands beside the class, since a code that is not listed has a class too.
pub fn print_page(
    out: &mut [u8],
    client: u32,
    times: Times,
    event: &[u8],
    listed: bool,
    class: u32,
    hits: &[u32],
) -> Result<usize, Refusal>
    ensures { PrintPromise (page_text client times event.now listed class hits.now) out.old result out.new }
{
    let n = hits.len() / 2;
    let w = page_lines::size_of(n);
    let Some(left) = room_for_hits(out.len(), listed, times.phase, w, event.len()) else {
        return Err(Refusal::NoRoom);
    };
    if left / 14 < n {
        return Err(Refusal::NoRoom);
    }
    put_head(out, client, times.issued, times.until);
    let e = put_what(out, 49, event, listed, class, times.phase);
    Ok(put_found(out, e, w, hits))
}
