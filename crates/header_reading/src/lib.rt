// Reads a header text: one pass over the text, and nothing is copied but the fields.
#![tactic(auto)]

ghost use Rattle.std.specs.Prelude.{◌≡◌, ℕ, ◌+◌, ◌≤◌, length, take, drop, replicate, Ok};
ghost use Rattle.header.specs.Promise.{ReadPromise};
ghost use Rattle.header_reading.specs.Steps.{PlacesAt, FrontOf};

use header::Fields;
use header_fields::Issue;
use refusals::Refusal;

// Everything before the sender, but for origin and event: how many places, the duration, the issue, and the index behind them.
#[derive(Clone, Copy)]
struct Opening {
    count: usize,
    minutes: u32,
    issue: Issue,
    at: usize,
}

// The list of places: how many they are, and the index behind the last mark. After a place comes a mark, after `-` another place. A step
// that stops is handed on as it is: so the number of places has the type of a code. Codes are put to the front of lent words, which are
// zeros.
fn places_at(text: &[u8], at: usize, codes: &mut [u32; 31]) -> Result<(u32, usize), Refusal>
    requires { (at ≤ length text.now) × (codes.old ≡ replicate {A = ℕ} 31 0) }
    ensures { PlacesAt text.now at codes.new result }
{
    let mut i = at;
    for (n, code) in codes.iter_mut().enumerate() {
        let step = header_fields::place_at(text, i);
        let Ok((place, next)) = step else {
            return step;
        };
        *code = place;
        if text[i + 6] == 43 {
            return Ok((n as u32 + 1, next));
        }
        i = next;
    }
    Err(Refusal::NoPlaceAt(i))
}

// Everything before the sender.
fn front_of(text: &[u8], codes: &mut [u32; 31]) -> Result<Opening, Refusal>
    requires { codes.old ≡ replicate {A = ℕ} 31 0 }
    ensures { FrontOf text.now codes.new result }
{
    if !header_fields::start_at(text, 0) {
        return Err(Refusal::NoStartAt(0));
    }
    if !header_fields::origin_at(text, 5) {
        return Err(Refusal::NoOriginAt(5));
    }
    if !header_fields::event_at(text, 9) {
        return Err(Refusal::NoEventAt(9));
    }
    let (count, at) = places_at(text, 13, codes)?;
    let minutes = header_fields::minutes_at(text, at).ok_or(Refusal::NoDurationAt(at))?;
    let issue = header_fields::issue_at(text, at + 5).ok_or(Refusal::NoIssueAt(at + 5))?;
    Ok(Opening {
        count: count as usize,
        minutes,
        issue,
        at: at + 13,
    })
}

// So many bytes from index at on.
fn bytes_at<const N: usize>(text: &[u8], at: usize) -> [u8; N]
    requires { at + N ≤ length text.now }
    ensures { result ≡ take N (drop at text.now) }
{
    *text[at..].first_chunk().unwrap()
}

// The rest of a text whose front is read: the sender and its mark, and nothing behind them.
fn signed(text: &[u8], places: [u32; 31], opening: Opening) -> Result<Fields, Refusal>
    requires { (length text.now ≤ 252) × FrontOf text.now places (Ok opening) }
    ensures { ReadPromise text.now result }
{
    let at = opening.at;
    if !header_fields::sender_at(text, at) {
        return Err(Refusal::NoSenderAt(at));
    }
    if text.len() != at + 9 {
        return Err(Refusal::MoreAt(at + 9));
    }
    Ok(Fields {
        places,
        duration: opening.minutes,
        count: opening.count,
        day: opening.issue.day,
        hour: opening.issue.hour,
        minute: opening.issue.minute,
        origin: bytes_at(text, 5),
        event: bytes_at(text, 9),
        sender: bytes_at(text, at),
    })
}

// The fields of a text, or the number and the index of what is not allowed.
pub fn read(text: &[u8]) -> Result<Fields, Refusal>
    ensures { ReadPromise text.now result }
{
    if 252 < text.len() {
        return Err(Refusal::LongText);
    }
    let mut places = [0u32; 31];
    let front = front_of(text, &mut places)?;
    signed(text, places, front)
}
