// One field of a header text and the mark behind it, at index at of the text.
#![tactic(auto)]

ghost use Rattle.std.specs.Fn.{FnReturnsAt};
ghost use Rattle.header.specs.Header.{start, origin, event, sender};
ghost use Rattle.header_fields.specs.Promise.{StandsPromise, PlaceAtPromise, MinutesAtPromise, IssueAtPromise};
ghost use Rattle.header_fields.specs.Stands.{StandsBy};

use refusals::Refusal;

// When a header was issued.
#[derive(Clone, Copy)]
pub struct Issue {
    pub day: u32,
    pub hour: u32,
    pub minute: u32,
}

// Whether so many bytes that are allowed stand there, and the mark `-` behind them.
fn stands_at<F: Fn(&[u8]) -> bool>(text: &[u8], at: usize, width: usize, allows: F) -> bool
    requires { F.IsAlwaysCallable allows }
    ensures { StandsBy width (FnReturnsAt F.Fn allows) text.now at result }
{
    match text.get(at..) {
        Some(rest) if width < rest.len() => allows(&rest[..width]) && rest[width] == 45,
        _ => false,
    }
}

// Whether ZCZC and its mark stand there.
pub fn start_at(text: &[u8], at: usize) -> bool
    ensures { StandsPromise start text.now at result }
{
    stands_at(text, at, 4, |b| codec::same(b, b"ZCZC"))
}

// Whether an origin and its mark stand there.
pub fn origin_at(text: &[u8], at: usize) -> bool
    ensures { StandsPromise origin text.now at result }
{
    stands_at(text, at, 3, header::is_origin)
}

// Whether an event and its mark stand there.
pub fn event_at(text: &[u8], at: usize) -> bool
    ensures { StandsPromise event text.now at result }
{
    stands_at(text, at, 3, header::is_event)
}

// Whether a sender and its mark stand there.
pub fn sender_at(text: &[u8], at: usize) -> bool
    ensures { StandsPromise sender text.now at result }
{
    stands_at(text, at, 8, header::is_sender)
}

// The code of the place that stands there with either mark, and the index after its mark.
pub fn place_at(text: &[u8], at: usize) -> Result<(u32, usize), Refusal>
    ensures { PlaceAtPromise text.now at result }
{
    let refused = Refusal::NoPlaceAt(at);
    let code = codec::digits_at(text, at, 6).ok_or(refused)?;
    let mark = *text.get(at + 6).ok_or(refused)?;
    if mark != 45 && mark != 43 {
        return Err(refused);
    }
    Ok((code, at + 7))
}

// The minutes of the duration that stands there with its mark, or none.
pub fn minutes_at(text: &[u8], at: usize) -> Option<u32>
    ensures { MinutesAtPromise text.now at result }
{
    let h = codec::digits_at(text, at, 2)?;
    let m = codec::digits_at(text, at + 2, 2)?;
    let mark = *text.get(at + 4)?;
    if mark != 45 || !header::is_duration_of(h, m) {
        return None;
    }
    Some(h * 60 + m)
}

// The issue that stands there with its mark, or none.
pub fn issue_at(text: &[u8], at: usize) -> Option<Issue>
    ensures { IssueAtPromise text.now at result }
{
    let day = codec::digits_at(text, at, 3)?;
    let hour = codec::digits_at(text, at + 3, 2)?;
    let minute = codec::digits_at(text, at + 5, 2)?;
    let mark = *text.get(at + 7)?;
    if mark != 45 || !header::is_issue(day, hour, minute) {
        return None;
    }
    Some(Issue { day, hour, minute })
}
