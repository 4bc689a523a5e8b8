// What a header says, and which values each of its fields allows. Crate `header_reading` reads its text, crate `header_writing` writes it.
#![tactic(auto)]

ghost use Rattle.std.specs.Prelude.{◌≡◌};
ghost use Rattle.header.specs.Header.{is_sender_byte};
ghost use Rattle.header.specs.Promise.{IsOriginPromise, IsEventPromise, IsSenderPromise, IsDurationOfPromise, IsIssuePromise, IsDurationPromise};

// The fields of a header: `count` of the places stand, and the rest are 0. An array and a count, since the library has no heap and C lends the
// same words. The duration is in minutes. Numbers come before bytes, so that no gap stands between two fields and a copy is one piece.
#[derive(Clone, Copy)]
pub struct Fields {
    pub places: [u32; 31],
    pub duration: u32,
    pub count: usize,
    pub day: u32,
    pub hour: u32,
    pub minute: u32,
    pub origin: [u8; 3],
    pub event: [u8; 3],
    pub sender: [u8; 8],
}

fn sender_byte(b: u8) -> bool
    ensures { result ≡ is_sender_byte b }
{
    codec::between(32, 126, b) && b != 45 && b != 43
}

// Whether bytes are all capital letters, as an event's are.
pub fn is_event(b: &[u8]) -> bool
    ensures { IsEventPromise b.now result }
{
    b.iter().all(|x| codec::between(65, 90, *x))
}

// Whether bytes are all ones that a sender may have.
pub fn is_sender(b: &[u8]) -> bool
    ensures { IsSenderPromise b.now result }
{
    b.iter().all(|x| sender_byte(*x))
}

// Whether bytes are one of the four origins.
pub fn is_origin(b: &[u8]) -> bool
    ensures { IsOriginPromise b.now result }
{
    codec::same(b, b"EAS")
        || codec::same(b, b"CIV")
        || codec::same(b, b"WXR")
        || codec::same(b, b"PEP")
}

// Whether a text can say so, hours and minutes as they are written.
pub fn is_duration_of(hours: u32, minutes: u32) -> bool
    ensures { IsDurationOfPromise hours minutes result }
{
    if hours == 0 {
        minutes == 15 || minutes == 30 || minutes == 45
    } else {
        hours <= 99 && (minutes == 0 || minutes == 30)
    }
}

// Whether a text can say so many minutes.
pub fn is_duration(minutes: u32) -> bool
    ensures { IsDurationPromise minutes result }
{
    is_duration_of(minutes / 60, minutes % 60)
}

// Whether a text can say this day, hour and minute: three parameters, as `IsIssuePromise` takes them.
pub fn is_issue(day: u32, hour: u32, minute: u32) -> bool
    ensures { IsIssuePromise day hour minute result }
{
    1 <= day && day <= 366 && hour <= 23 && minute <= 59
}
