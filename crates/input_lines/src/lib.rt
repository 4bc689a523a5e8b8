// The lines of the report program's input: what the next line of a text says, by each of the four forms.
#![tactic(auto)]

ghost use Rattle.std.specs.Prelude.{◌≡◌, ◌+◌, ◌<◌, ◌≤◌, ◌==◌, length, position, IfSome};
ghost use Rattle.std.specs.Fn.{FnReturnsAt};
ghost use Rattle.std.specs.Option.{option_map};
ghost use Rattle.input_lines.specs.Forms.{now_line, client_line, sub_line};
ghost use Rattle.input_lines.specs.Answers.{now_parts, sub_parts};
ghost use Rattle.input_lines.specs.Promise.{NowLinePromise, ClientLinePromise, HeaderLinePromise, SubLinePromise};
ghost use Rattle.input_lines.specs.Steps.{line_of, tagged_of, form_of, FixedLine};

use clock::Clock;
use refusals::Refusal;

// What a line says stands beside the index after its byte 10. A malformed line is 23.

// The header's bytes stand from index from on, up to index to.
#[derive(Clone, Copy, Debug, PartialEq, Eq)]
pub struct HeaderLine {
    pub from: usize,
    pub to: usize,
}

#[derive(Clone, Copy, Debug, PartialEq, Eq)]
pub struct SubLine {
    pub place: u32,
    pub client: u32,
    pub wish: u32,
}

// The index of the first byte 10.
fn end_of(rest: &[u8]) -> Option<usize>
    ensures { result ≡ position (λ b. b == 10) rest.now }
{
    rest.iter().position(|b| *b == 10)
}

// Where the line from index at on ends; nowhere where it has no byte 10, or over 300 bytes before it.
fn line_at(input: &[u8], at: usize) -> Option<usize>
    ensures value { result ≡ line_of input.now at }
    ensures inside { IfSome result (λ e. (at ≤ e) × (e < length input.now)) }
{
    let n = end_of(input.get(at..)?)?;
    if 300 < n {
        return None;
    }
    Some(at + n)
}

// A word at index at, and after it a number of w digits.
fn tagged(line: &[u8], at: usize, word: &[u8], w: usize) -> Option<u32>
    requires { at + length word.now + w ≤ length line.now }
    ensures { result ≡ tagged_of word.now w line.now at }
{
    if !line[at..].starts_with(word) {
        return None;
    }
    codec::digits_at(line, at + word.len(), w)
}

// `now=2024 159 1840`
fn now_of(line: &[u8]) -> Option<Clock>
    requires { length line.now ≡ 17 }
    ensures { option_map now_parts result ≡ form_of now_line line.now }
{
    let year = tagged(line, 0, b"now=", 4)?;
    let day = tagged(line, 8, b" ", 3)?;
    let hour = tagged(line, 12, b" ", 2)?;
    let minute = codec::digits_at(line, 15, 2)?;
    Some(Clock {
        year,
        day,
        hour,
        minute,
    })
}

// `client=0007`
fn client_of(line: &[u8]) -> Option<u32>
    requires { length line.now ≡ 11 }
    ensures { result ≡ form_of client_line line.now }
{
    tagged(line, 0, b"client=", 4)
}

// `sub=039051 0007 01`
fn sub_of(line: &[u8]) -> Option<SubLine>
    requires { length line.now ≡ 18 }
    ensures { option_map sub_parts result ≡ form_of sub_line line.now }
{
    let place = tagged(line, 0, b"sub=", 6)?;
    let client = tagged(line, 10, b" ", 4)?;
    let wish = tagged(line, 15, b" ", 2)?;
    Some(SubLine {
        place,
        client,
        wish,
    })
}

// The n bytes from index at on, read by `of`, where their byte 10 stands right behind them; and the index after it. A line of fixed
// width has its byte 10 in one place, and none before it: its form allows none. So each byte is looked at once.
// It lends `of` a slice, since a bound `Fn` that names a const parameter gets no proof: so the three ask for their length.
fn fixed_line<T, F: Fn(&[u8]) -> Option<T>>(
    input: &[u8],
    at: usize,
    n: usize,
    of: F,
) -> Option<(T, usize)>
    requires { (line : _) → length line.now ≡ n → F.pre of line }
    ensures { FixedLine (FnReturnsAt F.Fn of) input.now at n result }
{
    let (line, rest) = input.get(at..)?.split_at_checked(n)?;
    if !rest.starts_with(b"\n") {
        return None;
    }
    Some((of(line)?, at + n + 1))
}

// Year, day, hour and minute of the next line from index at on, if it has the form `now=2024 159 1840`, and the index after it.
pub fn now_line(input: &[u8], at: usize) -> Result<(Clock, usize), Refusal>
    ensures { NowLinePromise input.now at result }
{
    fixed_line(input, at, 17, now_of).ok_or(Refusal::Malformed)
}

// The client of the next line, if it has the form `client=0007`, and the index after it.
pub fn client_line(input: &[u8], at: usize) -> Result<(u32, usize), Refusal>
    ensures { ClientLinePromise input.now at result }
{
    fixed_line(input, at, 11, client_of).ok_or(Refusal::Malformed)
}

// Place, client and wish of the next line, if it has the form `sub=039051 0007 01`, and the index after it.
pub fn sub_line(input: &[u8], at: usize) -> Result<(SubLine, usize), Refusal>
    ensures { SubLinePromise input.now at result }
{
    fixed_line(input, at, 18, sub_of).ok_or(Refusal::Malformed)
}

// Where the header of the next line stands, if that begins `header=`: from the byte after its `=` up to its byte 10; nothing is
// copied.
pub fn header_line(input: &[u8], at: usize) -> Result<(HeaderLine, usize), Refusal>
    ensures { HeaderLinePromise input.now at result }
{
    let Some(to) = line_at(input, at) else {
        return Err(Refusal::Malformed);
    };
    if !input[at..to].starts_with(b"header=") {
        return Err(Refusal::Malformed);
    }
    Ok((HeaderLine { from: at + 7, to }, to + 1))
}
