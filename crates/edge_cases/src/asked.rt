// What a line asks: the numbers after its first word.
use clock::Clock;

#[derive(Clone, Copy)]
pub(crate) struct Issue {
    pub day: u32,
    pub hour: u32,
    pub minute: u32,
    pub duration: u32,
}

// The number whose digits some bytes start with: its last ten.
fn number(bytes: &[u8]) -> u64 {
    bytes
        .iter()
        .take_while(|b| b'0' <= **b)
        .fold(0, |n: u64, b| n % 1000000000 * 10 + u64::from(*b % 48))
}

// The number that word k of a line says, or 0 where the line has fewer.
pub(crate) fn word(line: &[u8], k: usize) -> u32 {
    let digits = line.split(|b| *b == b' ').nth(k).unwrap_or(&[]);
    (number(digits) % 4294967296) as u32
}

pub(crate) fn clock_of(line: &[u8]) -> Clock {
    Clock {
        year: word(line, 1),
        day: word(line, 2),
        hour: word(line, 3),
        minute: word(line, 4),
    }
}

pub(crate) fn issue_of(line: &[u8]) -> Issue {
    Issue {
        day: word(line, 5),
        hour: word(line, 6),
        minute: word(line, 7),
        duration: word(line, 8),
    }
}
