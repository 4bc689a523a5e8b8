// The code on bytes and digits that the formats share. Every call takes any input.
#![tactic(auto)]

ghost use Rattle.std.specs.Prelude.{◌≡◌, ◌∷◌, [], eqb};
ghost use Rattle.std.specs.List.{list_all, zip};
ghost use Rattle.laws.specs.Numbers.{dig};
ghost use Rattle.codec.specs.Promise.{BetweenPromise, SamePromise, DigitsAtPromise, PutPromise};

// Whether lo ≤ b ≤ hi.
pub fn between(lo: u8, hi: u8, b: u8) -> bool
    ensures { BetweenPromise lo hi b result }
{
    lo <= b && b <= hi
}

// Whether a and b are alike, as far as both reach. Byte by byte, since the library's `==` is a call of its own, dear for a field's few bytes.
fn alike(a: &[u8], b: &[u8]) -> bool
    ensures { result ≡ list_all (λ x. eqb x.0 x.1) (zip a.now b.now) }
{
    a.iter().zip(b).all(|(x, y)| x == y)
}

// Whether a and b are the same bytes.
pub fn same(a: &[u8], b: &[u8]) -> bool
    ensures { SamePromise a.now b.now result }
{
    a.len() == b.len() && alike(a, b)
}

// The number that the width digits at index at make; none where one is no digit, where fewer bytes stand there, or where width is
// over 9, so that it fits.
pub fn digits_at(text: &[u8], at: usize, width: usize) -> Option<u32>
    ensures { DigitsAtPromise text.now at width result }
{
    if 9 < width {
        return None;
    }
    let mut n: u32 = 0;
    for b in text.get(at..)?.get(..width)? {
        if !between(48, 57, *b) {
            return None;
        }
        n = n * 10 + u32::from(*b - 48);
    }
    Some(n)
}

// Puts one byte at index at and says yes, or says no where there is no room for it and writes nothing. A yes or no is enough, here and below:
// every caller has asked for room. `out` and `at` stay two parameters: the promise is of the whole lent space and an index that does not move.
pub fn put_byte(out: &mut [u8], at: usize, b: u8) -> bool
    ensures { PutPromise out.old at (b ∷ []) result out.new }
{
    if out.len() <= at {
        return false;
    }
    out[at] = b;
    true
}

// Puts some bytes at index at and says yes, or says no where there is no room for all of them and writes nothing. A `for` and not
// `copy_from_slice`, which calls memmove: the library for C takes memcpy and memset from outside, and nothing else.
pub fn put_bytes(out: &mut [u8], at: usize, src: &[u8]) -> bool
    ensures { PutPromise out.old at src.now result out.new }
{
    if out.len() < at || out.len() - at < src.len() {
        return false;
    }
    for k in 0..src.len() {
        out[at + k] = src[k];
    }
    true
}

// Puts the last width digits of a count at index at and says yes, or says no where there is no room for them and writes nothing. It goes from
// the right.
pub fn put_count(out: &mut [u8], at: usize, n: usize, width: usize) -> bool
    ensures { PutPromise out.old at (dig width n) result out.new }
{
    if out.len() < at || out.len() - at < width {
        return false;
    }
    let mut v = n;
    for k in (0..width).rev() {
        out[at + k] = (48 + v % 10) as u8;
        v /= 10;
    }
    true
}

// The same of a number of 32 bits, such as digits_at gives: a call of its own, since both are public.
pub fn put_digits(out: &mut [u8], at: usize, n: u32, width: usize) -> bool
    ensures { PutPromise out.old at (dig width n) result out.new }
{
    put_count(out, at, n as usize, width)
}
