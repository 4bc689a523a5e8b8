// Three received bursts, stripped of their preamble and voted to one text.
#![tactic(auto)]

ghost use Rattle.std.specs.Prelude.{◌≡◌, ℕ, ◌≤◌, ◌<◌, length, not, eqb, position};
ghost use Rattle.std.specs.List.{zip};
ghost use Rattle.laws.specs.Space.{pasted};
ghost use Rattle.burst.specs.Strip.{preamble};
ghost use Rattle.burst.specs.Bits.{voted_byte};
ghost use Rattle.burst.specs.Vote.{middle, voted_length, too_long};
ghost use Rattle.burst.specs.Promise.{LeadingPromise, StripPromise, VotePromise};
ghost use Rattle.burst.specs.Steps.{voted_bytes, stretch, Agrees, Decides};

use refusals::Refusal;

// The vote's answer: how many bytes the text has, or why there is none; and for the station log, granted or refused, how many bytes
// were dropped of each burst.
#[derive(Clone, Copy)]
pub struct VoteAnswer {
    pub voted: Result<usize, Refusal>,
    pub first: usize,
    pub second: usize,
    pub third: usize,
}

// Whether a byte differs from AB in at most one bit.
fn is_preamble(x: u8) -> bool
    ensures { result ≡ preamble x }
{
    u8::count_ones(x ^ 0xAB) <= 1
}

// Where the first byte stands that does not count as preamble, if one does.
fn first_other(burst: &[u8]) -> Option<usize>
    ensures { result ≡ position (λ x. not (preamble x)) burst.now }
{
    burst.iter().position(|x| !is_preamble(*x))
}

// How many bytes the stripping drops: the leading preamble bytes, up to 16. One look at each, and at the byte that ends the run.
pub fn leading(burst: &[u8]) -> usize
    ensures { LeadingPromise burst.now result }
{
    let first = &burst[..burst.len().min(16)];
    first_other(first).unwrap_or(first.len())
}

// The part of the burst that follows the bytes dropped; nothing is copied.
pub fn strip(burst: &[u8]) -> &[u8]
    ensures { StripPromise burst.entry result }
{
    let n = leading(burst);
    &burst[n..]
}

fn median(x: usize, y: usize, z: usize) -> usize
    ensures { result ≡ middle x y z }
{
    x.min(y).max(x.max(y).min(z))
}

fn too_long(a: &[u8], b: &[u8], c: &[u8]) -> bool
    ensures { result ≡ too_long a.now b.now c.now }
{
    268 < a.len() || 268 < b.len() || 268 < c.len()
}

// Each bit of the answer is what at least two of the three have: some pair of them has it. All eight bits are settled at once.
fn majority(x: u8, y: u8, z: u8) -> u8
    ensures { result ≡ voted_byte x y z }
{
    (x & y) | (x & z) | (y & z)
}

// The lowest position at which the two differ, as far as both reach.
fn first_difference(p: &[u8], q: &[u8]) -> Option<usize>
    ensures { result ≡ position (λ x. not (eqb x.0 x.1)) (zip p.now q.now) }
{
    p.iter().zip(q).position(|(x, y)| x != y)
}

// Writes the voted bytes, as far as a reaches.
fn write_voted(a: &[u8], b: &[u8], c: &[u8], out: &mut [u8])
    requires { (length a.now ≤ length b.now) × (length a.now ≤ length c.now) × (length a.now ≤ length out.old) }
    ensures { out.new ≡ pasted out.old 0 (voted_bytes a.now b.now c.now (length a.now)) }
{
    for i in 0..a.len() {
        out[i] = majority(a[i], b[i], c[i]);
    }
}

// Copies the bytes of p from index from up to end to the same places. A `for` and not `copy_from_slice`, which calls memmove: the
// library for C takes memcpy and memset from outside, and nothing else.
fn write_rest(p: &[u8], from: usize, end: usize, out: &mut [u8])
    requires { (from ≤ end) × (end ≤ length p.now) × (end ≤ length out.old) }
    ensures { out.new ≡ pasted out.old from (stretch p.now from end) }
{
    for i in from..end {
        out[i] = p[i];
    }
}

// s is the shortest of three stripped bursts, and n the length of the next. Three reach as far as s does, so nothing
// clashes there; from there up to n only p and q reach. So one search over that stretch settles 3, and then each byte
// is written once, with no question of who reaches.
fn agree(s: &[u8], p: &[u8], q: &[u8], n: usize, out: &mut [u8]) -> Result<usize, Refusal>
    requires { (length s.now ≤ n) × (n ≤ length p.now) × (n ≤ length q.now) × (n ≤ length out.old) }
    ensures { Agrees s.now p.now q.now n out.old result out.new }
{
    let m = s.len();
    if let Some(k) = first_difference(&p[m..n], &q[m..n]) {
        return Err(Refusal::ClashAt(m + k));
    }
    write_voted(s, p, q, out);
    write_rest(p, m, n, out);
    Ok(n)
}

// Three stripped bursts, once 1, 2, 4 and 13 are settled: which of them is the shortest.
fn by_length(a: &[u8], b: &[u8], c: &[u8], n: usize, out: &mut [u8]) -> Result<usize, Refusal>
    requires { (n ≡ voted_length a.now b.now c.now) × (0 < n) × (n ≤ 252) × (n ≤ length out.old) }
    ensures { Decides a.now b.now c.now out.old result out.new }
{
    if a.len() <= b.len() {
        if a.len() <= c.len() {
            return agree(a, b, c, n, out);
        }
        return agree(c, a, b, n, out);
    }
    if b.len() <= c.len() {
        return agree(b, a, c, n, out);
    }
    agree(c, a, b, n, out)
}

// The vote on three stripped bursts, none of whose received ones is too long. They stay three names here and below: `by_length` tells them
// apart by their lengths, and an array of them would have to be asked by number.
fn decide(a: &[u8], b: &[u8], c: &[u8], out: &mut [u8]) -> Result<usize, Refusal>
    ensures { Decides a.now b.now c.now out.old result out.new }
{
    let n = median(a.len(), b.len(), c.len());
    if n == 0 {
        return Err(Refusal::NoText);
    }
    if 252 < n {
        return Err(Refusal::LongText);
    }
    if out.len() < n {
        return Err(Refusal::NoRoom);
    }
    by_length(a, b, c, n, out)
}

// The vote on three received bursts: the voted text over the front of out, and its length; or 1, 2, 4, 13 or 3, and nothing is
// written. Each burst's number of dropped bytes goes with it, also beside a refusal.
pub fn vote(a: &[u8], b: &[u8], c: &[u8], out: &mut [u8]) -> VoteAnswer
    ensures { VotePromise a.now b.now c.now out.old result out.new }
{
    let first = leading(a);
    let second = leading(b);
    let third = leading(c);
    if too_long(a, b, c) {
        return VoteAnswer {
            voted: Err(Refusal::LongBurst),
            first,
            second,
            third,
        };
    }
    let voted = decide(&a[first..], &b[second..], &c[third..], out);
    VoteAnswer {
        voted,
        first,
        second,
        third,
    }
}
