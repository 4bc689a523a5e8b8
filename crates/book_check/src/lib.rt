// Whether 8,293 words are a good book: words 0 to 100 are counts, then come 4,096 records of two words.
#![tactic(auto)]

ghost use Rattle.std.specs.Prelude.{◌≡◌, true, false, ◌&&◌, ◌||◌, ℕ, ◌+◌, ◌-◌, ◌*◌, ◌/◌, ◌<◌, ◌≤◌, eqb, ltb, leb, length, get_or};
ghost use Rattle.laws.specs.Lists.{table};
ghost use Rattle.book_rules.specs.Form.{form};
ghost use Rattle.book_rules.specs.Rules.{rec_state, rec_at, below, counts_right, records_right, unused_zero};
ghost use Rattle.book_rules.specs.Steps.{rising_rank};
ghost use Rattle.book_check.specs.Promise.{IsGoodPromise};

// A book of its length, and the number of its records.
#[derive(Clone, Copy)]
struct Counted<'a> {
    book: &'a [u32],
    n: usize,
    ghost long: { length book.now ≡ 8293 },
    ghost few: { n ≤ 4096 },
}

impl Counted<'_> {
    // Whether the records are in range and rise: each rank is above the one before it, and the first above 0, as every rank is. One pass,
    // each word looked at once.
    fn records_rise(&self) -> bool
        ensures { result ≡ (records_right form self.now.book.now self.now.n && rising_rank form self.now.book.now self.now.n) }
    {
        let book = self.book;
        let (records, _) = book[101..101 + 2 * self.n].as_chunks::<2>();
        let mut last = 0;
        for [first, second] in records {
            let Some(next) = book_records::rank_or_none(*first, *second) else {
                return false;
            };
            if next <= last {
                return false;
            }
            last = next;
        }
        true
    }

    // The state of record i.
    fn state_at(&self, i: usize) -> usize
        requires { i < 4096 }
        ensures { result ≡ rec_state (rec_at self.now.book.now i) }
    {
        (self.book[101 + 2 * i] / 10000) as usize
    }

    // Whether c is 0, or the record before index c has a state below s.
    fn ends_below(&self, c: usize, s: usize) -> bool
        requires { c ≤ 4096 }
        ensures { result ≡ (eqb c 0 || ltb (rec_state (rec_at self.now.book.now (c - 1))) s) }
    {
        c == 0 || self.state_at(c - 1) < s
    }

    // Whether no record stands behind index c, or the record there has a state of at least s.
    fn starts_above(&self, c: usize, s: usize) -> bool
        requires { c ≤ self.now.n }
        ensures { result ≡ (eqb c self.now.n || leb s (rec_state (rec_at self.now.book.now c))) }
    {
        c == self.n || s <= self.state_at(c)
    }

    // Whether word s is its count, where the records are in range and rise: one look on each side of the record it names.
    fn count_is(&self, s: usize) -> bool
        requires { (s < 101) × (records_right form self.now.book.now self.now.n ≡ true) × (rising_rank form self.now.book.now self.now.n ≡ true) }
        ensures { result ≡ eqb (get_or self.now.book.now s 0) (below (table self.now.n (rec_at self.now.book.now)) s) }
    {
        let c = self.book[s] as usize;
        if self.n < c {
            return false;
        }
        if !self.ends_below(c, s) {
            return false;
        }
        self.starts_above(c, s)
    }

    // Whether each of the first 101 words is its count, where the records are in range and rise.
    fn counts_right(&self) -> bool
        requires { (records_right form self.now.book.now self.now.n ≡ true) × (rising_rank form self.now.book.now self.now.n ≡ true) }
        ensures { result ≡ counts_right self.now.book.now self.now.n }
    {
        (0..101).all(|s| self.count_is(s))
    }

    // Whether the words past the records are zero. One pass with no branch in it: all of them or-ed together.
    fn unused_zero(&self) -> bool
        ensures { result ≡ unused_zero self.now.book.now self.now.n }
    {
        let book = self.book;
        book[101 + 2 * self.n..]
            .iter()
            .fold(0, |bits, word| bits | word)
            == 0
    }
}

// Whether the book has its length and keeps the rules. One pass over the records, one look on each side of each count,
// one pass over the unused words; what is cheap to see comes first.
pub fn is_good(book: &[u32]) -> bool
    ensures { IsGoodPromise book.now result }
{
    if book.len() != 8293 {
        return false;
    }
    let n = book[100] as usize;
    if 4096 < n {
        return false;
    }
    let counted = Counted { book, n };
    if !counted.records_rise() {
        return false;
    }
    if !counted.counts_right() {
        return false;
    }
    counted.unused_zero()
}
