// The words of a record: its place's first word, and a second word of client and wish. Every function takes any words.
#![tactic(auto)]

ghost use Rattle.std.specs.Prelude.{◌≡◌, ℕ, ◌+◌, ◌*◌};
ghost use Rattle.book_rules.specs.Form.{form};
ghost use Rattle.book_rules.specs.Rules.{ok_rec};
ghost use Rattle.book_records.specs.Promise.{BadClientPromise, BadWishPromise, ClientOfPromise, WishOfPromise, MarkOrNonePromise, RankOfPromise, RankOrNonePromise};

// Whether a client is out of 1 to 9,999.
pub fn bad_client(client: u32) -> bool
    ensures { BadClientPromise client result }
{
    !(1..=9999).contains(&client)
}

// Whether a wish is out of 1 to 63.
pub fn bad_wish(wish: u32) -> bool
    ensures { BadWishPromise wish result }
{
    !(1..=63).contains(&wish)
}

// The client of a record's second word.
pub fn client_of(mark: u32) -> u32
    ensures { ClientOfPromise mark result }
{
    mark / 64
}

// The wish of a record's second word.
pub fn wish_of(mark: u32) -> u32
    ensures { WishOfPromise mark result }
{
    mark % 64
}

// The second word of a client and a wish; none where one of them is out of range.
pub fn mark_or_none(client: u32, wish: u32) -> Option<u32>
    ensures { MarkOrNonePromise client wish result }
{
    if bad_client(client) || bad_wish(wish) {
        return None;
    }
    Some(client * 64 + wish)
}

// The rank of a first word and a client: first word × 10,000 + client.
pub fn rank_of(first: u32, client: u32) -> u64
    ensures { RankOfPromise first client result }
{
    u64::from(first) * 10000 + u64::from(client)
}

// Whether the two words of a record are in range.
fn ok_rec(first: u32, second: u32) -> bool
    ensures { result ≡ ok_rec form (record { first = first; second = second }) }
{
    (1..=99).contains(&(first / 10000))
        && !bad_client(client_of(second))
        && !bad_wish(wish_of(second))
}

// The rank of a record's two words; none where they are out of range.
pub fn rank_or_none(first: u32, second: u32) -> Option<u64>
    ensures { RankOrNonePromise first second result }
{
    if !ok_rec(first, second) {
        return None;
    }
    Some(rank_of(first, client_of(second)))
}
