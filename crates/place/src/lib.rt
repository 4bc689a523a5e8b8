// Places: which match, how a book keeps one, and how many are matched fast.
#![tactic(auto)]

ghost use Rattle.std.specs.Prelude.{◌≡◌};
ghost use Rattle.place.specs.Place.{meet, match_by_parts};
ghost use Rattle.place.specs.Packed.{packed_by_parts, packed_match};
ghost use Rattle.place.specs.Promise.{MatchesPromise, MatchesSomePromise, FirstWordPromise, PlaceOfPromise, BadPlacePromise, PackPromise, PackPlacesPromise, PackedMatchSomePromise};

// Whether two counties, or two parts, are equal or either is 0.
fn meets(a: u32, b: u32) -> bool
    ensures { result ≡ meet a b }
{
    a == b || a == 0 || b == 0
}

// Whether two places match by state, county and part. The front PSS of PSSCCC is divided off once, for all three tests.
fn by_parts(watched: u32, sent: u32) -> bool
    ensures { result ≡ match_by_parts watched sent }
{
    let watched_front = watched / 1000;
    let sent_front = sent / 1000;
    watched_front % 100 == sent_front % 100
        && meets(watched - watched_front * 1000, sent - sent_front * 1000)
        && meets(watched_front / 100, sent_front / 100)
}

// Whether a watched place and a place of a header match. Six zeros match every place, as they mean the whole country; without a state
// any other place matches none.
#[tactic(auto, unfolding(crate::specs::Place::matches))]
pub fn matches(watched: u32, sent: u32) -> bool
    ensures { MatchesPromise watched sent result }
{
    if sent == 0 {
        return true;
    }
    if sent / 1000 % 100 == 0 {
        return false;
    }
    by_parts(watched, sent)
}

// Whether a watched place matches at least one place of a header. One look at each, up to the first that matches.
pub fn matches_some(watched: u32, sent: &[u32]) -> bool
    ensures { MatchesSomePromise watched sent.now result }
{
    sent.iter().any(|place| matches(watched, *place))
}

// The first word of a place's records: SS × 10,000 + CCC × 10 + P.
#[tactic(auto, unfolding(crate::specs::FirstWord::first_word))]
pub fn first_word(place: u32) -> u32
    ensures { FirstWordPromise place result }
{
    place / 1000 % 100 * 10000 + place % 1000 * 10 + place / 100000
}

// The place code of a first word.
#[tactic(auto, unfolding(crate::specs::FirstWord::place_of))]
pub fn place_of(word: u32) -> u32
    ensures { PlaceOfPromise word result }
{
    word % 10 * 100000 + word / 10000 * 1000 + word / 10 % 1000
}

// Whether a book would not take the place: it is over 999,999, or SS is 00.
#[tactic(auto, unfolding(crate::specs::FirstWord::bad_place))]
pub fn bad_place(place: u32) -> bool
    ensures { BadPlacePromise place result }
{
    999999 < place || place / 1000 % 100 == 0
}

// ---- packed places, for those who match many: no division in the loop

// A first word with its parts in bits of their own.
#[tactic(auto, unfolding(crate::specs::Packed::packed))]
pub fn pack(word: u32) -> u32
    ensures { PackPromise word result }
{
    word / 10000 % 100 * 16384 + word / 10 % 1000 * 16 + word % 10
}

// Packs each of some places where it stands.
pub fn pack_places(places: &mut [u32])
    ensures { PackPlacesPromise places.old places.new }
{
    for place in places.iter_mut() {
        *place = pack(first_word(*place));
    }
}

// Whether two packed places match by state, county and part. Not one with `by_parts`: where the parts are divided off is all that both do.
fn packed_by_parts(watched: u32, sent: u32) -> bool
    ensures { result ≡ packed_by_parts watched sent }
{
    watched / 16384 == sent / 16384
        && meets(watched / 16 % 1024, sent / 16 % 1024)
        && meets(watched % 16, sent % 16)
}

// Whether two packed places match, by the rule of `matches`. The state is looked at first: nearly every place sent has one, and takes no
// further test.
#[tactic(auto, unfolding(crate::specs::Packed::packed_match))]
fn packed_match(watched: u32, sent: u32) -> bool
    ensures { result ≡ packed_match watched sent }
{
    if sent / 16384 == 0 {
        return sent == 0;
    }
    packed_by_parts(watched, sent)
}

// Whether a packed place matches at least one of some packed places. One look at each, up to the first that matches. Its own test is all that
// tells it from `matches_some`.
pub fn packed_match_some(watched: u32, sent: &[u32]) -> bool
    ensures { PackedMatchSomePromise watched sent.now result }
{
    sent.iter().any(|place| packed_match(watched, *place))
}
