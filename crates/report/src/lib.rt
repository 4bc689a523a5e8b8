// One client's report over a book, a header text and a clock.
#![tactic(auto)]

ghost use Rattle.std.specs.Prelude.{◌≡◌, true, not, ltb, eqb, ◌+◌, ◌-◌, ◌*◌, ◌<◌, ◌≤◌, length, [], ◌∷◌, count_by};
ghost use Rattle.laws.specs.Lists.{tally, one};
ghost use Rattle.header.specs.Answers.{alert_in};
ghost use Rattle.book_rules.specs.Form.{form};
ghost use Rattle.book_rules.specs.Rules.{good, recs};
ghost use Rattle.book_rules.specs.Afresh.{subs};
ghost use Rattle.report.specs.Hits.{has_class, hits_of};
ghost use Rattle.report.specs.Promise.{ReportPromise};
ghost use Rattle.report.specs.Steps.{rec, record_matches, found, hit_subs, rec_of, recs_in, hit_words, WroteHits, ListsHits, listed_class_of, TimedReport, PlacesRead, Readable, AlertReport};

use refusals::Refusal;

// What a report says of the text. `listed` stands beside the class and is no Option, since a code that is not listed has a class too; and the two
// are no struct, since the page and `summary_words` of the C interface read the fields one by one.
#[derive(Clone, Copy)]
pub struct Summary {
    pub times: clock::Times,
    pub event: [u8; 3],
    pub listed: bool,
    pub class: u32,
    pub hits: usize,
}

// ---- hits

// Whether a wish has a class: one shift.
fn has_class(wish: u32, class: u32) -> bool
    ensures { result ≡ has_class wish class }
{
    if class < 1 {
        return false;
    }
    if 6 < class {
        return false;
    }
    (wish >> (class - 1)) % 2 == 1
}

// Whose records a report lists, the class of the alert, and the places that were sent, packed.
#[derive(Clone, Copy)]
struct Wanted<'a> {
    client: u32,
    class: u32,
    sent: &'a [u32],
}

// Whether a record is this client's, by its second word: one comparison.
fn is_own(second: u32, client: u32) -> bool
    ensures { result ≡ eqb (form.who second) client }
{
    book_records::client_of(second) == client
}

// Whether a record matches, whoever's it is: its wish has the class, and its place matches one that was sent.
fn record_matches(first: u32, second: u32, wanted: Wanted<'_>) -> bool
    ensures { result ≡ record_matches wanted.entry.class wanted.entry.sent.now (rec first second) }
{
    if !has_class(book_records::wish_of(second), wanted.class) {
        return false;
    }
    place::packed_match_some(place::pack(first), wanted.sent)
}

// How many of some records are hits. The client is tested first, and once: another's record costs one look and one comparison, and no
// call.
#[tactic(auto, unfolding(crate::specs::Steps::found))]
fn count_hits(records: &[[u32; 2]], wanted: Wanted<'_>) -> usize
    ensures { result ≡ count_by (λ r. found wanted.entry.client wanted.entry.class wanted.entry.sent.now (rec_of r)) records.now }
{
    records
        .iter()
        .filter(|[first, second]| {
            is_own(*second, wanted.client) && record_matches(*first, *second, wanted)
        })
        .count()
}

// Writes the place and the wish of a record of the client at index at if it matches, and answers the index after what was written.
fn put_hit(first: u32, second: u32, wanted: Wanted<'_>, out: &mut [u32], at: usize) -> usize
    requires { at + 2 * one (record_matches wanted.class wanted.sent.now (rec first second)) ≤ length out.old }
    ensures { WroteHits out.old at (hit_words (record_matches wanted.entry.class wanted.entry.sent.now) (rec first second ∷ [])) out.new result }
{
    if !record_matches(first, second, wanted) {
        return at;
    }
    out[at] = place::place_of(first);
    out[at + 1] = book_records::wish_of(second);
    at + 2
}

// Writes the hits of some records, and answers the index after them. Another's record costs as little as in the count.
fn write_hits(records: &[[u32; 2]], wanted: Wanted<'_>, out: &mut [u32]) -> usize
    requires { 2 * tally (found wanted.client wanted.class wanted.sent.now) (recs_in records.now) ≤ length out.old }
    ensures { WroteHits out.old 0 (hit_words (found wanted.entry.client wanted.entry.class wanted.entry.sent.now) (recs_in records.now)) out.new result }
{
    let mut e = 0;
    for [first, second] in records {
        if is_own(*second, wanted.client) {
            e = put_hit(*first, *second, wanted, out, e);
        }
    }
    e
}

// A book that keeps its rules: it was checked, and need not be again.
#[derive(Clone, Copy)]
struct GoodBook<'a> {
    words: &'a [u32],
    ghost keeps: { good form words.now ≡ true },
}

impl<'a> GoodBook<'a> {
    // Its records: words 101 and on, two each, as many as word 100 says.
    fn records(self) -> &'a [[u32; 2]]
        ensures few { length result.now ≤ 4096 }
        ensures these { recs_in result.now ≡ recs self.entry.words.now }
    {
        let n = self.words[100] as usize;
        let (records, _) = self.words[101..101 + 2 * n].as_chunks::<2>();
        records
    }
}

// Whether the hits of some records find room in so many words. Where all of the records do, the hits need no count.
fn has_room(records: &[[u32; 2]], wanted: Wanted<'_>, room: usize) -> bool
    requires { length records.now ≤ 4096 }
    ensures { result ≡ not (ltb room (2 * tally (found wanted.entry.client wanted.entry.class wanted.entry.sent.now) (recs_in records.now))) }
{
    2 * records.len() <= room || 2 * count_hits(records, wanted) <= room
}

// Writes the hits where there is room for them. Too little room must write nothing, so it is asked for first: one pass over the
// records, or two, of which the first counts.
fn list_hits(book: GoodBook<'_>, wanted: Wanted<'_>, out: &mut [u32]) -> Result<usize, Refusal>
    ensures { ListsHits (hit_subs (found wanted.entry.client wanted.entry.class wanted.entry.sent.now) book.entry.words.now) out.old result out.new }
{
    let records = book.records();
    if !has_room(records, wanted, out.len()) {
        return Err(Refusal::NoRoom);
    }
    Ok(write_hits(records, wanted, out) / 2)
}

// ---- the report

// Whether an event is listed, and its class: one search.
fn listed_class_of(event: &[u8; 3]) -> event::ListedClass
    ensures { result ≡ listed_class_of event.now }
{
    event::listed_class(event[0], event[1], event[2])
}

// A report once its times are known.
fn timed_report(
    book: GoodBook<'_>,
    client: u32,
    f: header::Fields,
    times: clock::Times,
    out: &mut [u32],
) -> Result<Summary, Refusal>
    requires { PlacesRead f }
    ensures { TimedReport times (alert_in f) (hits_of client (alert_in f) (subs form book.entry.words.now)) out.old result out.new }
{
    let kind = listed_class_of(&f.event);
    let mut places = f.places;
    let n = f.count;
    place::pack_places(&mut places[..n]);
    let wanted = Wanted {
        client,
        class: kind.class,
        sent: &places[..n],
    };
    let hits = list_hits(book, wanted, out)?;
    Ok(Summary {
        times,
        event: f.event,
        listed: kind.listed,
        class: kind.class,
        hits,
    })
}

// A report on an alert that was read.
fn alert_report(
    book: GoodBook<'_>,
    client: u32,
    f: header::Fields,
    at: clock::Clock,
    out: &mut [u32],
) -> Result<Summary, Refusal>
    requires { Readable f }
    ensures { AlertReport at (alert_in f) (hits_of client (alert_in f) (subs form book.entry.words.now)) out.old result out.new }
{
    let times = clock::times_of(at, f.day, f.hour, f.minute, f.duration)?;
    timed_report(book, client, f, times, out)
}

// One client's report: the summary, and the hits written as pairs of place and wish; or a refusal, and nothing is written. One
// check of the book, one reading of the header, and one or two passes of list_hits.
pub fn report(
    book: &[u32],
    client: u32,
    header: &[u8],
    at: clock::Clock,
    out: &mut [u32],
) -> Result<Summary, Refusal>
    ensures { ReportPromise book.now client header.now at out.old result out.new }
{
    if !book_check::is_good(book) {
        return Err(Refusal::BadBook);
    }
    let good = GoodBook { words: book };
    if book_records::bad_client(client) {
        return Err(Refusal::BadClient);
    }
    let fields = header_reading::read(header)?;
    alert_report(good, client, fields, at, out)
}
