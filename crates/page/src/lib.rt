// The report program as a function on bytes: an input's lines to the printed page.
#![tactic(auto)]

ghost use Rattle.std.specs.Prelude.{◌≡◌, ◌≤◌, length, drop};
ghost use Rattle.input_lines.specs.Lines.{pieces};
ghost use Rattle.input_lines.specs.Forms.{sub_line};
ghost use Rattle.input_lines.specs.LineByLine.{each_line};
ghost use Rattle.book_rules.specs.Rules.{empty};
ghost use Rattle.page_printing.specs.Promise.{PrintPromise};
ghost use Rattle.page.specs.Input.{adds_line, hit_room, report_shows};
ghost use Rattle.page.specs.Page.{printed};
ghost use Rattle.page.specs.Promise.{PagePromise};
ghost use Rattle.page.specs.Steps.{three_say, HeaderIn, ThreeOf, GatheredOf, booked};

use clock::Clock;
use refusals::Refusal;

// The clock, the client, and where the header's bytes start and end.
#[derive(Clone, Copy)]
struct Three {
    at: Clock,
    client: u32,
    from: usize,
    to: usize,
}

// The first three lines.
fn three_lines(input: &[u8]) -> Result<Three, Refusal>
    ensures { ThreeOf input.now result }
{
    let (at, next) = input_lines::now_line(input, 0)?;
    let (client, next) = input_lines::client_line(input, next)?;
    let (header, _) = input_lines::header_line(input, next)?;
    Ok(Three {
        at,
        client,
        from: header.from,
        to: header.to,
    })
}

// The items of the `sub=` lines from index at on, up to the first that is malformed: how many, and whether that stands behind them.
// One item more than a book can hold is enough: the load refuses one of them, and what follows has no say. So an array holds them, and
// no heap is needed.
fn gather(input: &[u8], at: usize, items: &mut [[u32; 3]; 4097]) -> (usize, Result<(), Refusal>)
    requires { at ≤ length input.now }
    ensures { GatheredOf input.now at result items.new }
{
    let mut i = at;
    for count in 0..4097 {
        if i == input.len() {
            return (count, Ok(()));
        }
        let (sub, next) = match input_lines::sub_line(input, i) {
            Ok(line) => line,
            Err(e) => return (count, Err(e)),
        };
        items[count] = [sub.place, sub.client, sub.wish];
        i = next;
    }
    (4097, Ok(()))
}

// Adds the `sub=` lines from index at on to an empty book. One load builds it, so that the book is not checked at every line.
fn add_subs(input: &[u8], at: usize, book: &mut [u32]) -> Result<(), Refusal>
    requires { (at ≤ length input.now) × (book.old ≡ empty) }
    ensures { booked result book.new ≡ each_line sub_line adds_line empty (pieces (drop at input.now)) }
{
    let mut items = [[0u32; 3]; 4097];
    let (count, ended) = gather(input, at, &mut items);
    book_loads::load(book, items[..count].as_flattened())?;
    ended
}

// The report, and what is printed of it, with words lent for the hits.
fn print_report(
    book: &[u32],
    client: u32,
    header: &[u8],
    at: Clock,
    hits: &mut [u32],
    out: &mut [u8],
) -> Result<usize, Refusal>
    requires { length hits.old ≡ hit_room }
    ensures { PrintPromise (printed (report_shows book.now client header.now at)) out.old result out.new }
{
    match report::report(book, client, header, at, hits) {
        Ok(s) => {
            let hits = &hits[..2 * s.hits];
            page_printing::print_page(out, client, s.times, &s.event, s.listed, s.class, hits)
        }
        Err(e) => page_printing::print_refusal(out, e.number()),
    }
}

// The same, with room for the hits of a full book: an array and their number, since the library has no heap. It is a function of its
// own, so that this array and those that built the book are never there at once.
fn finish(
    book: &[u32],
    client: u32,
    header: &[u8],
    at: Clock,
    out: &mut [u8],
) -> Result<usize, Refusal>
    ensures { PrintPromise (printed (report_shows book.now client header.now at)) out.old result out.new }
{
    let mut hits = [0u32; 8192];
    print_report(book, client, header, at, &mut hits, out)
}

// The page of an input whose first three lines are read: its `sub=` lines are added to an empty book, then comes the report.
fn page_of(input: &[u8], three: Three, out: &mut [u8]) -> Result<usize, Refusal>
    requires { HeaderIn input.now three }
    ensures { PrintPromise (printed (three_say input.now three)) out.old result out.new }
{
    let mut book = [0u32; 8293];
    match add_subs(input, three.to + 1, &mut book) {
        Ok(()) => finish(
            &book,
            three.client,
            &input[three.from..three.to],
            three.at,
            out,
        ),
        Err(e) => page_printing::print_refusal(out, e.number()),
    }
}

// The page of an input, printed to the front of out; or 13, and nothing is written.
pub fn page(input: &[u8], out: &mut [u8]) -> Result<usize, Refusal>
    ensures { PagePromise input.now out.old result out.new }
{
    match three_lines(input) {
        Ok(three) => page_of(input, three, out),
        Err(malformed) => page_printing::print_refusal(out, malformed.number()),
    }
}
