// The C library's archive: the calls of crate same, exported under their names. Each hands its arguments on, and promises what same's
// call does: an exported name stands in the archive's own crate, so each has its twin there. include/same.h says each for C.
#![tactic(auto)]

ghost use Rattle.c_words.specs.Promise.{ReadWordsPromise, WriteWordsPromise, ReportWordsPromise};
ghost use Rattle.same.specs.Promise.{SameStripPromise, SameVotePromise, SameListedPromise, SameClassPromise, SameMatchesPromise, SameGoodPromise, SameAddPromise, SameRemovePromise, SameLoadPromise, SamePagePromise};

use same::SameVoted;

// ---- bursts

// How many bytes the stripping drops, 0 to 16.
#[unsafe(no_mangle)]
pub extern "C" fn same_strip(burst: &[u8]) -> u64
    ensures { SameStripPromise burst.now result }
{
    same::same_strip(burst)
}

// The vote on three received bursts: the length of the text, which stands at the front; or 1, 2, 4, 13 or 3, and nothing is written.
// Each burst's number of dropped bytes goes with it, also beside a refusal.
#[unsafe(no_mangle)]
pub extern "C" fn same_vote(a: &[u8], b: &[u8], c: &[u8], out: &mut [u8]) -> SameVoted
    ensures { SameVotePromise a.now b.now c.now out.old result out.new }
{
    same::same_vote(a, b, c, out)
}

// ---- header texts

// Reads a header text into its fields, as read_words says.
#[unsafe(no_mangle)]
pub extern "C" fn same_read(text: &[u8], fields: &mut [u32]) -> u64
    ensures { ReadWordsPromise text.now fields.old result fields.new }
{
    same::same_read(text, fields)
}

// Writes a header text from its fields, as write_words says.
#[unsafe(no_mangle)]
pub extern "C" fn same_write(fields: &[u32], out: &mut [u8]) -> u64
    ensures { WriteWordsPromise fields.now out.old result out.new }
{
    same::same_write(fields, out)
}

// ---- events and places

// 1 if three bytes are a listed event code, else 0.
#[unsafe(no_mangle)]
pub extern "C" fn same_listed(first: u8, second: u8, third: u8) -> u32
    ensures { SameListedPromise first second third result }
{
    same::same_listed(first, second, third)
}

// The class of the event of three bytes.
#[unsafe(no_mangle)]
pub extern "C" fn same_class(first: u8, second: u8, third: u8) -> u32
    ensures { SameClassPromise first second third result }
{
    same::same_class(first, second, third)
}

// 1 if a watched place matches a place sent, else 0.
#[unsafe(no_mangle)]
pub extern "C" fn same_matches(watched: u32, sent: u32) -> u32
    ensures { SameMatchesPromise watched sent result }
{
    same::same_matches(watched, sent)
}

// ---- the book

// 0 where the words are a book that keeps every rule, else 16.
#[unsafe(no_mangle)]
pub extern "C" fn same_good(book: &[u32]) -> u64
    ensures { SameGoodPromise book.now result }
{
    same::same_good(book)
}

// Adds one subscription, or says 16, 17, 18, 19, 20 or 22 and writes nothing.
#[unsafe(no_mangle)]
pub extern "C" fn same_add(book: &mut [u32], place: u32, client: u32, wish: u32) -> u64
    ensures { SameAddPromise book.old place client wish result book.new }
{
    same::same_add(book, place, client, wish)
}

// Removes one subscription, or says 16, 17, 18 or 21 and writes nothing.
#[unsafe(no_mangle)]
pub extern "C" fn same_remove(book: &mut [u32], place: u32, client: u32) -> u64
    ensures { SameRemovePromise book.old place client result book.new }
{
    same::same_remove(book, place, client)
}

// Builds the book afresh from items of three words, or says 16 or the first refusal and writes nothing.
#[unsafe(no_mangle)]
pub extern "C" fn same_load(book: &mut [u32], items: &[u32]) -> u64
    ensures { SameLoadPromise book.old items.now result book.new }
{
    same::same_load(book, items)
}

// ---- the report

// One client's report on a header, by a clock of four numbers, as report_words says.
#[unsafe(no_mangle)]
pub extern "C" fn same_report(
    book: &[u32],
    client: u32,
    header: &[u8],
    year: u32,
    day: u32,
    hour: u32,
    minute: u32,
    summary: &mut [u32],
    hits: &mut [u32],
) -> u64
    ensures { ReportWordsPromise book.now client header.now (record { year = year; day = day; hour = hour; minute = minute }) summary.old hits.old result summary.new hits.new }
{
    same::same_report(book, client, header, year, day, hour, minute, summary, hits)
}

// ---- the program

// The length of the page of the report program's input, which stands at the front; or 13, and nothing is written.
#[unsafe(no_mangle)]
pub extern "C" fn same_page(input: &[u8], out: &mut [u8]) -> u64
    ensures { SamePagePromise input.now out.old result out.new }
{
    same::same_page(input, out)
}
