// The report program: reads standard input, and writes its page. Where a read fails there is no page, and where a write fails the page
// is not whole; either is said on standard error. An input's page is that of its first 98,304 bytes, and no page is longer than 57,446
// bytes, so neither space is ever too small.
#![tactic(auto)]

ghost use Rattle.std.specs.Prelude.{OnOk};
ghost use Rattle.std.specs.Io.KnownBytes.{Appends};
ghost use Rattle.page.specs.Page.{page_of};

use std::io;
use std::io::Write;

// Writes an input's page. There is always room for it, in space of a fixed size, which is not taken from a heap.
fn write_page<W: Write>(out: &mut W, input: &[u8]) -> io::Result<()>
    ensures { OnOk result (Appends (W.contents out.old) (W.contents out.new) (page_of input.now)) }
{
    let mut space = [0u8; 57446];
    let n = page::page(input, &mut space).unwrap();
    out.write_all(&space[..n])
}

fn say<W: Write>(out: &mut W, text: &[u8]) {
    let _ = out.write_all(text);
}

fn main(rt: HostRuntime) {
    let mut space = [0u8; 98304];
    let Ok(n) = reading::read_input(&mut rt.stdin(), &mut space) else {
        say(
            &mut rt.stderr(),
            b"report: standard input could not be read, so no page is printed\n",
        );
        return;
    };
    if write_page(&mut rt.stdout(), &space[..n]).is_err() {
        say(
            &mut rt.stderr(),
            b"report: the page could not be written whole\n",
        );
    }
}
