// Reads a whole input into lent space.
#![tactic(auto)]

ghost use Rattle.std.specs.Prelude.{◌≡◌};
ghost use Rattle.reading.specs.Reading.{after_read};
ghost use Rattle.reading.specs.Promise.{ReadInputPromise};

use std::io;
use std::io::Read;
use std::ops::ControlFlow;

// What the answer to a read means, after n bytes. A read that failed is no end of the input: its error is handed on.
fn took(n: usize, got: io::Result<usize>) -> ControlFlow<io::Result<usize>, usize>
    ensures { result ≡ after_read n got }
{
    match got {
        Ok(0) => ControlFlow::Break(Ok(n)),
        Ok(k) => ControlFlow::Continue(k),
        Err(e) => ControlFlow::Break(Err(e)),
    }
}

/// Reads until the input ends or the space is full, and says how many bytes were read. A read that fails is no end of the input: its error is
/// handed on. A `while`, since no call of the library fills lent space and says how far it came.
pub fn read_input<R: Read>(input: &mut R, space: &mut [u8]) -> io::Result<usize>
    ensures { ReadInputPromise (R.remaining input.old) (R.remaining input.new) space.old space.new result }
{
    let mut n: usize = 0;
    while n < space.len() {
        match took(n, input.read(&mut space[n..])) {
            ControlFlow::Continue(k) => n += k,
            ControlFlow::Break(answer) => return answer,
        }
    }
    Ok(n)
}
