// The gate program: the request on standard input is judged, and the refusal number, the place, the
// steps read and the column are printed.
#![tactic(auto)]

mod shown;

ghost use Rattle.std.specs.Prelude.{ℕ, ◌<◌, length, take, IfSome, IfOk, OnErr};
ghost use Rattle.std.specs.Io.KnownBytes.{Consumes, IsAtEnd};
ghost use Rattle.std.specs.Counts.{IsPrefixLen};
ghost use Rattle.gate.specs.Answered.{Answered};

use std::io;
use std::io::Read;

fn main(rt: HostRuntime) {
    let mut room = [0u8; 128];
    let Ok(text) = answer(&mut rt.stdin(), &mut room) else {
        // A part of a request is not the request, so there is no answer to print.
        let _ = eprintln!(rt; "gate: standard input cannot be read");
        return;
    };
    if rt.write_all(text).is_err() {
        // An answer that arrives in part, or not at all, is no answer.
        let _ = eprintln!(rt; "gate: the answer cannot be written to standard output");
    }
}

// Puts the answer to the request that is read at the start of the room, and gives it; an error where the input cannot be read.
fn answer<'a, R: Read>(from: &mut R, room: &'a mut [u8; 128]) -> io::Result<&'a [u8]>
    ensures { IfOk result (λ text. IfSome (R.remaining from.old) (λ file. Answered file text.now)) }
{
    // One byte past the longest file tells that a file is longer, however long it is.
    let mut file = [0u8; 65537];
    let length = read_input(from, &mut file)?;
    let printed = gatelib::gate(&file[..length]);
    Ok(shown::put_printed(printed, room))
}

// Reads until the input ends or the file is full, and answers how many bytes that were. A read that fails is not the input's
// end. A loop, since std's `read_to_end` needs a heap and its `read_exact` does not say how much it read.
fn read_input<R: Read>(from: &mut R, file: &mut [u8]) -> io::Result<usize>
    ensures prefix_len { IfOk result (λ n. IsPrefixLen n file.new) }
    ensures consumed { IfOk result (λ n. Consumes (R.remaining from.old) (R.remaining from.new) (take n file.new)) }
    ensures whole { IfOk result (λ n. n < length file.new → IsAtEnd (R.remaining from.new)) }
    ensures failed { OnErr result ((n : ℕ) × IsPrefixLen n file.new × Consumes (R.remaining from.old) (R.remaining from.new) (take n file.new)) }
{
    let mut length = 0;
    while length < file.len() {
        let more = from.read(&mut file[length..])?;
        if more == 0 {
            return Ok(length);
        }
        length += more;
    }
    Ok(length)
}
