// Judges framed requests from standard input to its end: a frame is the file's length, four bytes
// and the lowest first, then that many bytes. Each gives a line `answer place steps column`.
//
// A frame has at most 70,000 bytes, and the gate is handed at most 65,537 of them: one more than a
// request may have tells it enough. A longer frame, or one that the input's end cuts short, ends the
// program with no line for it.
#![tactic(auto)]

ghost use Rattle.std.specs.Prelude.{◌≡◌, ℕ, ◌++◌, List, length, IfOk};
ghost use Rattle.std.specs.Int.{w32, from_le_bytes};
ghost use Rattle.std.specs.Io.KnownBytes.{Consumes};

use std::io;
use std::io::{ErrorKind, Read};

const LONGEST_FRAME: usize = 70_000;

const MOST_KEPT: usize = 65_537;

// Reads a frame; an error where the input ends before it does, or the room is too small for it.
fn read_frame<'a, R: Read>(from: &mut R, room: &'a mut [u8]) -> io::Result<&'a [u8]>
    ensures { IfOk result (λ frame. (head : List ℕ) × (length head ≡ 4) × (from_le_bytes w32 head ≡ length frame.now)
        × Consumes (R.remaining from.old) (R.remaining from.new) (head ++ frame.now)) }
{
    let mut head = [0u8; 4];
    from.read_exact(&mut head)?;
    let size = u32::from_le_bytes(head) as usize;
    let frame = room.get_mut(..size).ok_or(ErrorKind::InvalidData)?;
    from.read_exact(frame)?;
    Ok(frame)
}

// Reads a frame and prints its answer; an error where there is no further frame, or no line was written.
fn answer_next(from: &mut impl Read, to: &impl Print, room: &mut [u8]) -> io::Result<()> {
    let frame = read_frame(from, room)?;
    let printed = gatelib::gate(frame.get(..MOST_KEPT).unwrap_or(frame));
    println!(to;
        "{} {} {} {}",
        printed.answer, printed.place, printed.steps, printed.column
    )
}

// A proved loop has to end, and nothing says that the input does: no run uses up so many turns.
fn main(rt: HostRuntime) {
    let mut input = rt.stdin();
    let mut room = [0u8; LONGEST_FRAME];
    for _ in 0..u64::MAX {
        if answer_next(&mut input, &rt, &mut room).is_err() {
            return;
        }
    }
}
