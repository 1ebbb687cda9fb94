// The text that the program prints, made in full before any of it is written.
ghost use Rattle.std.specs.Prelude.{◌+◌, ◌≤◌, ◌≡◌, ◌++◌, length, take};
ghost use Rattle.gate.specs.Shown.{Longer, Shown};

// Puts the four lines at the start of the room, and answers them.
pub(crate) fn put_printed(printed: gatelib::Printed, room: &mut [u8; 128]) -> &[u8]
    ensures { Shown printed.answer printed.place printed.steps printed.column result.now }
{
    let answer = u64::from(printed.answer);
    let place = u64::from(printed.place);
    let steps = u64::from(printed.steps);
    let column = u64::from(printed.column);
    let first = put_line(b"answer=", answer, room, 0);
    let second = put_line(b"place=", place, room, first);
    let third = put_line(b"steps=", steps, room, second);
    let fourth = put_line(b"column=", column, room, third);
    &room[..fourth]
}

// Puts a line into the text from `at` on, and answers where it ends. By hand, since std's `write!` into lent memory promises
// neither that a line fits nor its bytes, and a `String` needs a heap.
fn put_line(key: &[u8], number: u64, text: &mut [u8], at: usize) -> usize
    requires { at + length key.now + 21 ≤ length text.old }
    ensures upper_bound { result ≤ at + length key.now + 21 }
    ensures longer { Longer (take at text.old) key.now number (take result text.new) }
{
    let mut digits = [0u8; 20];
    let places = io::decimal(number, &mut digits);
    let after_key = put_bytes(key, text, at);
    let after_number = put_bytes(&digits[..places], text, after_key);
    put_bytes(b"\n", text, after_number)
}

// Puts bytes into the text from `at` on, and answers where they end.
fn put_bytes(bytes: &[u8], text: &mut [u8], at: usize) -> usize
    requires { at + length bytes.now ≤ length text.old }
    ensures value { result ≡ at + length bytes.now }
    ensures text_after { take result text.new ≡ take at text.old ++ bytes.now }
{
    let end = at + bytes.len();
    text[at..end].copy_from_slice(bytes);
    end
}
