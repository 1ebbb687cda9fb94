// The bytes of the output, and how many of them the text takes so far. A byte is stored only where there is one, and the place counts on
// all the same.
ghost use Rattle.std.specs.Prelude.{true, ◌≡◌, [], ◌∷◌, ◌<◌, ◌≤◌, length};
ghost use Rattle.scope.specs.File.Number.{numeral};
ghost use Rattle.scope.specs.File.Line.{line_text};
ghost use Rattle.scope.specs.File.Kinds.{logic_of, row_text};
ghost use Rattle.scope.specs.File.Text.{logic_line};
ghost use Rattle.common.specs.Kinds.{listed};
ghost use Rattle.common.specs.Rows.{as_row};
ghost use Rattle.writer.specs.Wrote.{Wrote};
ghost use Rattle.writer.specs.Lines.{digit_at, count_line, kinds_line, operand_text, operands_text, are_short};

use common::Row;
use common::kinds::Kind;

#[derive(Drop)]
pub(crate) struct Output<'a> {
    pub(crate) bytes: &'a mut [u8],
    pub(crate) at: usize,
}

// How far the place may be differs from line to line, by how long the line may get: no one bound of the type says it. Each method is inlined
// where the output is made, so that its place stands in a register: in memory, each byte that is stored might be the place's.
impl Output<'_> {
    // A byte is put as a text of one.
    #[inline(always)]
    fn put_byte(&mut self, byte: u8)
        requires { self.old.at < 10000000 }
        ensures { Wrote self.old (byte ∷ []) 1 self.new }
    {
        common::put_bytes(self.bytes, self.at, &[byte]);
        self.at += 1;
    }

    // Words are short: byte by byte, so that what is asked before a text is asked of a constant length.
    #[inline(always)]
    fn put_bytes(&mut self, text: &[u8])
        requires at { self.old.at < 9990000 }
        requires short { length text.now ≤ 16 }
        ensures { Wrote self.old text.now 16 self.new }
    {
        for &byte in text {
            self.put_byte(byte);
        }
    }

    // The digit at a place, where the number reaches so far.
    #[inline(always)]
    fn put_place(&mut self, n: u16, place: u16)
        requires at { self.old.at < 10000000 }
        requires positive { 0 < place }
        ensures { Wrote self.old (digit_at place n) 1 self.new }
    {
        if place <= n {
            self.put_byte(b'0' + (n / place % 10) as u8);
        }
    }

    // From the first digit on, each into its final byte.
    #[inline(always)]
    fn put_number(&mut self, n: u16)
        requires { self.old.at < 9999996 }
        ensures { Wrote self.old (numeral n) 5 self.new }
    {
        for place in [10000, 1000, 100, 10] {
            self.put_place(n, place);
        }
        self.put_byte(b'0' + (n % 10) as u8);
    }

    // A line whose value is a number.
    #[inline(always)]
    pub(crate) fn put_count(&mut self, key: &[u8], n: u16)
        requires at { self.old.at < 9980000 }
        requires short { length key.now ≤ 16 }
        ensures { Wrote self.old (line_text (count_line key.now) n) 22 self.new }
    {
        self.put_bytes(key);
        self.put_number(n);
        self.put_byte(b'\n');
    }

    // The line of the logic, told by a number as in other languages.
    #[inline(always)]
    pub(crate) fn put_logic(&mut self, logic: u16)
        requires { self.old.at < 9980000 }
        ensures { Wrote self.old (line_text logic_line (logic_of logic)) 16 self.new }
    {
        match logic {
            0 => self.put_bytes(b"logic=plain\n"),
            _ => self.put_bytes(b"logic=unit\n"),
        }
    }

    // An operand stands behind a space.
    #[inline(always)]
    fn put_operand(&mut self, n: u16)
        requires { self.old.at < 9990000 }
        ensures { Wrote self.old (operand_text n) 6 self.new }
    {
        self.put_byte(b' ');
        self.put_number(n);
    }

    // As many of a row's operands as its kind has.
    #[inline(always)]
    fn put_operands(&mut self, count: usize, row: Row)
        requires { self.old.at < 9980100 }
        ensures { Wrote self.old (operands_text count row.left row.right) 12 self.new }
    {
        match count {
            0 => {}
            1 => self.put_operand(row.left),
            _ => {
                self.put_operand(row.left);
                self.put_operand(row.right);
            }
        }
    }

    // A kind's word and its operands: a number that no kind has stands for no word and no operand.
    #[inline(always)]
    fn put_items(&mut self, kinds: &[Kind], row: Row)
        requires at { self.old.at < 9980000 }
        requires short { are_short (listed kinds.now) ≡ true }
        ensures { Wrote self.old (row_text (listed kinds.now) (as_row row)) 28 self.new }
    {
        match kinds.get(usize::from(row.kind)) {
            None => {}
            Some(kind) => {
                self.put_bytes(kind.word);
                self.put_operands(kind.operands.len(), row);
            }
        }
    }

    // A line whose value is a row of these kinds.
    #[inline(always)]
    pub(crate) fn put_row(&mut self, key: &[u8], kinds: &[Kind], row: Row)
        requires at { self.old.at < 9970000 }
        requires key_short { length key.now ≤ 16 }
        requires words_short { are_short (listed kinds.now) ≡ true }
        ensures { Wrote self.old (line_text (kinds_line key.now (listed kinds.now)) (as_row row)) 45 self.new }
    {
        self.put_bytes(key);
        self.put_items(kinds, row);
        self.put_byte(b'\n');
    }
}
