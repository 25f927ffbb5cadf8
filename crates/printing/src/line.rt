// One line of output, made in a buffer and written as a whole. What does not fit is left out. The buffer has a fixed length, since a library of
// this repository has no heap.
ghost use Rattle.std.specs.Prelude.{◌≡◌, ◌-◌, [], ◌∷◌, replicate};
ghost use Rattle.rules.specs.Sheet.{decimal};
ghost use Rattle.printing.specs.Lines.{with_bytes, blanks, padded};

// So many bytes a line has, its end among them.
const WIDTH: usize = 160;

// The bytes, and where the next one goes.
#[derive(Drop)]
pub struct Line {
    bytes: [u8; WIDTH],
    at: usize,
}

impl Line {
    // The line with nothing in it yet.
    pub fn new() -> Line
        ensures { result ≡ record { bytes = replicate 160 32; at = 0 } }
    {
        Line {
            bytes: [b' '; WIDTH],
            at: 0,
        }
    }

    // One byte.
    pub fn put(&mut self, byte: u8)
        ensures { self.new ≡ with_bytes self.old (byte ∷ []) }
    {
        if self.at < WIDTH {
            self.bytes[self.at] = byte;
            self.at += 1;
        }
    }

    // The bytes as they are.
    pub fn text(&mut self, text: &[u8])
        ensures { self.new ≡ with_bytes self.old text.now }
    {
        for byte in text {
            self.put(*byte);
        }
    }

    // Blanks.
    pub fn blanks(&mut self, count: usize)
        ensures { self.new ≡ with_bytes self.old (blanks count) }
    {
        for _ in 0..count {
            self.put(b' ');
        }
    }

    // Blanks up to a column.
    pub fn blanks_to(&mut self, column: usize)
        ensures { self.new ≡ with_bytes self.old (blanks (column - self.old.at)) }
    {
        self.blanks(column.saturating_sub(self.at));
    }

    // The number in decimal digits.
    pub fn number(&mut self, n: u64)
        ensures { self.new ≡ with_bytes self.old (decimal n) }
    {
        self.padded(n, 0);
    }

    // The number at the right end of `width` columns.
    pub fn padded(&mut self, n: u64, width: usize)
        ensures { self.new ≡ with_bytes self.old (padded n width) }
    {
        let mut digits = [0u8; 20];
        let k = io::decimal(n, &mut digits);
        self.blanks(width.saturating_sub(k));
        self.text(&digits[..k]);
    }

    // Ends the line, with no blanks before its end, and writes it. The place is within the line, which the struct cannot say of itself: a
    // ghost field would import `Lines`, which names the struct.
    pub fn end(mut self, rt: &impl Print) -> std::io::Result<()> {
        let used = &self.bytes[..self.at.min(WIDTH)];
        self.at = used
            .iter()
            .rposition(|byte| *byte != b' ')
            .map_or(0, |last| last + 1);
        self.put(b'\n');
        rt.write_all(&self.bytes[..self.at.min(WIDTH)])
    }
}
