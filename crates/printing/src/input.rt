// What came in on standard input.
ghost use Rattle.std.specs.Prelude.{◌≤◌, length};

// One byte more than a table or a sheet may have is enough to see that there are too many.
const MOST: usize = 4097;

// The bytes that came in, and how many they are: of a fixed length, since a library of this repository has no heap.
#[derive(Drop)]
pub struct Input {
    bytes: [u8; MOST],
    count: usize,
    ghost within: { count ≤ 4097 },
}

impl Input {
    // The bytes of standard input, up to its end or to the most that is looked at.
    pub fn read() -> Input {
        let mut bytes = [0u8; MOST];
        let count = io::read_full(0, &mut bytes);
        Input { bytes, count }
    }

    pub fn bytes(&self) -> &[u8]
        ensures { length result.now ≤ 4097 }
    {
        &self.bytes[..self.count]
    }
}
