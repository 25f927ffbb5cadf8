// Numbers of two and of four bytes, the low byte first: read from bytes, and put into a buffer. Two functions each way, since the library
// has `from_le_bytes` and `to_le_bytes` for each type.
ghost use Rattle.std.specs.Prelude.{◌≡◌, ◌+◌, ◌≤◌, length};
ghost use Rattle.std.proofs.lemmas.List.Edits.{sets};
ghost use Rattle.rules.specs.StoredTable.{le16, le32};
ghost use Rattle.rules.specs.Writing.{bytes16, bytes32};

// The two bytes at `at`.
pub(crate) fn read16(bytes: &[u8], at: usize) -> u16
    requires { at + 2 ≤ length bytes.now }
    ensures { result ≡ le16 bytes.now at }
{
    u16::from_le_bytes([bytes[at], bytes[at + 1]])
}

// The four bytes at `at`.
pub(crate) fn read32(bytes: &[u8], at: usize) -> u32
    requires { at + 4 ≤ length bytes.now }
    ensures { result ≡ le32 bytes.now at }
{
    u32::from_le_bytes([bytes[at], bytes[at + 1], bytes[at + 2], bytes[at + 3]])
}

// Two bytes at `at`.
pub(crate) fn put16(buffer: &mut [u8], at: usize, x: u16)
    requires { at + 2 ≤ length buffer.old }
    ensures { buffer.new ≡ sets buffer.old at (bytes16 x) }
{
    buffer[at..at + 2].copy_from_slice(&x.to_le_bytes());
}

// Four bytes at `at`.
pub(crate) fn put32(buffer: &mut [u8], at: usize, x: u32)
    requires { at + 4 ≤ length buffer.old }
    ensures { buffer.new ≡ sets buffer.old at (bytes32 x) }
{
    buffer[at..at + 4].copy_from_slice(&x.to_le_bytes());
}
