// The numbers of a stored table of either form, read with no trust in its trailer.
ghost use Rattle.std.specs.Prelude.{◌≤◌};

use super::Row;

// The byte at a place.
fn byte_at(bytes: &[u8], at: usize) -> u8 {
    bytes.get(at).copied().unwrap_or(0)
}

// Two bytes and four, little-endian.
fn two_at(bytes: &[u8], at: usize) -> u16 {
    u16::from_le_bytes([byte_at(bytes, at), byte_at(bytes, at.wrapping_add(1))])
}

fn four_at(bytes: &[u8], at: usize) -> u32 {
    u32::from(two_at(bytes, at)) + 65536 * u32::from(two_at(bytes, at.wrapping_add(2)))
}

// The place `back` bytes before the end; beyond the end where there are fewer bytes.
fn from_end(bytes: &[u8], back: usize) -> usize {
    bytes.len().checked_sub(back).unwrap_or(bytes.len())
}

// What the trailer says: how far from the end the records begin, and how many there are.
pub fn distance(bytes: &[u8]) -> u64 {
    u64::from(four_at(bytes, from_end(bytes, 8)))
}

pub fn object_count(bytes: &[u8]) -> u64 {
    u64::from(two_at(bytes, from_end(bytes, 4)))
}

// Whether the mark is that of form two, whose records end with a first release.
fn has_firsts(bytes: &[u8]) -> bool {
    bytes.ends_with(b"M2")
}

// The bytes of one record, and the least that the counted records and the trailer take.
pub fn record_size(bytes: &[u8]) -> u64
    ensures { result ≤ 16 }
{
    if has_firsts(bytes) { 16 } else { 12 }
}

pub fn needed(bytes: &[u8]) -> u64 {
    8 + record_size(bytes) * u64::from(two_at(bytes, from_end(bytes, 4)))
}

// Where the record at a place begins; beyond the end where no table has such a place.
fn record_at(bytes: &[u8], place: usize) -> usize {
    if place < 64 {
        let start = from_end(bytes, distance(bytes) as usize);
        start.wrapping_add(record_size(bytes) as usize * place)
    } else {
        bytes.len()
    }
}

// The first release of the record that begins at `at`; 0 where records have none.
fn first_at(bytes: &[u8], at: usize) -> u32 {
    if has_firsts(bytes) {
        four_at(bytes, at.wrapping_add(12))
    } else {
        0
    }
}

// The record at a place. Its spare field has the hold less one.
pub(crate) fn row(bytes: &[u8], place: usize) -> Row {
    let at = record_at(bytes, place);
    let less_one = two_at(bytes, at.wrapping_add(2));
    Row {
        id: u64::from(two_at(bytes, at)),
        cost: u64::from(four_at(bytes, at.wrapping_add(4))),
        validity: u64::from(four_at(bytes, at.wrapping_add(8))),
        hold: u64::from(less_one) + 1,
        first: u64::from(first_at(bytes, at)),
    }
}
