// The lines of a sheet and the numbers in one. Lines count from 0 and end with LF, whatever stands before it.
use super::Row;

// How many lines there are, a last one without its end among them.
pub fn line_count(bytes: &[u8]) -> u64 {
    bytes.split_inclusive(|byte| *byte == b'\n').count() as u64
}

// A line with its end; no bytes where there are fewer lines.
pub(crate) fn line_at(bytes: &[u8], line: usize) -> &[u8] {
    bytes
        .split_inclusive(|byte| *byte == b'\n')
        .nth(line)
        .unwrap_or(&[])
}

// The number with one more digit; a number of more than 15 digits is not followed.
fn digit_more(number: u64, digit: &u8) -> u64 {
    if number < 1000000000000000 && digit.is_ascii_digit() {
        10 * number + u64::from(*digit - b'0')
    } else {
        number
    }
}

// The number that the digits of a field make.
fn number_in(field: &[u8]) -> u64 {
    field.iter().fold(0, digit_more)
}

// The numbers of a line, which are those of its first four fields.
pub(crate) fn row(bytes: &[u8], line: usize) -> Row {
    let mut numbers = line_at(bytes, line)
        .split(|byte| *byte == b',')
        .map(number_in);
    Row {
        id: numbers.next().unwrap_or(0),
        cost: numbers.next().unwrap_or(0),
        validity: numbers.next().unwrap_or(0),
        hold: numbers.next().unwrap_or(0),
        first: 0,
    }
}
