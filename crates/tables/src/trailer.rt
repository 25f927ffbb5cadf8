// The trailer of stored bytes: its checks, and what it says of the records where it passes them.
ghost use Rattle.std.specs.Prelude.{◌≡◌, ◌+◌, ◌*◌, ◌^◌, ◌<◌, ◌≤◌, length, Some};
ghost use Rattle.rules.specs.Answers.{checked, outcome};
ghost use Rattle.rules.specs.StoredTable.{record_size, form_of, size_verdict, trailer_verdict};
ghost use Rattle.tables.specs.Records.{records_in};

use super::forms::{MARK_ONE, MARK_TWO, TRAILER, record_size, records_size};
use super::numbers::{read16, read32};
use rules::{Form, ROWS, Refusal, Refused};

// The most bytes that a stored table may have.
const MOST_BYTES: usize = 4096;

// Where the records of stored bytes lie: their form, where the first begins, and how many they are.
#[derive(Clone, Copy)]
pub(crate) struct Records {
    pub(crate) form: Form,
    pub(crate) start: usize,
    pub(crate) count: usize,
}

impl Records {
    // Where record `i` begins.
    pub(crate) fn place(self, i: usize) -> usize
        requires { self.start + record_size (Some self.form) * i < 2 ^ 64 }
        ensures { result ≡ self.start + record_size (Some self.form) * i }
    {
        self.start + record_size(self.form) * i
    }
}

// Checks 1 and 2: how many bytes there are.
pub(crate) fn check_size(bytes: &[u8]) -> Result<(), Refused>
    ensures { result ≡ checked (size_verdict bytes.now) }
{
    if bytes.len() < TRAILER {
        return Err(Refusal::TooShort.at(0));
    }
    if MOST_BYTES < bytes.len() {
        return Err(Refusal::TooLong.at(0));
    }
    Ok(())
}

// The form that the mark, the last two bytes, is of.
pub(crate) fn form_of(bytes: &[u8]) -> Option<Form>
    requires { 2 ≤ length bytes.now }
    ensures { result ≡ form_of bytes.now }
{
    match read16(bytes, bytes.len() - 2) {
        MARK_ONE => Some(Form::One),
        MARK_TWO => Some(Form::Two),
        _ => None,
    }
}

// Checks 1 to 5 and 15: the trailer, and the records that it points at.
pub(crate) fn read_trailer(bytes: &[u8]) -> Result<Records, Refused>
    ensures { result ≡ outcome (trailer_verdict bytes.now) (records_in bytes.now) }
{
    check_size(bytes)?;
    let Some(form) = form_of(bytes) else {
        return Err(Refusal::WrongMark.at(0));
    };
    let size = bytes.len();
    let count = usize::from(read16(bytes, size - 4));
    if count < 1 || ROWS < count {
        return Err(Refusal::CountRange.at(0));
    }
    let distance = read32(bytes, size - 8) as usize;
    if distance < TRAILER + records_size(form, count) {
        return Err(Refusal::DistanceSmall.at(0));
    }
    if size < distance {
        return Err(Refusal::DistanceLarge.at(0));
    }
    Ok(Records {
        form,
        start: size - distance,
        count,
    })
}
