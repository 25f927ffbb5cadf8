// The two stored forms: all that sets them apart is the mark and four more bytes to a record.
ghost use Rattle.std.specs.Prelude.{◌≡◌, ◌*◌, ◌≤◌, Some};
ghost use Rattle.rules.specs.StoredTable.{form_mark, record_size};

use rules::Form;

// The trailer's bytes, and a record's without a first release.
pub(crate) const TRAILER: usize = 8;

pub(crate) const RECORD: usize = 12;

// 4D 4C and 4D 32, the low byte first.
pub(crate) const MARK_ONE: u16 = 0x4C4D;

pub(crate) const MARK_TWO: u16 = 0x324D;

// The mark in the trailer.
pub(crate) fn mark_of(form: Form) -> u16
    ensures { result ≡ form_mark (Some form) }
{
    match form {
        Form::One => MARK_ONE,
        Form::Two => MARK_TWO,
    }
}

// The bytes of one record.
pub(crate) fn record_size(form: Form) -> usize
    ensures { result ≡ record_size (Some form) }
{
    match form {
        Form::One => RECORD,
        Form::Two => RECORD + 4,
    }
}

// The bytes of `count` records. The bound is said for the callers.
pub(crate) fn records_size(form: Form, count: usize) -> usize
    requires { count ≤ 64 }
    ensures size { result ≡ record_size (Some form) * count }
    ensures small { result ≤ 1024 }
{
    record_size(form) * count
}
