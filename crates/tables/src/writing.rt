// Writing a table in either form: n records and the trailer, without gap, into a lent buffer. Nothing beyond what is told is touched.
// Each function takes the buffer and a place: the contracts say which bytes stand there, and the place follows from the record's number,
// so that a writer that keeps its own place would say the same in more words.
ghost use Rattle.std.specs.Prelude.{◌≡◌, [], ◌+◌, ◌*◌, ◌≤◌, length, Some, Ok, unwrap_or, position, not, ◌==◌};
ghost use Rattle.std.proofs.lemmas.List.Edits.{sets};
ghost use Rattle.rules.specs.Answers.{checked, outcome, written_outcome, Accepted};
ghost use Rattle.rules.specs.declared.Form.TheVariants.{One};
ghost use Rattle.rules.specs.StoredTable.{first_size, record_size, trailer_size, most_hold, checks_from};
ghost use Rattle.rules.specs.Writing.{row_bytes, first_bytes, record_bytes, records_bytes, trailer_bytes, unused_verdict, write_verdict, written_of, buffer_after, form_one};

use super::forms::{RECORD, TRAILER, mark_of, record_size, records_size};
use super::numbers::{put16, put32};
use rules::{Form, ObjectRow, ROWS, Refusal, Refused, StoredTable, Table};

// The record of an object at `at`, as far as both forms have it. Its two bytes for the hold less one are enough for a hold that
// passed check 6.
fn put_row(buffer: &mut [u8], at: usize, row: ObjectRow)
    requires { (at + 12 ≤ length buffer.old) × (1 ≤ row.hold) × (row.hold ≤ most_hold) }
    ensures { buffer.new ≡ sets buffer.old at (row_bytes row) }
{
    put16(buffer, at, row.id);
    put16(buffer, at + 2, (row.hold - 1) as u16);
    put32(buffer, at + 4, row.cost);
    put32(buffer, at + 8, row.validity);
}

// The first release behind it, which only form two stores.
fn put_first(buffer: &mut [u8], form: Form, at: usize, first: u32)
    requires { at + first_size (Some form) ≤ length buffer.old }
    ensures { buffer.new ≡ sets buffer.old at (first_bytes (Some form) first) }
{
    match form {
        Form::One => {}
        Form::Two => put32(buffer, at, first),
    }
}

// The whole record at `at`.
fn put_record(buffer: &mut [u8], form: Form, at: usize, row: ObjectRow, first: u32)
    requires { (at + record_size (Some form) ≤ length buffer.old) × (1 ≤ row.hold) × (row.hold ≤ most_hold) }
    ensures { buffer.new ≡ sets buffer.old at (record_bytes (Some form) row first) }
{
    put_row(buffer, at, row);
    put_first(buffer, form, at + RECORD, first);
}

// The records of rows that passed the checks, with their first releases, from the start of the buffer on.
fn put_records(buffer: &mut [u8], form: Form, rows: &[ObjectRow], firsts: &[u32])
    requires paired { length firsts.now ≡ length rows.now }
    requires room { record_size (Some form) * length rows.now ≤ length buffer.old }
    requires well_formed { checks_from 0 [] rows.now ≡ Accepted }
    ensures { buffer.new ≡ sets buffer.old 0 (records_bytes (Some form) rows.now firsts.now) }
{
    let size = record_size(form);
    for (i, (row, first)) in rows.iter().zip(firsts).enumerate() {
        put_record(buffer, form, size * i, *row, *first);
    }
}

// The trailer of `count` records at `at`.
fn put_trailer(buffer: &mut [u8], form: Form, at: usize, count: usize)
    requires { (count ≤ 64) × (at + trailer_size ≤ length buffer.old) }
    ensures { buffer.new ≡ sets buffer.old at (trailer_bytes (Some form) count) }
{
    put32(buffer, at, (TRAILER + records_size(form, count)) as u32);
    put16(buffer, at + 4, count as u16);
    put16(buffer, at + 6, mark_of(form));
}

// The first record whose first release is not 0.
fn first_used(firsts: &[u32]) -> Option<usize>
    ensures { result ≡ position (λ first. not (first == 0)) firsts.now }
{
    firsts.iter().position(|first| *first != 0)
}

// Check 18: form one has no place for a first release.
fn check_unused(form: Form, firsts: &[u32]) -> Result<(), Refused>
    ensures { result ≡ checked (unused_verdict (Some form) firsts.now) }
{
    match form {
        Form::One => match first_used(firsts) {
            Some(at) => Err(Refusal::FirstUsed.at(at)),
            None => Ok(()),
        },
        Form::Two => Ok(()),
    }
}

// Whether a buffer of `size` bytes can take it, and the form: 3 where it is of neither form, 4, 7, 6, 8, 9, then 18, then 16.
fn check_writing(stored: StoredTable, size: usize) -> Result<Form, Refused>
    ensures { result ≡ outcome (write_verdict stored size) (unwrap_or stored.form One) }
{
    let Some(form) = stored.form else {
        return Err(Refusal::WrongMark.at(0));
    };
    rules::check_table(stored.table)?;
    let count = stored.table.count;
    let firsts = stored.firsts;
    check_unused(form, &firsts[..count])?;
    if size < TRAILER + records_size(form, count) {
        return Err(Refusal::BufferSmall.at(0));
    }
    Ok(form)
}

// The table that passed the checks, in its form at the start of the buffer: how many bytes it takes.
fn put_stored(buffer: &mut [u8], form: Form, stored: StoredTable) -> usize
    requires passed { Ok form ≡ outcome (write_verdict stored (length buffer.old)) (unwrap_or stored.form One) }
    ensures buffer { buffer.new ≡ buffer_after stored buffer.old }
    ensures told { Ok result ≡ written_outcome (written_of stored (length buffer.old)) }
{
    let count = stored.table.count;
    let records = records_size(form, count);
    put_records(buffer, form, stored.table.used(), &stored.firsts[..count]);
    put_trailer(buffer, form, records, count);
    TRAILER + records
}

// The table in its form at the start of the buffer: how many bytes it takes, or the refusal, and the buffer is untouched.
// The checks and the writing each take it by value: lent to both, it would lie on the stack a second time while the rows are checked.
pub fn write_stored(stored: StoredTable, buffer: &mut [u8]) -> Result<usize, Refused>
    ensures buffer { buffer.new ≡ buffer_after stored buffer.old }
    ensures told { result ≡ written_outcome (written_of stored (length buffer.old)) }
{
    let form = check_writing(stored, buffer.len())?;
    Ok(put_stored(buffer, form, stored))
}

// A table without first releases: in form one.
pub fn write(table: Table, buffer: &mut [u8]) -> Result<usize, Refused>
    ensures buffer { buffer.new ≡ buffer_after (form_one table) buffer.old }
    ensures told { result ≡ written_outcome (written_of (form_one table) (length buffer.old)) }
{
    // Made beside it: within it, all of it would be filled with zeros first.
    let firsts = [0; ROWS];
    let stored = StoredTable {
        form: Some(Form::One),
        table,
        firsts,
    };
    write_stored(stored, buffer)
}
