// The first door: stored bytes of either form to the table and the first releases.
ghost use Rattle.std.specs.Prelude.{◌≡◌, ◌+◌, ◌≤◌, length, Some};
ghost use Rattle.rules.specs.Answers.{stored_outcome};
ghost use Rattle.rules.specs.StoredTable.{no_row, record_size, row_of, first_at, read_of};
ghost use Rattle.tables.specs.Records.{AreWithin, filled};

use super::forms::RECORD;
use super::numbers::{read16, read32};
use super::trailer::{Records, read_trailer};
use rules::{Form, ObjectRow, ROWS, Refused, StoredTable, Table};

// The object row of the record that begins at a place. The record stores the hold less one.
fn row_at(bytes: &[u8], at: usize) -> ObjectRow
    requires { at + 12 ≤ length bytes.now }
    ensures { result ≡ row_of bytes.now at }
{
    ObjectRow {
        id: read16(bytes, at),
        cost: read32(bytes, at + 4),
        validity: read32(bytes, at + 8),
        hold: u32::from(read16(bytes, at + 2)) + 1,
    }
}

// The first release of the record that begins at a place: form one stores none, and 0 stands for it.
fn first_at(bytes: &[u8], form: Form, at: usize) -> u32
    requires { at + record_size (Some form) ≤ length bytes.now }
    ensures { result ≡ first_at (Some form) bytes.now at }
{
    match form {
        Form::One => 0,
        Form::Two => read32(bytes, at + RECORD),
    }
}

// The object rows of the records, and rows of zeros after them. Filled, and not made by `array::from_fn`, which would ask at each of the 64
// places whether a record belongs there: a small table took up to twice as long to read.
fn rows_from(bytes: &[u8], records: Records) -> [ObjectRow; ROWS]
    requires { AreWithin records (length bytes.now) }
    ensures { result ≡ filled row_of no_row bytes.now records }
{
    let mut rows = [ObjectRow::empty(); ROWS];
    for (i, row) in rows[..records.count].iter_mut().enumerate() {
        *row = row_at(bytes, records.place(i));
    }
    rows
}

// The first releases of the records, and zeros after them. One function for both would take `row_at` or `first_at` and the empty value, and
// need a clause on where the former may be called: more than the five lines that it would save.
fn firsts_from(bytes: &[u8], records: Records) -> [u32; ROWS]
    requires { AreWithin records (length bytes.now) }
    ensures { result ≡ filled (first_at (Some records.form)) 0 bytes.now records }
{
    let mut firsts = [0; ROWS];
    for (i, first) in firsts[..records.count].iter_mut().enumerate() {
        *first = first_at(bytes, records.form, records.place(i));
    }
    firsts
}

// The first door: what stored bytes hold, or the refusal.
pub fn read(bytes: &[u8]) -> Result<StoredTable, Refused>
    ensures { result ≡ stored_outcome (read_of bytes.now) }
{
    let records = read_trailer(bytes)?;
    let table = Table {
        count: records.count,
        rows: rows_from(bytes, records),
    };
    rules::check_table(table)?;
    Ok(StoredTable {
        form: Some(records.form),
        table,
        firsts: firsts_from(bytes, records),
    })
}
