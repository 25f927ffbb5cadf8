// Exporting a table: how many bytes its sheet has, and then a line for each row right into the lent buffer, the digits of a number from the
// last to the first. Nothing beyond what is told is touched.
ghost use Rattle.std.specs.Prelude.{◌≡◌, ◌+◌, ◌++◌, ◌≤◌, length, drop};
ghost use Rattle.std.proofs.lemmas.List.Edits.{sets};
ghost use Rattle.rules.specs.Answers.{written_outcome};
ghost use Rattle.rules.specs.Sheet.{decimal, field_bytes, line_bytes, sheet_bytes, exported_of, sheet_after};

use rules::{ObjectRow, ROWS, Refusal, Refused, Table};

// No number has more digits.
const DIGITS: usize = 10;

// No line has more bytes: four numbers, the byte behind each, and the last byte.
const LINE: usize = 4 * DIGITS + 5;

// How many digits a number has.
fn width(x: u32) -> usize
    ensures digits { result ≡ length (decimal x) }
    ensures few { result ≤ DIGITS }
{
    let mut y = x;
    let mut digits = 1;
    while 9 < y {
        y /= 10;
        digits += 1;
    }
    digits
}

// How many bytes the line of a row has.
#[tactic(auto, using(crate::proofs::Printed::line_length))]
fn line_size(row: ObjectRow) -> usize
    ensures bytes { result ≡ length (line_bytes row) }
    ensures few { result ≤ LINE }
{
    width(u32::from(row.id)) + width(row.cost) + width(row.validity) + width(row.hold) + 5
}

// How many bytes the sheet of rows has.
fn sheet_size(rows: &[ObjectRow]) -> usize
    requires { length rows.now ≤ ROWS }
    ensures { result ≡ length (sheet_bytes rows.now) }
{
    let mut size = 0;
    for row in rows {
        size += line_size(*row);
    }
    size
}

// The digits of a number at `at`; answers the place behind them.
fn put_number(buffer: &mut [u8], at: usize, x: u32) -> usize
    requires { at + length (decimal x) ≤ length buffer.old }
    ensures bytes { buffer.new ≡ sets buffer.old at (decimal x) }
    ensures behind { result ≡ at + length (decimal x) }
{
    let end = at + width(x);
    let mut y = x;
    let mut last = end - 1;
    while 9 < y {
        buffer[last] = b'0' + (y % 10) as u8;
        y /= 10;
        last -= 1;
    }
    buffer[last] = b'0' + y as u8;
    end
}

// The digits of a number at `at` and the byte that ends the field; answers the place behind it.
fn put_field(buffer: &mut [u8], at: usize, x: u32, stop: u8) -> usize
    requires { at + length (decimal x) + 1 ≤ length buffer.old }
    ensures bytes { buffer.new ≡ sets buffer.old at (field_bytes x stop) }
    ensures behind { result ≡ at + length (decimal x) + 1 }
{
    let end = put_number(buffer, at, x);
    buffer[end] = stop;
    end + 1
}

// The line of a row at `at`; answers the place behind it.
#[tactic(auto, using(crate::proofs::Printed::line_length))]
fn put_line(buffer: &mut [u8], at: usize, row: ObjectRow) -> usize
    requires { at + length (line_bytes row) ≤ length buffer.old }
    ensures bytes { buffer.new ≡ sets buffer.old at (line_bytes row) }
    ensures behind { result ≡ at + length (line_bytes row) }
{
    let second = put_field(buffer, at, u32::from(row.id), b',');
    let third = put_field(buffer, second, row.cost, b',');
    let fourth = put_field(buffer, third, row.validity, b',');
    let end = put_field(buffer, fourth, row.hold, b'\r');
    buffer[end] = b'\n';
    end + 1
}

// The sheet of rows, from the start of the buffer on.
fn put_sheet(buffer: &mut [u8], rows: &[ObjectRow])
    requires { length (sheet_bytes rows.now) ≤ length buffer.old }
    ensures { buffer.new ≡ sheet_bytes rows.now ++ drop (length (sheet_bytes rows.now)) buffer.old }
{
    let mut at = 0;
    for row in rows {
        at = put_line(buffer, at, *row);
    }
}

// The sheet at the start of the buffer: how many bytes it takes, or 4, 7, 6, 8, 9, then 16, and the buffer is untouched.
pub fn export(table: Table, buffer: &mut [u8]) -> Result<usize, Refused>
    ensures buffer { buffer.new ≡ sheet_after table buffer.old }
    ensures told { result ≡ written_outcome (exported_of table (length buffer.old)) }
{
    rules::check_table(table)?;
    let rows = table.used();
    let size = sheet_size(rows);
    if buffer.len() < size {
        return Err(Refusal::BufferSmall.at(0));
    }
    put_sheet(buffer, rows);
    Ok(size)
}
