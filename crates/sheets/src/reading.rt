// Importing a sheet: field by field, line by line, each from the bytes that the one before it left.
ghost use Rattle.std.specs.Prelude.{◌≡◌};
ghost use Rattle.rules.specs.Answers.{read_outcome};
ghost use Rattle.rules.specs.StoredTable.{no_table};
ghost use Rattle.rules.specs.Sheet.{field_end, read_field, read_line, lines_of, lines_answer, import_of};
ghost use Rattle.sheets.specs.Found.{WentOn, Finds, put_into};

use rules::{ObjectRow, ROWS, Refusal, Refused, Table};

// The most bytes that a sheet may have, the largest id and the largest of the other numbers.
const MOST_BYTES: usize = 4096;

const MOST_ID: u32 = 65535;

const MOST_NUMBER: u32 = u32::MAX;

// A number goes on with the digits at the front: its value, and the bytes behind them. Beyond the limit it is not followed, since it
// only grows.
fn go_on(bytes: &[u8], first: u64, limit: u32) -> (u64, &[u8])
    ensures { WentOn limit first bytes.now result.0 result.1.now }
{
    let mut value = first;
    for (at, c) in bytes.iter().enumerate() {
        if !c.is_ascii_digit() || u64::from(limit) < value {
            return (value, &bytes[at..]);
        }
        value = value * 10 + u64::from(c - b'0');
    }
    (value, &[])
}

// The end of a field: a number up to the limit, and the byte `stop` behind it.
fn end_field(value: u64, bytes: &[u8], limit: u32, stop: u8) -> Option<(u32, &[u8])>
    ensures { Finds (field_end limit stop value bytes.now) result }
{
    if u64::from(limit) < value {
        return None;
    }
    match bytes {
        [c, rest @ ..] if *c == stop => Some((value as u32, rest)),
        _ => None,
    }
}

// The field at the front: a number without leading zero.
fn read_field(bytes: &[u8], limit: u32, stop: u8) -> Option<(u32, &[u8])>
    ensures { Finds (read_field limit stop bytes.now) result }
{
    match bytes {
        [b'0', rest @ ..] => end_field(0, rest, limit, stop),
        [c, rest @ ..] if c.is_ascii_digit() => {
            let (value, behind) = go_on(rest, u64::from(c - b'0'), limit);
            end_field(value, behind, limit, stop)
        }
        _ => None,
    }
}

// The line at the front.
fn read_line(bytes: &[u8]) -> Option<(ObjectRow, &[u8])>
    ensures { Finds (read_line bytes.now) result }
{
    let (id, rest) = read_field(bytes, MOST_ID, b',')?;
    let (cost, rest) = read_field(rest, MOST_NUMBER, b',')?;
    let (validity, rest) = read_field(rest, MOST_NUMBER, b',')?;
    let (hold, rest) = read_field(rest, MOST_NUMBER, b'\r')?;
    let [b'\n', rest @ ..] = rest else {
        return None;
    };
    let row = ObjectRow {
        id: id as u16,
        cost,
        validity,
        hold,
    };
    Some((row, rest))
}

// The answer to the lines of a sheet: the first that is not of the form, or the answer to all rows, which are put into the lent table. Rows
// beyond 64 are only counted. A loop over what is left: where a line ends is known only once it is read. The table is lent and the call
// stays a call, since an answer with a table in it that stands around loops is cleared before them and copied behind them.
#[inline(never)]
fn read_lines(bytes: &[u8], table: &mut Table) -> Result<(), Refused>
    requires { table.old ≡ no_table }
    ensures { put_into table.new result ≡ read_outcome (lines_answer (lines_of bytes.now)) }
{
    let mut count = 0;
    let mut rest = bytes;
    while !rest.is_empty() {
        let Some((row, behind)) = read_line(rest) else {
            return Err(Refusal::LineForm.at(count));
        };
        if count < ROWS {
            table.rows[count] = row;
        }
        count += 1;
        rest = behind;
    }
    table.count = count;
    rules::check_table(*table)
}

// A sheet to a table.
pub fn import(bytes: &[u8]) -> Result<Table, Refused>
    ensures { result ≡ read_outcome (import_of bytes.now) }
{
    if MOST_BYTES < bytes.len() {
        return Err(Refusal::TooLong.at(0));
    }
    let mut table = Table::empty();
    read_lines(bytes, &mut table)?;
    Ok(table)
}
