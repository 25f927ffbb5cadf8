// The import program: reads a reseller's sheet from standard input and writes the stored table to standard output. A refusal is told on
// standard error as "refused N at K" and why, and nothing is written.
#![tactic(auto)]

ghost use Rattle.std.specs.Prelude.{◌≡◌};
ghost use Rattle.rules.specs.Answers.{checked};
ghost use Rattle.rules.specs.StoredTable.{table_verdict};

use printing::{Ending, Input, Streams};
use rules::{Refused, Table};

// Writes a table as stored bytes. 64 records and the trailer are 776 bytes, so that none is refused for want of room.
fn write_table(rt: &impl Print, table: Table) -> Result<(), Refused>
    ensures { result ≡ checked (table_verdict table) }
{
    let mut stored = [0u8; 776];
    let size = tables::write(table, &mut stored)?;
    printing::ignored(rt.write_all(&stored[..size]));
    Ok(())
}

// Writes the table of a sheet.
fn import(rt: &impl Print, bytes: &[u8]) -> Result<(), Refused> {
    write_table(rt, sheets::import(bytes)?)
}

// The answer to the bytes of a sheet.
fn answer(rt: &(impl Print + Eprint), bytes: &[u8]) -> Ending {
    match import(rt, bytes) {
        Ok(()) => Ending::Done,
        Err(refused) => {
            printing::complain(rt, refused);
            printing::explain_sheet(rt, bytes, refused);
            Ending::Refused
        }
    }
}

fn main() {
    let input = Input::read();
    printing::ended(answer(&Streams, input.bytes()));
}
