// The export program: reads a stored table from standard input and writes the reseller's sheet to standard output. A refusal is told on
// standard error as "refused N at K" and why, and nothing is written.
#![tactic(auto)]

use printing::{Ending, Input, Streams};
use rules::{Form, Refused};

// A sheet has no column for first releases. Whoever exports a table that has them is told, so that they are not lost unseen.
fn note_firsts(rt: &impl Eprint, form: Option<Form>) -> std::io::Result<()> {
    if form == Some(Form::Two) {
        eprintln!(rt;
            "The first releases of the table are not in the sheet, which has no place for them. Keep the table as well."
        )?;
    }
    Ok(())
}

// Writes the lines of a table. A line of four numbers in their ranges has at most 29 bytes, and there are at most 64.
fn export(rt: &(impl Print + Eprint), bytes: &[u8]) -> Result<(), Refused> {
    let stored = tables::read(bytes)?;
    let mut sheet = [0u8; 1856];
    let size = sheets::export(stored.table, &mut sheet)?;
    printing::ignored(rt.write_all(&sheet[..size]));
    printing::ignored(note_firsts(rt, stored.form));
    Ok(())
}

// The answer to the bytes of a stored table. These lines are alike in each program: one function for them would take what follows as a closure.
fn answer(rt: &(impl Print + Eprint), bytes: &[u8]) -> Ending {
    match export(rt, bytes) {
        Ok(()) => Ending::Done,
        Err(refused) => printing::refuse_file(rt, bytes, refused),
    }
}

fn main() {
    let input = Input::read();
    printing::ended(answer(&Streams, input.bytes()));
}
