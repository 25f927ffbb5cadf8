// The convert program: reads a stored table of either form from standard input and writes it in the other form to standard output. Which way it
// went stands on standard error, and so does a refusal, as "refused N at K" and why; then nothing is written.
#![tactic(auto)]

use printing::{Ending, Input, Streams};
use rules::{Form, Refused};

// Which way it went.
fn say_way(rt: &impl Eprint, from: Option<Form>) -> std::io::Result<()> {
    if from == Some(Form::Two) {
        eprintln!(rt; "form two to form one, first releases left out: all were 0")
    } else {
        eprintln!(rt; "form one to form two, first releases 0")
    }
}

// Writes a table that reads in the other form than it is of. 64 records of form two and the trailer are 1032 bytes.
fn convert(rt: &(impl Print + Eprint), bytes: &[u8]) -> Result<(), Refused> {
    let from = tables::read(bytes)?.form;
    let mut converted = [0u8; 1032];
    let size = tables::convert(bytes, from, &mut converted)?;
    printing::ignored(rt.write_all(&converted[..size]));
    printing::ignored(say_way(rt, from));
    Ok(())
}

// The answer to the bytes of a stored table. These lines are alike in each program: one function for them would take what follows as a closure.
fn answer(rt: &(impl Print + Eprint), bytes: &[u8]) -> Ending {
    match convert(rt, bytes) {
        Ok(()) => Ending::Done,
        Err(refused) => printing::refuse_file(rt, bytes, refused),
    }
}

fn main() {
    let input = Input::read();
    printing::ended(answer(&Streams, input.bytes()));
}
