// The replay program: reads a stored table from standard input, runs it slot by slot and shows what happened.
#![tactic(auto)]

mod chart;
mod incidents;
mod owners;
mod story;
mod summary;
mod tallies;
mod turns;
mod words;

use chart::Signs;
use owners::{Kept, Owner};
use printing::{Ending, Input, Streams};
use rules::{ROWS, Refused, Run, StoredTable, Table};
use story::Story;
use summary::Source;
use words::{MOST_SLOTS, Words};

// Prints what happened; `owners` had the slots of the run, and `signs` are those of its chart.
fn show(
    rt: &impl Print,
    story: &Story,
    owners: &[Kept],
    signs: &[Signs; ROWS],
    source: Source,
) -> std::io::Result<()> {
    summary::print_header(rt, &story.run, owners, source)?;
    story.chart.print(rt, &story.run, signs)?;
    summary::print(rt, story)?;
    story.incidents.print(rt, &story.run, owners)?;
    summary::print_end(rt, story, owners.len())
}

// Goes through the run and shows it; `owners` has a place for each slot of the longest run.
fn show_run(
    rt: &impl Print,
    run: Run,
    words: &Words,
    source: Source,
    owners: &mut [Kept; MOST_SLOTS],
    signs: &mut [Signs; ROWS],
) -> std::io::Result<()> {
    let owners = &mut owners[..words.slots.count()];
    let mut story = Story::new(run, words);
    story.go_through(&words.stolen, owners, signs);
    show(rt, &story, owners, signs, source)
}

// Makes the places for who had each slot and for the signs of the chart: arrays, which are lent and never moved. What is refused needs none
// of them, so this stays a call.
#[inline(never)]
fn run_through(rt: &impl Print, run: Run, words: &Words, source: Source) -> std::io::Result<()> {
    let mut owners = [Kept::from(Owner::Nobody); MOST_SLOTS];
    let mut signs = [Signs::BLANK; ROWS];
    show_run(rt, run, words, source, &mut owners, &mut signs)
}

// A refused start: objects that have no plan, or first releases that do not fit the table.
fn explain(rt: &impl Eprint, stored: StoredTable, words: &Words, refused: Refused) {
    match &words.firsts {
        Some(firsts) => printing::explain_start(rt, stored.table, refused, firsts),
        None => {
            let firsts = planning::first_releases(stored);
            printing::explain_start(rt, stored.table, refused, &firsts);
        }
    }
}

// The start at clock 0 with the first releases of --first: a single 0 stands for all zero.
fn started(table: Table, firsts: &[u32]) -> Result<Run, Refused> {
    match firsts {
        [0] => running::start(table, 0, &[0; ROWS][..table.count.min(ROWS)]),
        _ => running::start(table, 0, firsts),
    }
}

// The start at clock 0: with the first releases of --first, otherwise with those that stand in the table, as a router starts from it.
// A call, so that the stack of a run has no place for all that a start is made from.
#[inline(never)]
fn begun(bytes: &[u8], stored: StoredTable, words: &Words) -> Result<Run, Refused> {
    match &words.firsts {
        Some(firsts) => started(stored.table, firsts),
        None => running::start_stored(bytes, 0),
    }
}

// Starts the table and shows the run, or says why it is refused.
fn start<R: Print + Eprint>(rt: &R, bytes: &[u8], stored: StoredTable, words: &Words) -> Ending {
    match begun(bytes, stored, words) {
        Ok(run) => {
            let source = Source::of(words.firsts.is_some(), stored.form);
            printing::ignored(run_through(rt, run, words, source));
            Ending::Done
        }
        Err(refused) => {
            printing::tell(rt, refused);
            explain(rt, stored, words, refused);
            Ending::Refused
        }
    }
}

// The answer to the words of the command and to the bytes of a stored table on standard input.
fn answer(words: &Words) -> Ending {
    let input = Input::read();
    match tables::read(input.bytes()) {
        Ok(stored) => start(&Streams, input.bytes(), stored, words),
        Err(refused) => printing::refuse_table(&Streams, input.bytes(), refused),
    }
}

fn main(rt: HostRuntime) {
    let how = match words::read(rt) {
        Ok(words) => answer(&words),
        Err(wrong) => {
            printing::ignored(eprintln!(Streams; "{wrong}"));
            Ending::WrongWords
        }
    };
    printing::ended(how);
}
