// The lines above and below the chart: what was run, and what became of each object.
use super::owners::{Kept, Owner};
use super::story::Story;
use super::tallies::Tally;
use super::{owners, tallies};
use printing::Line;
use rules::{Form, Run, RunRow};
use std::fmt;

// Where the first releases come from.
#[derive(Clone, Copy, Debug, PartialEq, Eq)]
pub(crate) enum Source {
    Command,
    Table,
    Nowhere,
}

impl Source {
    // --first goes before the table, and a table of form one has none.
    pub(crate) fn of(given: bool, form: Option<Form>) -> Source {
        match (given, form) {
            (true, _) => Source::Command,
            (false, Some(Form::Two)) => Source::Table,
            (false, Some(Form::One) | None) => Source::Nowhere,
        }
    }
}

impl fmt::Display for Source {
    fn fmt<W: fmt::Write>(&self, f: &mut fmt::Formatter<W>) -> fmt::Result {
        f.write_str(match self {
            Source::Command => "first releases: as --first gives them",
            Source::Table => "first releases: as they stand in the table, which is of form two",
            Source::Nowhere => {
                "first releases: 0 for all, since the table is of form one and has none"
            }
        })
    }
}

// "objects N, slots S, stolen T", and the source of the first releases.
pub(crate) fn print_header(
    rt: &impl Print,
    run: &Run,
    owners: &[Kept],
    source: Source,
) -> std::io::Result<()> {
    let objects = run.used().len();
    let slots = owners.len();
    let stolen = owners::count_of(owners, Owner::Stolen);
    println!(rt; "objects {objects}, slots {slots}, stolen {stolen}")?;
    println!(rt; "{source}")
}

// A line of the table, written as a whole. An object that never had a value has no age.
fn print_row(rt: &impl Print, row: &RunRow, tally: &Tally) -> std::io::Result<()> {
    let planned = row.planned;
    let mut line = Line::new();
    line.padded(u64::from(planned.id), 6);
    for number in [
        planned.cost,
        planned.validity,
        planned.hold,
        planned.deadline,
        planned.period,
    ] {
        line.padded(u64::from(number), 9);
    }
    match tally.longest {
        Some(age) => line.padded(u64::from(age), 9),
        None => {
            line.blanks(8);
            line.put(b'-');
        }
    }
    for number in [tally.none, tally.stale, row.skips, tally.held_up] {
        line.padded(u64::from(number), 9);
    }
    line.end(rt)
}

// The table: the heading stands over columns of 6 and then 9 signs.
pub(crate) fn print(rt: &impl Print, story: &Story) -> std::io::Result<()> {
    print!(rt;
        "    id     cost validity     hold deadline   period   oldest     none    stale  skipped  held up\n"
    )?;
    for (row, tally) in story.run.used().iter().zip(&story.tallies) {
        print_row(rt, row, tally)?;
    }
    println!(rt;
        "oldest: the greatest age of a value; none, stale: slots that left no value yet, or a stale one; skipped: releases that came while a job was in hand"
    )?;
    println!(rt; "held up: slots in which a job waited for one behind it that was in its hold")
}

// The ids of the objects whose value is none or stale at the end, which is when it last was.
fn print_lacking(rt: &impl Print, story: &Story, last: u32) -> std::io::Result<()> {
    print!(rt; "not current at the end:")?;
    let mut first = true;
    for (row, tally) in story.run.used().iter().zip(&story.tallies) {
        if tally.lacking == last {
            print!(rt; "{}{}", if first { " " } else { ", " }, row.planned.id)?;
            first = false;
        }
    }
    println!(rt; ".")
}

// The last line: whether any value was ever stale, and from when on all were current.
pub(crate) fn print_end(rt: &impl Print, story: &Story, slots: usize) -> std::io::Result<()> {
    let incidents = story.incidents.count;
    if incidents == 0 {
        print!(rt; "No value was ever stale; ")?;
    } else {
        let stale = tallies::stale_slots(&story.tallies);
        print!(rt; "Some values were stale (times: {incidents}, slots in all: {stale}); ")?;
    }
    let last = tallies::last_lacking(&story.tallies);
    if (last as usize) < slots {
        println!(rt; "every value was current from slot {last} on.")
    } else {
        print_lacking(rt, story, last)
    }
}
