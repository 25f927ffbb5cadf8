// Document 01's numbers for the run: worked runs, and refused starts and readings.
use crate::failed::Failed;
use crate::planning_cases::{behind, row, table};
use rules::{Reading, Refused, Run};

// What a reading by id says, to the end of the line.
pub(crate) fn print_reading(rt: &impl Print, run: Run, id: u16) -> Result<(), Failed> {
    match running::read_value(run, id) {
        Ok(Reading::Never) => println!(rt; "none")?,
        Ok(Reading::Stale) => println!(rt; "stale")?,
        Ok(Reading::Fresh(age)) => println!(rt; "fresh, age {age}")?,
        Err(refused) => println!(rt; "{refused}")?,
    }
    Ok(())
}

// The clock, and of each of the first three objects the work left and the skips.
fn print_state(rt: &impl Print, run: &Run) -> Result<(), Failed> {
    print!(rt; "clock {}", run.clock)?;
    for row in run.used().iter().take(3) {
        print!(rt; ", left {} skips {}", row.left, row.skips)?;
    }
    println!(rt; "")?;
    Ok(())
}

// One slot of each byte, with the state after each.
fn print_slots(rt: &impl Print, run: Run, stolen: &[u8]) -> Result<Run, Failed> {
    let mut now = run;
    for taken in stolen {
        now = running::slot(now, *taken != 0)?;
        print_state(rt, &now)?;
    }
    Ok(now)
}

// 002's set with first releases 2, 1, 0: slots go to objects 3, 2, 1, 1, 2, 3, and instant 6 has nothing left over.
fn figure_two(rt: &impl Print) -> Result<(), Failed> {
    let rows = table(&[row(1, 2, 8), row(2, 2, 10), row(3, 2, 12)]);
    let run = running::start(rows, 0, &[2, 1, 0])?;
    println!(rt; "002's set, first releases 2, 1, 0")?;
    print_state(rt, &run)?;
    print_slots(rt, run, &[0, 0, 0, 0, 0, 0])?;
    Ok(())
}

// (1,2), first release 0, slots 0 to 2 stolen: three skips, stale at 4 with nothing left over, fresh at 5 with age 1.
fn stolen_slots(rt: &impl Print) -> Result<(), Failed> {
    let run = running::start(table(&[row(1, 1, 2)]), 0, &[0])?;
    println!(rt; "(1,2), slots 0 to 2 stolen")?;
    let at_four = print_slots(rt, run, &[1, 1, 1, 0])?;
    print_reading(rt, at_four, 1)?;
    let at_five = print_slots(rt, at_four, &[0])?;
    print_reading(rt, at_five, 1)
}

// (1,4) started at clock 4,294,967,295: after one slot, clock 0, fresh, age 1.
fn wrapped(rt: &impl Print) -> Result<(), Failed> {
    let run = running::start(table(&[row(1, 1, 4)]), 4294967295, &[0])?;
    println!(rt; "(1,4) at clock 4294967295")?;
    print_reading(rt, run, 1)?;
    let after = print_slots(rt, run, &[0])?;
    print_reading(rt, after, 1)?;
    print_reading(rt, after, 2)
}

// (1,8), first release 1, waits for 3 slots behind (5,20) with a hold of 4, first release 0, and is done at 5, its deadline.
fn print_held(rt: &impl Print, title: &str, run: Run) -> Result<(), Failed> {
    println!(rt; "{title}")?;
    let at_five = print_slots(rt, run, &[0, 0, 0, 0, 0])?;
    print_reading(rt, at_five, 1)
}

// The same two objects stored in form two, the one behind first: first releases are stored in the order of the records.
fn stored_behind(first: u8) -> [u8; 40] {
    [
        2, 0, 3, 0, 5, 0, 0, 0, 20, 0, 0, 0, 0, 0, 0, 0, 1, 0, 0, 0, 1, 0, 0, 0, 8, 0, 0, 0, first,
        0, 0, 0, 40, 0, 0, 0, 2, 0, b'M', b'2',
    ]
}

// The run from rows and from stored bytes, and a stored first release that is not below the period, 4.
fn held(rt: &impl Print) -> Result<(), Failed> {
    print_held(
        rt,
        "(1,8), (5,20) with hold 4, first releases 1, 0",
        running::start(behind(4), 0, &[1, 0])?,
    )?;
    print_held(
        rt,
        "the same from form two, stored as (5,20), (1,8) with first releases 0, 1",
        running::start_stored(&stored_behind(1), 0)?,
    )?;
    print_start(
        rt,
        "first release 4 of (1,8) in form two",
        running::start_stored(&stored_behind(4), 0),
    )
}

// One start: "accepted" or the refusal, and the count of what came back.
fn print_start(rt: &impl Print, title: &str, started: Result<Run, Refused>) -> Result<(), Failed> {
    print!(rt; "{title}: ")?;
    match started {
        Ok(_) => print!(rt; "accepted")?,
        Err(refused) => print!(rt; "{refused}")?,
    }
    println!(rt; ", objects {}", started.map_or(0, |run| run.count))?;
    Ok(())
}

// Starts of 002's set, good and bad.
fn starts(rt: &impl Print) -> Result<(), Failed> {
    let rows = table(&[row(1, 2, 8), row(2, 2, 10), row(3, 2, 12)]);
    print_start(
        rt,
        "first releases 5, 5, 5",
        running::start(rows, 7, &[5, 5, 5]),
    )?;
    print_start(rt, "two first releases", running::start(rows, 7, &[0, 0]))?;
    print_start(
        rt,
        "four first releases",
        running::start(rows, 7, &[0, 0, 0, 0]),
    )?;
    print_start(
        rt,
        "first releases 5, 6, 7",
        running::start(rows, 7, &[5, 6, 7]),
    )?;
    let late = table(&[row(1, 2, 8), row(2, 2, 10), row(3, 2, 11)]);
    print_start(
        rt,
        "no deadline, two first releases",
        running::start(late, 7, &[0, 0]),
    )?;
    let twice = table(&[row(1, 2, 8), row(2, 2, 10), row(1, 2, 12)]);
    print_start(
        rt,
        "equal ids, two first releases",
        running::start(twice, 7, &[0, 0]),
    )
}

pub(crate) fn cases(rt: &impl Print) -> Result<(), Failed> {
    figure_two(rt)?;
    stolen_slots(rt)?;
    wrapped(rt)?;
    held(rt)?;
    starts(rt)
}
