// Entries for the benchmark alone, not part of the C library: `running::slot_in_place` has a run with an enum in it and cannot be
// exported, so a loop of it is, from the start of a run to what is seen of one row.
#![tactic(auto)]

ghost use Rattle.std.specs.Prelude.{◌≡◌};
ghost use Rattle.rules.specs.Run.{start_of};
ghost use Rattle.timing.specs.InPlace.{in_place_of, seen_of};

use rules::{ROWS, Run, Table};

// What is seen of a run: its clock, and the numbers of one row.
#[repr(C)]
#[derive(Clone, Copy)]
pub struct Seen {
    pub clock: u32,
    pub next: u32,
    pub left: u32,
    pub sample: u32,
    pub skips: u32,
}

// One slot for each byte, each a checked slot in place; what a slot refuses it leaves as it is.
fn slots_in_place(start: Run, stolen: &[u8]) -> Run
    ensures { result ≡ in_place_of start stolen.now }
{
    let mut run = start;
    for &byte in stolen {
        let _ = running::slot_in_place(&mut run, byte != 0);
    }
    run
}

// The row at `place`, which is counted modulo 64.
fn seen_at(run: Run, place: u8) -> Seen
    ensures { result ≡ seen_of run place }
{
    let row = run.rows[usize::from(place) % ROWS];
    Seen {
        clock: run.clock,
        next: row.next,
        left: row.left,
        sample: row.sample,
        skips: row.skips,
    }
}

// The run that starts; a refused start is a run with count 0.
fn started(table: Table, clock: u32, firsts: &[u32]) -> Run
    ensures { result ≡ (start_of table clock firsts.now).run }
{
    match running::start(table, clock, firsts) {
        Ok(run) => run,
        Err(_) => Run::empty(),
    }
}

// Starts a run, does one slot in place for each byte of `stolen`, and tells of the row at `place`. A refused start is a run with
// count 0, which every slot refuses.
#[unsafe(no_mangle)]
pub extern "C" fn timing_slots(
    table: Table,
    clock: u32,
    firsts: &[u32],
    stolen: &[u8],
    place: u8,
) -> Seen
    ensures { result ≡ seen_of (in_place_of (start_of table clock firsts.now).run stolen.now) place }
{
    let start = started(table, clock, firsts);
    let run = slots_in_place(start, stolen);
    seen_at(run, place)
}
