// What one slot does to one row: release, service and ageing; and which rows it leaves as they are.
ghost use Rattle.std.specs.Prelude.{◌≡◌};
ghost use Rattle.rules.specs.RunState.{age_of, due_in};
ghost use Rattle.rules.specs.Run.{released_of, served_of, may_work, aged_stored, aged_of};
ghost use Rattle.stepping.specs.OneRow.{worked_of, still_free, unmoved};

use super::acceptance::{in_hold, stored_ok};
use rules::{RunRow, Stored};

// The age at `clock` of what was sampled at `sample`, modulo 2^32.
pub fn age(clock: u32, sample: u32) -> u32
    ensures { result ≡ age_of clock sample }
{
    clock.wrapping_sub(sample)
}

// In how many slots from `clock` on the release at `next` is due, modulo 2^32.
pub fn due_in(clock: u32, next: u32) -> u32
    ensures { result ≡ due_in clock next }
{
    next.wrapping_sub(clock)
}

// Step 1 at a row.
#[tactic(auto, using(std::proofs::lemmas::Bool::Decides::nat_tests), unfolding(rules::specs::Run::released_of))]
pub fn released(clock: u32, row: RunRow) -> RunRow
    ensures { result ≡ released_of clock row }
{
    if row.next != clock {
        return row;
    }
    let next = clock.wrapping_add(row.planned.period);
    if row.left != 0 {
        let skips = row.skips.saturating_add(1);
        return RunRow { next, skips, ..row };
    }
    RunRow {
        next,
        left: row.planned.cost,
        sample: clock,
        lapsed: false,
        ..row
    }
}

// Step 2 at a row with work left that gets the slot.
#[tactic(auto, using(std::proofs::lemmas::Bool::Decides::nat_tests), unfolding(rules::specs::Run::served_of))]
pub fn served(row: RunRow) -> RunRow
    ensures { result ≡ served_of row }
{
    if 1 < row.left {
        return RunRow {
            left: row.left - 1,
            ..row
        };
    }
    let stored = if row.lapsed {
        Stored::Lapsed
    } else {
        Stored::Held(row.sample)
    };
    RunRow {
        left: 0,
        sample: 0,
        lapsed: false,
        stored,
        ..row
    }
}

// Whether the row may get the slot: where a row is in its hold that one alone, otherwise each with work left.
#[tactic(auto, using(std::proofs::lemmas::Bool::Decides::nat_tests), unfolding(rules::specs::Run::may_work))]
fn may_work(holding: bool, row: RunRow) -> bool
    ensures { result ≡ may_work holding row }
{
    if holding { in_hold(row) } else { row.left != 0 }
}

// Step 2 at a row, a row being in its hold or none, and the core being free or not when the row's turn comes.
#[tactic(auto, using(std::proofs::lemmas::Bool::Decides::nat_tests), unfolding(crate::specs::OneRow::worked_of))]
pub fn worked(holding: bool, free: bool, row: RunRow) -> RunRow
    ensures { result ≡ worked_of holding free row }
{
    if free && may_work(holding, row) {
        served(row)
    } else {
        row
    }
}

// Step 3 at a stored value.
#[tactic(auto, using(std::proofs::lemmas::Bool::Decides::nat_tests))]
fn aged_stored(clock: u32, validity: u32, stored: Stored) -> Stored
    ensures { result ≡ aged_stored clock validity stored }
{
    match stored {
        Stored::Held(sample) if validity <= age(clock, sample) => Stored::Lapsed,
        _ => stored,
    }
}

// Step 3 at a row.
#[tactic(auto, using(std::proofs::lemmas::Bool::Decides::nat_tests), unfolding(rules::specs::Run::aged_of))]
pub fn aged(clock: u32, row: RunRow) -> RunRow
    ensures { result ≡ aged_of clock row }
{
    let validity = row.planned.validity;
    let old = row.left != 0 && validity <= age(clock, row.sample);
    RunRow {
        lapsed: row.lapsed || old,
        stored: aged_stored(clock, validity, row.stored),
        ..row
    }
}

// Whether the core is still free behind the row, once its release is done.
#[tactic(auto, using(std::proofs::lemmas::Bool::Decides::nat_tests), unfolding(crate::specs::OneRow::still_free))]
pub fn still_free(holding: bool, free: bool, row: RunRow) -> bool
    ensures { result ≡ still_free holding free row }
{
    free && !may_work(holding, row)
}

// Where this is true, a slot at `clock` leaves the row and the core as they are, whatever is in its hold, and nothing needs to be
// stored.
#[tactic(auto, using(std::proofs::lemmas::Bool::Decides::nat_tests), unfolding(crate::specs::OneRow::unmoved))]
pub fn unmoved(clock: u32, free: bool, row: RunRow) -> bool
    ensures { result ≡ unmoved clock free row }
{
    let after = clock.wrapping_add(1);
    let validity = row.planned.validity;
    row.next != clock
        && (row.left == 0 || !free && age(after, row.sample) < validity)
        && stored_ok(after, validity, row.stored)
}
