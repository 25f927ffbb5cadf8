// When something lapses next at a row. Any sooner clock value would do as well: it costs time, and changes no answer.
ghost use Rattle.std.specs.Prelude.{◌≡◌, ℕ, ◌<◌, ◌≤◌};
ghost use Rattle.rules.specs.RunState.{age_of, due_in};
ghost use Rattle.rules.specs.Run.{later, tick, aged_stored};
ghost use Rattle.running.specs.Rests.{Rests};

use rules::{RunRow, Stored};

// For how many slots from `clock` on what was sampled at `sample` does not reach the validity.
fn lasts(clock: u32, validity: u32, sample: u32) -> u32
    ensures { (e : ℕ) → e < result → age_of (tick (later clock e)) sample < validity }
{
    validity
        .saturating_sub(stepping::age(clock, sample))
        .saturating_sub(1)
}

fn stored_lasts(clock: u32, validity: u32, stored: Stored) -> u32
    ensures { (e : ℕ) → e < result → aged_stored (tick (later clock e)) validity stored ≡ stored }
{
    match stored {
        Stored::Empty | Stored::Lapsed => u32::MAX,
        Stored::Held(sample) => lasts(clock, validity, sample),
    }
}

// The clock value before which, from `clock` on, no slot makes anything lapse at the row.
pub(crate) fn lapse_of(clock: u32, row: RunRow) -> u32
    ensures { Rests clock (due_in clock result) row }
{
    let validity = row.planned.validity;
    let stored = stored_lasts(clock, validity, row.stored);
    if row.left == 0 || row.lapsed {
        return clock.wrapping_add(stored);
    }
    let hand = lasts(clock, validity, row.sample);
    clock.wrapping_add(stored.min(hand))
}
