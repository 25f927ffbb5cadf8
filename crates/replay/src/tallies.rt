// What is counted of each object over a run.
use super::owners::Owner;
use super::turns::{Turn, Turns};
use rules::{ROWS, Stored};

// What is counted of an object: the sample instant of its stored value and the longest age seen, where it ever had a value, how many
// slots left it with no value and with a stale one, the instant after the last such slot, and in how many slots its job waited for one
// behind it that was in its hold.
#[derive(Clone, Copy, Debug, PartialEq, Eq, Default)]
pub(crate) struct Tally {
    pub sampled: Option<u32>,
    pub longest: Option<u32>,
    pub none: u32,
    pub stale: u32,
    pub lacking: u32,
    pub held_up: u32,
}

impl Tally {
    // One slot more; `kept`: in it the core was kept for an object behind. The run is no longer than its clock goes round, so an age
    // counted on from the sample is true also where the stored value has lapsed.
    fn count(&mut self, turn: &Turn, kept: bool) {
        if turn.ended() {
            self.sampled = Some(turn.at_hand().sample);
        }
        if kept && turn.had_job() {
            self.held_up = self.held_up.wrapping_add(1);
        }
        match turn.after.stored {
            Stored::Empty => {
                self.none = self.none.wrapping_add(1);
                self.lacking = turn.end();
            }
            Stored::Held(_) => self.grow_old(turn.end()),
            Stored::Lapsed => {
                self.stale = self.stale.wrapping_add(1);
                self.lacking = turn.end();
                self.grow_old(turn.end());
            }
        }
    }

    fn grow_old(&mut self, now: u32) {
        let age = self.sampled.map(|sampled| now.wrapping_sub(sampled));
        self.longest = self.longest.max(age);
    }
}

// One slot more on the tallies of the objects; `owner` is who had it.
pub(crate) fn count(tallies: &mut [Tally], turns: Turns, owner: Owner) {
    for (place, (tally, turn)) in (0..ROWS as u8).zip(tallies.iter_mut().zip(turns)) {
        tally.count(&turn, owner.is_held_behind(place));
    }
}

// How many slots left some object with a stale value, counted for each object.
pub(crate) fn stale_slots(tallies: &[Tally]) -> u64 {
    tallies.iter().fold(
        0,
        |sum: u64, tally| sum.wrapping_add(u64::from(tally.stale)),
    )
}

// The instant after the last slot that left some object with no value or a stale one.
pub(crate) fn last_lacking(tallies: &[Tally]) -> u32 {
    tallies.iter().map(|tally| tally.lacking).max().unwrap_or(0)
}
