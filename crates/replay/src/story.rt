// The run slot by slot: its chart, its tallies, its incidents, and who had each slot.
use super::chart::{Chart, Signs};
use super::incidents::Incidents;
use super::owners::{Kept, Owner};
use super::tallies;
use super::tallies::Tally;
use super::turns::Turns;
use super::words::Words;
use rules::{ROWS, Run};

// What is told of a run beside who had each of its slots: its last state, and so on. There is a tally for every object that a table can
// have.
#[derive(Drop)]
pub(crate) struct Story {
    pub run: Run,
    pub tallies: [Tally; ROWS],
    pub incidents: Incidents,
    pub chart: Chart,
}

impl Story {
    // A run that has not begun.
    pub(crate) fn new(run: Run, words: &Words) -> Story {
        Story {
            run,
            tallies: [Tally::default(); ROWS],
            incidents: Incidents::new(),
            chart: Chart::new(words.slots.count(), words.from),
        }
    }

    // Runs as many slots as there are owners to note. A run that was started is never refused one.
    pub(crate) fn go_through(
        &mut self,
        pattern: &[bool],
        owners: &mut [Kept],
        signs: &mut [Signs; ROWS],
    ) {
        let mut run = self.run;
        for (owner, stolen) in owners.iter_mut().zip(pattern.iter().cycle()) {
            let before = run;
            let _ = running::slot_in_place(&mut run, *stolen);
            let turns = Turns::between(&before, &run);
            self.chart.draw(signs, turns, *stolen);
            *owner = Kept::from(self.follow(turns, *stolen));
        }
        self.run = run;
    }

    // One slot more. Answers who had it.
    fn follow(&mut self, turns: Turns, stolen: bool) -> Owner {
        let owner = Owner::of(turns, stolen);
        tallies::count(&mut self.tallies, turns, owner);
        self.incidents.follow(turns);
        owner
    }
}
