// The incidents of a run: which value went stale in which slot and for how long, and who had the core meanwhile.
use super::owners::{Kept, Shares};
use super::turns::{Turn, Turns};
use arrayvec::ArrayVec;
use rules::Run;

// So many incidents are told; those past them are only counted.
const TOLD: usize = 20;

// One incident: the object's id, the slot of the release that should have renewed the value, the slot that left it stale, and the one that
// renewed it, if any did.
#[derive(Clone, Copy, Debug, PartialEq, Eq, Default)]
pub(crate) struct Incident {
    pub id: u16,
    pub release: u32,
    pub slot: u32,
    pub end: Option<u32>,
}

// The first of them, and how many there were.
#[derive(Drop)]
pub(crate) struct Incidents {
    pub count: usize,
    pub first: ArrayVec<Incident, TOLD>,
}

impl Incidents {
    pub(crate) fn new() -> Incidents {
        Incidents {
            count: 0,
            first: ArrayVec::new(),
        }
    }

    // One slot more.
    pub(crate) fn follow(&mut self, turns: Turns) {
        for turn in turns {
            if turn.lapsed() {
                self.open(&turn);
            } else if turn.recovered() {
                self.close(&turn);
            }
        }
    }

    // One incident more. Where there is no place for it, it is only counted.
    fn open(&mut self, turn: &Turn) {
        let _ = self.first.try_push(Incident {
            id: turn.before.planned.id,
            release: turn.last_release(),
            slot: turn.slot,
            end: None,
        });
        self.count = self.count.wrapping_add(1);
    }

    // The open incident of the object ends, if it is told.
    fn close(&mut self, turn: &Turn) {
        for incident in self.first.iter_mut() {
            if incident.id == turn.before.planned.id && incident.end.is_none() {
                incident.end = Some(turn.slot);
            }
        }
    }

    // The incidents that are told; `owners` had the slots of the run.
    pub(crate) fn print(&self, rt: &impl Print, run: &Run, owners: &[Kept]) -> std::io::Result<()> {
        if self.count == 0 {
            return Ok(());
        }
        println!(rt;
            "Values that went stale, and who had the core from the release on that should have renewed them:"
        )?;
        for incident in &self.first {
            incident.print(rt, run, owners)?;
        }
        if TOLD < self.count {
            println!(rt; ".. and {} more", self.count - TOLD)?;
        }
        Ok(())
    }
}

impl Incident {
    // An incident that is open at the end of the run lasts to it.
    fn print(&self, rt: &impl Print, run: &Run, owners: &[Kept]) -> std::io::Result<()> {
        let end = self.end.unwrap_or(run.clock);
        let (id, release, slot) = (self.id, self.release, self.slot);
        let long = end.wrapping_sub(slot);
        print!(rt; "slot {slot}: object {id}, released at {release}, slots stale: {long}")?;
        if self.end.is_none() {
            print!(rt; ", to the end")?;
        }
        let meanwhile = owners.get(release as usize..end as usize);
        print_shares(rt, run, &Shares::of(meanwhile.unwrap_or(&[])))
    }
}

// Who had the core, the stolen slots first and those of nobody last.
fn print_shares(rt: &impl Print, run: &Run, shares: &Shares) -> std::io::Result<()> {
    print!(rt; "; ")?;
    print!(rt; "stolen {}", shares.stolen)?;
    for (row, share) in run.used().iter().zip(&shares.objects) {
        if share.slots != 0 {
            print!(rt; ", object {}: {}", row.planned.id, share.slots)?;
        }
        if share.held != 0 {
            print!(rt; " ({} in its hold)", share.held)?;
        }
    }
    if shares.nobody != 0 {
        print!(rt; ", idle {}", shares.nobody)?;
    }
    println!(rt)
}
