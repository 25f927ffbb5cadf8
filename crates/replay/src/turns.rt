// What one slot did to each object, told from its row before the slot and after it.
ghost use Rattle.std.specs.Prelude.{length};
ghost use Rattle.std.specs.Iterator.{at_most};

use rules::{Run, RunRow, Stored};

// What a slot did to one object.
#[derive(Clone, Copy)]
pub(crate) struct Turn<'a> {
    pub slot: u32,
    pub before: &'a RunRow,
    pub after: &'a RunRow,
}

fn is_stale(row: &RunRow) -> bool {
    match row.stored {
        Stored::Lapsed => true,
        Stored::Empty | Stored::Held(_) => false,
    }
}

// What a slot did to the objects, one after the other: the rows that are left of the run before it and of the run after it.
#[derive(Clone, Copy)]
pub(crate) struct Turns<'a> {
    pub slot: u32,
    before: &'a [RunRow],
    after: &'a [RunRow],
}

impl<'a> Turns<'a> {
    pub(crate) fn between(before: &'a Run, after: &'a Run) -> Turns<'a> {
        Turns {
            slot: before.clock,
            before: before.used(),
            after: after.used(),
        }
    }
}

impl<'a> Iterator for Turns<'a> {
    type Item = Turn<'a>;

    ghost remaining = { λ turns. at_most (length turns.before.now) };

    fn next(&mut self) -> Option<Turn<'a>> {
        let (before, before_others) = self.before.split_first()?;
        let (after, after_others) = self.after.split_first()?;
        self.before = before_others;
        self.after = after_others;
        Some(Turn {
            slot: self.slot,
            before,
            after,
        })
    }
}

impl Turn<'_> {
    // Its row after the release that the slot may begin with.
    pub(crate) fn at_hand(&self) -> RunRow {
        stepping::released(self.slot, *self.before)
    }

    // Whether the object did a unit of work.
    pub(crate) fn ran(&self) -> bool {
        self.at_hand().left != self.after.left
    }

    // Whether its job was in its hold.
    pub(crate) fn in_hold(&self) -> bool {
        stepping::in_hold(self.at_hand())
    }

    // Whether a job of it was at hand.
    pub(crate) fn had_job(&self) -> bool {
        self.at_hand().left != 0
    }

    // Whether its job ended.
    pub(crate) fn ended(&self) -> bool {
        self.ran() && self.after.left == 0
    }

    // Whether the slot left a stale value where there was none.
    pub(crate) fn lapsed(&self) -> bool {
        !is_stale(self.before) && is_stale(self.after)
    }

    // Whether it left none where there was a stale value.
    pub(crate) fn recovered(&self) -> bool {
        is_stale(self.before) && !is_stale(self.after)
    }

    // The instant after the slot.
    pub(crate) fn end(&self) -> u32 {
        self.slot.wrapping_add(1)
    }

    // The release of the job that is at hand, or else the last one.
    pub(crate) fn last_release(&self) -> u32 {
        let at_hand = self.at_hand();
        if at_hand.left != 0 {
            at_hand.sample
        } else {
            self.before.next.wrapping_sub(self.before.planned.period)
        }
    }

    // The sign of the job: upper line of an object.
    pub(crate) fn job_sign(&self) -> u8 {
        let release = self.before.next == self.slot;
        let in_hand = self.before.left != 0;
        match (release, in_hand, self.ran(), self.in_hold()) {
            (true, false, true, _) => b'R',
            (true, false, false, _) => b'r',
            (true, true, true, true) => b'%',
            (true, true, true, false) => b'*',
            (true, true, false, _) => b'!',
            (false, _, true, true) => b'H',
            (false, _, true, false) => b'#',
            (false, true, false, _) => b'-',
            (false, false, false, _) => b'.',
        }
    }

    // The sign of the value that the slot left: lower line of an object.
    pub(crate) fn value_sign(&self) -> u8 {
        match self.after.stored {
            Stored::Empty => b' ',
            Stored::Held(_) => b'=',
            Stored::Lapsed => b'?',
        }
    }
}
