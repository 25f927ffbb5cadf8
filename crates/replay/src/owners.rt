// Who had the core, slot by slot, and how many slots of an incident went to each.
use super::turns::Turns;
use rules::ROWS;

// Who had a slot. Objects go by their places in priority order.
#[derive(Clone, Copy, Debug, PartialEq, Eq)]
pub(crate) enum Owner {
    Nobody,
    Stolen,
    Object(u8),
    // an object in its hold
    Held(u8),
}

impl Owner {
    // Who had the slot that did this to the objects.
    pub(crate) fn of(turns: Turns, stolen: bool) -> Owner {
        for (place, turn) in (0..ROWS as u8).zip(turns) {
            if turn.ran() {
                return if turn.in_hold() {
                    Owner::Held(place)
                } else {
                    Owner::Object(place)
                };
            }
        }
        if stolen { Owner::Stolen } else { Owner::Nobody }
    }

    // Whether the core was kept, by a hold, for an object behind this place.
    pub(crate) fn is_held_behind(self, place: u8) -> bool {
        match self {
            Owner::Held(behind) => place < behind,
            Owner::Nobody | Owner::Stolen | Owner::Object(_) => false,
        }
    }
}

// Who had a slot, as a run keeps it of each of up to 1,000,000 slots: in one byte.
#[derive(Clone, Copy, Debug, PartialEq, Eq)]
pub(crate) struct Kept(u8);

// The bytes below these are the places of objects, those above are the places of objects in their holds, from HELD on.
const NOBODY: u8 = ROWS as u8;

const STOLEN: u8 = NOBODY + 1;

const HELD: u8 = NOBODY + 2;

impl From<Owner> for Kept {
    fn from(owner: Owner) -> Kept {
        Kept(match owner {
            Owner::Nobody => NOBODY,
            Owner::Stolen => STOLEN,
            Owner::Object(place) => place,
            Owner::Held(place) => HELD.wrapping_add(place),
        })
    }
}

impl From<Kept> for Owner {
    fn from(kept: Kept) -> Owner {
        match kept.0 {
            NOBODY => Owner::Nobody,
            STOLEN => Owner::Stolen,
            place if place < NOBODY => Owner::Object(place),
            held => Owner::Held(held.wrapping_sub(HELD)),
        }
    }
}

// How many of these slots somebody had.
pub(crate) fn count_of(owners: &[Kept], owner: Owner) -> usize {
    let kept = Kept::from(owner);
    owners.iter().filter(|other| **other == kept).count()
}

// How many slots an object had, and how many of these in its hold.
#[derive(Clone, Copy, Debug, PartialEq, Eq, Default)]
pub(crate) struct Share {
    pub slots: u32,
    pub held: u32,
}

// How many slots went to each. There is a share for every object that a table can have, so that no length stands beside them. None of the
// numbers is above the slots of a run, 1,000,000 at most; sums that wrap need no word of that in each struct.
#[derive(Clone, Copy)]
pub(crate) struct Shares {
    pub nobody: u32,
    pub stolen: u32,
    pub objects: [Share; ROWS],
}

impl Shares {
    pub(crate) fn of(owners: &[Kept]) -> Shares {
        let mut shares = Shares {
            nobody: 0,
            stolen: 0,
            objects: [Share::default(); ROWS],
        };
        for owner in owners {
            shares.count(Owner::from(*owner));
        }
        shares
    }

    // One slot more.
    fn count(&mut self, owner: Owner) {
        match owner {
            Owner::Nobody => self.nobody = self.nobody.wrapping_add(1),
            Owner::Stolen => self.stolen = self.stolen.wrapping_add(1),
            Owner::Object(place) => self.count_object(place, false),
            Owner::Held(place) => self.count_object(place, true),
        }
    }

    fn count_object(&mut self, place: u8, held: bool) {
        if let Some(share) = self.objects.get_mut(usize::from(place)) {
            share.slots = share.slots.wrapping_add(1);
            share.held = share.held.wrapping_add(u32::from(held));
        }
    }
}
