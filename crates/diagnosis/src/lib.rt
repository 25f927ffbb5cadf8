// What a person has to know of refused bytes: the numbers of a stored record or of a line of a sheet, by place, and what keeps a line from
// being taken. Any bytes and any place may be asked about; what is not there counts as 0.
#![tactic(auto)]

ghost use Rattle.std.specs.Prelude.{◌≤◌};

mod line;
mod sheet;
mod stored;

pub use line::{Cause, fault};
pub use sheet::line_count;
pub use stored::{distance, needed, object_count, record_size};

// The numbers of one object as they are written, in range or not. Only records of form two have a first release.
#[derive(Clone, Copy, Debug, PartialEq, Eq)]
pub struct Row {
    pub id: u64,
    pub cost: u64,
    pub validity: u64,
    pub hold: u64,
    pub first: u64,
}

// What the refused bytes are: a sheet, with a line for each object, or a stored table, with a record for each.
#[derive(Clone, Copy, Debug, PartialEq, Eq)]
pub enum Source {
    Sheet,
    Stored,
}

impl Source {
    // The object at a place.
    pub fn row_at(self, bytes: &[u8], place: usize) -> Row {
        match self {
            Source::Sheet => sheet::row(bytes, place),
            Source::Stored => stored::row(bytes, place),
        }
    }

    // The first place with this id, of those before `place`; `place` where there is none.
    pub fn first_with(self, bytes: &[u8], place: usize, id: u64) -> usize
        ensures { result ≤ place }
    {
        (0..place)
            .find(|k| self.row_at(bytes, *k).id == id)
            .unwrap_or(place)
    }
}
