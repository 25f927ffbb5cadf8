// The chart: a column for each of up to 100 slots, and for each object a line for its job and a line for its value.
ghost use Rattle.std.specs.Prelude.{◌≤◌, ◌<◌, ◌+◌, IfSome};

use super::turns::Turns;
use printing::Line;
use rules::{ROWS, Run};

// The widest chart has so many columns.
const COLUMNS: usize = 100;

// The columns before the signs.
const MARGIN: usize = 7;

// The signs of an object's job and of its value, column by column.
#[derive(Clone, Copy)]
pub(crate) struct Signs {
    job: [u8; COLUMNS],
    value: [u8; COLUMNS],
}

// The chart of a run of so many slots: `width` of them from `first` on, and which of them were stolen. The objects' signs are lent to it.
#[derive(Drop)]
pub(crate) struct Chart {
    slots: usize,
    first: usize,
    width: usize,
    marks: [u8; COLUMNS],
    ghost within: { (first + width ≤ slots) × (width ≤ 100) },
}

// The first slot that is drawn: `from`, or where that is not within the run the one from which on its last 100 are drawn.
fn first_drawn(slots: usize, from: Option<usize>) -> usize
    ensures { result ≤ slots }
{
    from.filter(|from| *from < slots)
        .unwrap_or(slots.saturating_sub(COLUMNS))
}

// How many slots are drawn, of those that are left.
fn width_of(left: usize) -> usize
    ensures { (result ≤ left) × (result ≤ 100) }
{
    left.min(COLUMNS)
}

impl Signs {
    // Nothing is drawn yet.
    pub(crate) const BLANK: Signs = Signs {
        job: [b' '; COLUMNS],
        value: [b' '; COLUMNS],
    };
}

impl Chart {
    // The chart of a run of so many slots, with no slot yet.
    pub(crate) fn new(slots: usize, from: Option<usize>) -> Chart {
        let first = first_drawn(slots, from);
        Chart {
            slots,
            first,
            width: width_of(slots - first),
            marks: [b' '; COLUMNS],
        }
    }

    // The column of a slot, if the chart has one.
    fn column(&self, slot: usize) -> Option<usize>
        ensures { IfSome result (λ column. column < 100) }
    {
        let column = slot.checked_sub(self.first)?;
        if column < self.width {
            Some(column)
        } else {
            None
        }
    }

    // Draws a slot, if it is one of the chart's.
    pub(crate) fn draw(&mut self, objects: &mut [Signs; ROWS], turns: Turns, stolen: bool) {
        let Some(column) = self.column(turns.slot as usize) else {
            return;
        };
        self.marks[column] = if stolen { b'x' } else { b'.' };
        for (signs, turn) in objects.iter_mut().zip(turns) {
            signs.job[column] = turn.job_sign();
            signs.value[column] = turn.value_sign();
        }
    }

    pub(crate) fn print(
        &self,
        rt: &impl Print,
        run: &Run,
        objects: &[Signs; ROWS],
    ) -> std::io::Result<()> {
        print_legend(rt)?;
        self.print_part(rt)?;
        self.print_ruler(rt)?;
        self.print_marks(rt)?;
        for (row, signs) in run.used().iter().zip(objects) {
            signs.print(rt, row.planned.id, self.width)?;
        }
        Ok(())
    }

    // Which slots the chart shows, if not all.
    fn print_part(&self, rt: &impl Print) -> std::io::Result<()> {
        let (slots, first, width) = (self.slots, self.first, self.width);
        if width < slots {
            println!(rt;
                "{width} of {slots} slots, from slot {first} on (--from SLOT shows others)"
            )?;
        }
        Ok(())
    }

    // The line that numbers the slots: a mark and the number of each tenth one.
    fn print_ruler(&self, rt: &impl Print) -> std::io::Result<()> {
        let mut line = Line::new();
        line.text(b"  slot ");
        for (column, slot) in (MARGIN..MARGIN + self.width).zip(self.first..) {
            if slot % 10 == 0 {
                line.blanks_to(column);
                line.put(b'|');
                line.number(slot as u64);
            }
        }
        line.end(rt)
    }

    // The line of stolen slots.
    fn print_marks(&self, rt: &impl Print) -> std::io::Result<()> {
        let mut line = Line::new();
        line.text(b"stolen ");
        line.text(&self.marks[..self.width]);
        line.end(rt)
    }
}

impl Signs {
    // The two lines of an object.
    fn print(&self, rt: &impl Print, id: u16, width: usize) -> std::io::Result<()>
        requires { width ≤ 100 }
    {
        let mut upper = Line::new();
        upper.padded(u64::from(id), MARGIN - 1);
        upper.blanks_to(MARGIN);
        upper.text(&self.job[..width]);
        upper.end(rt)?;
        let mut lower = Line::new();
        lower.blanks_to(MARGIN);
        lower.text(&self.value[..width]);
        lower.end(rt)
    }
}

// What the signs mean.
fn print_legend(rt: &impl Print) -> std::io::Result<()> {
    print!(rt;
        "Objects in priority order: a job waits for those above it, for one below it that is in its hold, or for a slot that is not stolen.\n\
         job:   R released and ran    # ran    * ran, a release skipped    H, % as # and *, in its hold    . no job in hand\n\
         \x20      r released and waits  - waits  ! waits, a release skipped\n\
         value: = fresh  ? stale  blank: none yet      stolen slots: x\n"
    )
}
