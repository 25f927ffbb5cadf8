// The row in its hold, of which there is at most one, and where the row that gets the slot is looked for.
ghost use Rattle.std.specs.Prelude.{◌≡◌, not, ◌&&◌, ◌||◌, if◌then◌else◌, nat_le, position};
ghost use Rattle.rules.specs.RunState.{in_hold, used_rows};

use rules::Run;

// The place of the row in its hold, if there is one.
pub(crate) fn holder(run: &Run) -> Option<usize>
    ensures { result ≡ position in_hold (used_rows run.now) }
{
    run.used().iter().position(|row| stepping::in_hold(*row))
}

// Here and in `first_after` the parts of a test are all taken, by `|` and `&`: a branch for each would be one more way to prove.

// Where the search begins once the row `at` has work: there if that is sooner, but at the row in its hold if there is one.
pub(crate) fn first_now(holding: bool, first: usize, at: usize) -> usize
    ensures { result ≡ (if holding || nat_le first at then first else at) }
{
    if holding | (first <= at) { first } else { at }
}

// Where the search begins once the row `first` has done a unit and is then in its hold or not: from the front where its hold is
// over, since rows ahead of it may have got work meanwhile.
pub(crate) fn first_after(holding: bool, held: bool, first: usize) -> usize
    ensures { result ≡ (if holding && not held then 0 else first) }
{
    if holding & !held { 0 } else { first }
}
