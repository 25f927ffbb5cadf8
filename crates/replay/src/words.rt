// The words of the command: --slots, --first, --stolen and --from, each with its value, and what is said of wrong ones.
ghost use Rattle.std.specs.Prelude.{◌≤◌, IfSome};

use arrayvec::ArrayVec;
use rules::ROWS;
use std::env::{Env, FillError};
use std::fmt;

// A run has so many slots where --slots does not say.
const SLOTS: usize = 60;

// No run is longer, and no chart begins later.
pub(crate) const MOST_SLOTS: usize = 1000000;

// No number has more than nine digits, zeros before it aside.
const MOST_NUMBER: u32 = 999999999;

// No more names are looked at, each with its value.
const NAMES: usize = 16;

// A name has no more bytes than this, a value that is a number or a list no more than this, and a pattern no more than this.
const LONGEST_NAME: usize = 16;

const LONGEST_VALUE: usize = 1024;

const LONGEST_PATTERN: usize = 4096;

// As many first releases as there can be objects, and one more, so that too many are seen to be so.
const MOST_FIRSTS: usize = ROWS + 1;

// Why a run cannot begin: the value of which name is wrong, or that the names are.
#[derive(Clone, Copy, Debug, PartialEq, Eq)]
pub(crate) enum Wrong {
    Slots,
    First,
    Stolen,
    From,
    Names,
}

impl fmt::Display for Wrong {
    fn fmt<W: fmt::Write>(&self, f: &mut fmt::Formatter<W>) -> fmt::Result {
        f.write_str(match self {
            Wrong::Slots => "replay: --slots is not a number from 1 to 1000000",
            Wrong::First =>
                "replay: --first is not a list of numbers separated by commas, as 2,1,0",
            Wrong::Stolen => "replay: --stolen is not a pattern of . and x, as xxx.",
            Wrong::From => "replay: --from is not a number from 0 to 1000000",
            Wrong::Names => {
                "replay: the words are --slots N, --first LIST, --stolen PATTERN and --from SLOT"
            }
        })
    }
}

// What a word is that has a value behind it.
#[derive(Clone, Copy, Debug, PartialEq, Eq)]
enum Name {
    Slots,
    First,
    Stolen,
    From,
}

impl TryFrom<&[u8]> for Name {
    type Error = Wrong;

    fn try_from(word: &[u8]) -> Result<Name, Wrong> {
        match word {
            b"--slots" => Ok(Name::Slots),
            b"--first" => Ok(Name::First),
            b"--stolen" => Ok(Name::Stolen),
            b"--from" => Ok(Name::From),
            _ => Err(Wrong::Names),
        }
    }
}

// How many slots a run has.
#[derive(Clone, Copy)]
pub(crate) struct Slots {
    count: usize,
    ghost within: { count ≤ 1000000 },
}

impl Slots {
    pub(crate) fn count(self) -> usize
        ensures { result ≤ 1000000 }
    {
        self.count
    }
}

impl TryFrom<&[u8]> for Slots {
    type Error = Wrong;

    fn try_from(word: &[u8]) -> Result<Slots, Wrong> {
        match number(word) {
            Some(0) | None => Err(Wrong::Slots),
            Some(count) => Ok(Slots { count }),
        }
    }
}

// The first releases of --first, and for each slot of a pattern whether it is stolen.
type Firsts = ArrayVec<u32, MOST_FIRSTS>;

type Pattern = ArrayVec<bool, LONGEST_PATTERN>;

// The words as they are meant: how many slots, where the chart begins (none: so that it ends with the run), the first releases
// that --first gave, and whether a slot is stolen, over and over.
#[derive(Drop)]
pub(crate) struct Words {
    pub slots: Slots,
    pub from: Option<usize>,
    pub firsts: Option<Firsts>,
    pub stolen: Pattern,
}

// What the words say that were looked at, from the last one on: of two values of a name the later counts. A wrong pattern is
// told of only where nothing else is wrong.
#[derive(Default, Drop)]
struct Said {
    slots: Option<Slots>,
    firsts: Option<Firsts>,
    stolen: Option<Result<Pattern, Wrong>>,
    from: Option<usize>,
}

impl Said {
    // The value of a name, at a place of the command.
    fn take(&mut self, rt: HostRuntime, name: Name, at: usize) -> Result<(), Wrong> {
        let mut buffer = [0u8; LONGEST_VALUE];
        let value = word(rt, at, &mut buffer);
        match name {
            Name::Slots => {
                let slots = Slots::try_from(value)?;
                self.slots = self.slots.or(Some(slots));
            }
            Name::First => {
                let firsts = list(value)?;
                self.firsts.get_or_insert(firsts);
            }
            Name::Stolen => {
                let stolen = pattern(rt, at);
                self.stolen.get_or_insert(stolen);
            }
            Name::From => {
                let from = number(value).ok_or(Wrong::From)?;
                self.from = self.from.or(Some(from));
            }
        }
        Ok(())
    }
}

// Whether the command has a word at a place; the program's own name is at 0.
fn is_there(rt: HostRuntime, at: usize) -> bool {
    !matches!(rt.arg(at, &mut [0u8; 0]), Err(FillError::NotPresent))
}

// The word at a place, as bytes: it need not be text, and of words that are not `env::args` has none. What is not there or does
// not fit is empty: no empty word is right.
fn word<'a>(rt: HostRuntime, at: usize, buffer: &'a mut [u8]) -> &'a [u8] {
    match rt.arg(at, buffer) {
        Ok(size) => &buffer[..size],
        Err(_) => &[],
    }
}

// The number that the digits are.
fn numeral(text: &str) -> Option<u32> {
    if !text.bytes().all(|byte| byte.is_ascii_digit()) {
        return None;
    }
    text.parse().ok().filter(|number| *number <= MOST_NUMBER)
}

// The number of slots that a word is, at most 1,000,000.
fn number(word: &[u8]) -> Option<usize>
    ensures { IfSome result (λ number. number ≤ 1000000) }
{
    let text = str::from_utf8(word).ok()?;
    let number = numeral(text)? as usize;
    if number <= MOST_SLOTS {
        Some(number)
    } else {
        None
    }
}

// The numbers of --first, between commas. Those for which there is no place are left out.
fn list(word: &[u8]) -> Result<Firsts, Wrong> {
    let text = str::from_utf8(word).map_err(|_| Wrong::First)?;
    let mut numbers = ArrayVec::new();
    for piece in text.split(',') {
        let number = numeral(piece).ok_or(Wrong::First)?;
        let _ = numbers.try_push(number);
    }
    Ok(numbers)
}

// The pattern of --stolen: '.' is ours, 'x' stolen.
fn pattern(rt: HostRuntime, at: usize) -> Result<Pattern, Wrong> {
    let mut buffer = [0u8; LONGEST_PATTERN];
    let word = word(rt, at, &mut buffer);
    if word.is_empty() {
        return Err(Wrong::Stolen);
    }
    let mut stolen = ArrayVec::new();
    for sign in word {
        let _ = stolen.try_push(match sign {
            b'.' => false,
            b'x' => true,
            _ => return Err(Wrong::Stolen),
        });
    }
    Ok(stolen)
}

// The pattern where --stolen gives none: every slot is ours.
fn ours() -> Pattern {
    let mut stolen = ArrayVec::new();
    stolen.push(false);
    stolen
}

// All words. Of several wrong ones the last is told of, so they are read from there on. A call, so that the stack of a run has no place for
// all that is made of words on the way.
#[inline(never)]
pub(crate) fn read(rt: HostRuntime) -> Result<Words, Wrong> {
    if is_there(rt, 2 * NAMES + 1) {
        return Err(Wrong::Names);
    }
    let mut said = Said::default();
    for pair in (0..NAMES).rev() {
        let at = 2 * pair + 1;
        if is_there(rt, at) {
            let mut buffer = [0u8; LONGEST_NAME];
            let name = Name::try_from(word(rt, at, &mut buffer))?;
            said.take(rt, name, at + 1)?;
        }
    }
    Ok(Words {
        slots: said.slots.unwrap_or(Slots { count: SLOTS }),
        from: said.from,
        firsts: said.firsts,
        stolen: match said.stolen {
            Some(pattern) => pattern?,
            None => ours(),
        },
    })
}
