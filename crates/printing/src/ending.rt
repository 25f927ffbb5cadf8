// How a program ended, and what becomes of a write that failed.

// How a program ended.
#[derive(Clone, Copy, Debug, PartialEq, Eq)]
pub enum Ending {
    Done,
    Refused,
    WrongWords,
}

// The programs say nothing of a write that failed: they go on, and end as they would have. `Streams` tells of none and tries what comes next; this
// is where the Result that a text is printed with is let go.
pub fn ignored(written: std::io::Result<()>) {
    let _ = written;
}

// How the program ended, as its last act: 0 done, 1 refused, 2 wrong words. A program has no exit status of its own, so it writes the digit
// to descriptor 3, which the launcher opens; where nobody did, the write fails and nothing is lost. The crate `io` writes to it, since the
// runtime knows no descriptor but the first three.
pub fn ended(how: Ending) {
    let digit: &[u8] = match how {
        Ending::Done => b"0",
        Ending::Refused => b"1",
        Ending::WrongWords => b"2",
    };
    io::write_all(3, digit);
}
