// Standard output and standard error, as the programs write to them: piece by piece, over the crate `io`. A piece that cannot be written is
// left out, and the next one is tried. The runtime's own streams would ask the C library why a write failed, which nobody here wants to know
// and which is one thing more to trust.
use std::fmt::{self, Display, Formatter};

#[derive(Clone, Copy)]
pub struct Streams;

const OUTPUT: i32 = 1;

const ERRORS: i32 = 2;

// A descriptor, which each piece of a text goes to by a write of its own.
#[derive(Drop)]
struct Pieces {
    descriptor: i32,
}

impl fmt::Write for Pieces {
    fn write_str(&mut self, piece: &str) -> fmt::Result {
        io::write_all(self.descriptor, piece.as_bytes());
        Ok(())
    }
}

// A text, and what ends it.
fn print_to<D: Display + Drop>(descriptor: i32, value: D, end: &str) -> std::io::Result<()> {
    let mut pieces = Formatter::new(Pieces { descriptor });
    let _ = pieces.write(&value);
    let _ = pieces.write(end);
    Ok(())
}

impl Print for Streams {
    fn print<D: Display + Drop>(&self, value: D) -> std::io::Result<()> {
        print_to(OUTPUT, value, "")
    }

    fn println<D: Display + Drop>(&self, value: D) -> std::io::Result<()> {
        print_to(OUTPUT, value, "\n")
    }

    fn write_all(&self, bytes: &[u8]) -> std::io::Result<()> {
        io::write_all(OUTPUT, bytes);
        Ok(())
    }
}

impl Eprint for Streams {
    fn eprint<D: Display + Drop>(&self, value: D) -> std::io::Result<()> {
        print_to(ERRORS, value, "")
    }

    fn eprintln<D: Display + Drop>(&self, value: D) -> std::io::Result<()> {
        print_to(ERRORS, value, "\n")
    }
}
