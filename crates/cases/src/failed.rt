// Why the cases end before the last one: a write failed, or what a case begins with was refused, which no paper says it may be.
use rules::{Refused, Unstepped};

#[derive(Drop)]
pub(crate) enum Failed {
    Unwritten(std::io::Error),
    Refused(Refused),
}

impl From<std::io::Error> for Failed {
    fn from(error: std::io::Error) -> Failed {
        Failed::Unwritten(error)
    }
}

impl From<Refused> for Failed {
    fn from(refused: Refused) -> Failed {
        Failed::Refused(refused)
    }
}

impl From<Unstepped> for Failed {
    fn from(unstepped: Unstepped) -> Failed {
        Failed::Refused(unstepped.refused)
    }
}
