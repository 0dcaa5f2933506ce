// What becomes of a line.
use std::io;

// Why a line has no answer of its own: it is no case, or the answer could not be written.
#[derive(Clone, Copy, Debug)]
pub enum Unanswered {
    NoCase,
    Unwritten(io::Error),
}

impl From<io::Error> for Unanswered {
    fn from(error: io::Error) -> Unanswered {
        Unanswered::Unwritten(error)
    }
}

pub fn print_too_large(rt: &impl Print) -> io::Result<()> {
    println!(rt; "too large")
}
