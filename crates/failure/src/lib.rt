// Why a program gives up: one of its standard streams failed. Proved are the stream's name and where the error's words are cut; std
// makes those words.
#![tactic(auto)]

ghost use Rattle.std.specs.Prelude.{◌≡◌};
ghost use Rattle.failure.specs.Report.{IsShortened, stream_of};

use arrayvec::ArrayString;
use std::error::Error;
use std::fmt::{Display, Formatter, Write};
use std::{fmt, io};

// As much of an error's text as a report has room for.
const ERROR_BYTES: usize = 256;

// Standard input could not be read, or standard output could not be written.
#[derive(Clone, Copy, Debug)]
pub enum Failure {
    Unread(io::Error),
    Unwritten(io::Error),
}

// The words of an error, without the number that std puts behind them in brackets.
fn words(text: &str) -> &str
    ensures { IsShortened text.now result.now }
{
    match text.split_once(" (") {
        Some((words, _)) => words,
        None => text,
    }
}

impl Failure {
    fn stream(self) -> &'static str
        ensures { result.now ≡ stream_of self }
    {
        match self {
            Failure::Unread(_) => "standard input",
            Failure::Unwritten(_) => "standard output",
        }
    }
}

impl Display for Failure {
    // The stream that failed, a colon and the error's words.
    fn fmt<W: fmt::Write>(&self, f: &mut Formatter<W>) -> fmt::Result {
        let (Failure::Unread(error) | Failure::Unwritten(error)) = self;
        let mut text = ArrayString::<ERROR_BYTES>::new();
        // What the text has no room for is left out.
        let _ = write!(text, "{error}");
        write!(f, "{}: {}", self.stream(), words(text.as_str()))
    }
}

impl Error for Failure {}

#[cfg(test)]
mod tests {
    use super::*;
    use std::io::ErrorKind;
    use std::test::Fail;

    #[test]
    fn names_the_stream_and_leaves_out_the_number(rt: HostRuntime) -> Result<(), Fail> {
        let mut line = ArrayString::<ERROR_BYTES>::new();
        write!(
            line,
            "{}",
            Failure::Unread(io::Error::from_raw_os_error(21))
        )?;
        assert_eq!(rt; line.as_str(), "standard input: Is a directory");
        Ok(())
    }

    #[test]
    fn keeps_words_with_no_number(rt: HostRuntime) -> Result<(), Fail> {
        let mut line = ArrayString::<ERROR_BYTES>::new();
        write!(
            line,
            "{}",
            Failure::Unwritten(io::Error::from(ErrorKind::WriteZero))
        )?;
        assert_eq!(rt; line.as_str(), "standard output: write zero");
        Ok(())
    }
}
