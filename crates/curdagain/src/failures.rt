// Why a run ends with nothing done.
use crate::reports::ROWS;
use joining::Refusal;
use script::Fault;
use std::alloc::{AllocError, AllocFailed};
use std::{fmt, io};

// `From` and `Display` are written out: no library of the kit but the standard ones is used.
#[derive(Drop)]
pub(crate) enum Failure {
    // there is no task of this name
    NoSuchTask(String),
    // the task wants a module
    NoModule,
    // no record is of this module
    NoSuchModule(String),
    // the input cannot be read, or the output written
    Io(io::Error),
    // a line of the input is no request
    Unread(Fault),
    // a line of the input is no record
    UnreadRecord(record_text::Fault),
    // the records break a rule
    BrokenRecords(tables::Refusal),
    // the walk has too few marks
    NoMarks(offering::Refusal),
    // the request of this line cannot be joined
    Refused(usize, Refusal),
    NoMemory,
}

impl From<io::Error> for Failure {
    fn from(error: io::Error) -> Failure {
        Failure::Io(error)
    }
}

impl From<Fault> for Failure {
    fn from(fault: Fault) -> Failure {
        Failure::Unread(fault)
    }
}

impl From<record_text::Fault> for Failure {
    fn from(fault: record_text::Fault) -> Failure {
        Failure::UnreadRecord(fault)
    }
}

impl From<tables::Refusal> for Failure {
    fn from(refusal: tables::Refusal) -> Failure {
        Failure::BrokenRecords(refusal)
    }
}

impl From<offering::Refusal> for Failure {
    fn from(refusal: offering::Refusal) -> Failure {
        Failure::NoMarks(refusal)
    }
}

impl<T: Drop> From<AllocFailed<T>> for Failure {
    fn from(_refused: AllocFailed<T>) -> Failure {
        Failure::NoMemory
    }
}

impl From<AllocError> for Failure {
    fn from(_error: AllocError) -> Failure {
        Failure::NoMemory
    }
}

impl fmt::Display for Failure {
    fn fmt<W: fmt::Write>(&self, f: &mut fmt::Formatter<W>) -> fmt::Result {
        match self {
            Failure::NoSuchTask(word) => write!(
                f,
                "expected no argument, offers or --help, found \"{word}\"; --help says more"
            ),
            Failure::NoModule => f.write_str("expected a module after offers; --help says more"),
            Failure::NoSuchModule(word) => {
                write!(f, "expected a module of the records, found \"{word}\"")
            }
            Failure::Io(error) => write!(f, "{error}"),
            Failure::Unread(fault) => write!(f, "{fault}"),
            Failure::UnreadRecord(fault) => write!(f, "{fault}"),
            Failure::BrokenRecords(refusal) => {
                let number = refusal.number();
                write!(
                    f,
                    "refused with {number}: the records break a rule; docs/HOSTS.md has the rules"
                )
            }
            Failure::NoMarks(refusal) => {
                let number = refusal.number();
                write!(
                    f,
                    "refused with {number}: there are fewer marks than modules"
                )
            }
            Failure::Refused(line, refusal) => {
                let number = refusal.number();
                write!(f, "line {line}: refused with {number}: ")?;
                match refusal {
                    Refusal::NoSuchModule => f.write_str("the module is past the last one"),
                    Refusal::NoFreeRow => write!(
                        f,
                        "no row is free, and at most {ROWS} paths are kept"
                    ),
                }
            }
            Failure::NoMemory => f.write_str("out of memory"),
        }
    }
}
