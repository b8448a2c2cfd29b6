// Why a line has no result.
use std::alloc::AllocError;
use std::fmt;
use terms::Unwritten;
use thiserror::Error;
use tokens::{Fault, Mistake};
use turned::Unturned;

#[derive(Debug, Drop, Error)]
pub enum Refusal {
    // The line has more bytes than there is room for.
    #[error("too long")]
    TooLong,
    // The line is no term.
    #[error("{mistake}")]
    Wrong { column: usize, mistake: Mistake },
    #[error("not enough memory")]
    Memory(#[from(alloc)] AllocError),
    // The tree of the line has no result, or its term has more bytes than there is room for.
    #[error(transparent)]
    Unturned(#[from] Unturned),
}

impl From<Fault> for Refusal {
    fn from(fault: Fault) -> Refusal {
        match fault {
            Fault::Memory(error) => Refusal::Memory(error),
            Fault::Wrong { place, mistake } => Refusal::Wrong {
                column: place.column,
                mistake,
            },
        }
    }
}

impl From<Unwritten> for Refusal {
    fn from(why: Unwritten) -> Refusal {
        match why {
            Unwritten::Memory(error) => Refusal::Memory(error),
            Unwritten::NoTree => Refusal::Unturned(Unturned::NoTree),
            Unwritten::TooLong => Refusal::Unturned(Unturned::Full),
        }
    }
}

// A line without a result, counted from 1.
#[derive(Drop)]
pub struct RefusedLine {
    pub number: u64,
    pub reason: Refusal,
}

impl fmt::Display for RefusedLine {
    fn fmt<W: fmt::Write>(&self, f: &mut fmt::Formatter<W>) -> fmt::Result {
        let number = self.number;
        match &self.reason {
            Refusal::Wrong { column, mistake } => write!(f, "{number}:{column}: {mistake}"),
            reason => write!(f, "{number}: {reason}"),
        }
    }
}
