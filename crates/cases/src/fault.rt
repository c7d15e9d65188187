// Why a line, or the program, does not go on.
use std::alloc::{AllocError, AllocFailed};
use std::{io, num};

#[derive(Debug, Drop)]
pub enum Fault {
    // The line cannot be read. What it did before stays done.
    Unread,
    // Printing failed, or memory ran out, which ends the program.
    Failed(io::Error),
}

impl From<io::Error> for Fault {
    fn from(error: io::Error) -> Fault {
        Fault::Failed(error)
    }
}

impl From<AllocError> for Fault {
    fn from(error: AllocError) -> Fault {
        Fault::Failed(io::Error::from(error))
    }
}

impl<T: Drop> From<AllocFailed<T>> for Fault {
    fn from(failed: AllocFailed<T>) -> Fault {
        Fault::from(AllocError::from(failed))
    }
}

// A number that is no word.
impl From<num::TryFromIntError> for Fault {
    fn from(_error: num::TryFromIntError) -> Fault {
        Fault::Unread
    }
}
