// What ends a run before the end of its input.
use std::alloc::{AllocError, AllocFailed};
use std::io;

// Each case has a meaning of its own.
#[derive(Drop)]
pub enum Stop {
    // a line that is no call
    BadCall,
    // a read that failed, or no memory for what was read
    Read(io::Error),
    // a write that failed
    Write(io::Error),
}

impl From<AllocError> for Stop {
    fn from(e: AllocError) -> Stop {
        Stop::Read(io::Error::from(e))
    }
}

impl<T: Drop> From<AllocFailed<T>> for Stop {
    fn from(e: AllocFailed<T>) -> Stop {
        Stop::Read(io::Error::from(e))
    }
}
