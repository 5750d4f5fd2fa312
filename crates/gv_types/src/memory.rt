use std::alloc::{AllocError, AllocFailed};
use std::error::Error;
use std::fmt;

/// Want of memory. A call that answers it may have changed its object, unless its contract says
/// that the object is as before.
#[derive(Clone, Copy, Debug, PartialEq, Eq)]
pub struct OutOfMemory;

impl fmt::Display for OutOfMemory {
    fn fmt<W: fmt::Write>(&self, f: &mut fmt::Formatter<W>) -> fmt::Result {
        write!(f, "out of memory")
    }
}

impl Error for OutOfMemory {}

impl From<AllocError> for OutOfMemory {
    fn from(_: AllocError) -> Self {
        OutOfMemory
    }
}

impl<T: Drop> From<AllocFailed<T>> for OutOfMemory {
    fn from(_: AllocFailed<T>) -> Self {
        OutOfMemory
    }
}

#[cfg(test)]
mod tests {
    use crate::OutOfMemory;
    use std::test::Fail;

    #[test]
    fn want_of_memory_is_told_in_words(rt: HostRuntime) -> Result<(), Fail> {
        let told = format!(in rt.alloc(); "{OutOfMemory}")?;
        assert_eq!(rt; told.as_str(), "out of memory");
        Ok(())
    }
}
