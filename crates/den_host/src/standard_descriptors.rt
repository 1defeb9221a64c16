//! The descriptors of standard input, output and error.
use std::rt::Files;
use std::{fs, io};

/// Three handles of the null device, which keep the descriptors 0, 1 and 2 from files that are opened later. The system
/// gives the lowest number that is free: where a program was started with one of the three closed, a handle has that
/// number as long as this value lives. Reading there gives an end of input, and a write fails, since the handle is open
/// for reading alone.
#[derive(Drop)]
pub struct StandardDescriptors<F> {
    _first: F,
    _second: F,
    _third: F,
}

impl<F> StandardDescriptors<F> {
    /// Opens the three handles. This comes before anything else is opened.
    pub fn hold<R: Files<File = F>>(rt: &R) -> io::Result<StandardDescriptors<F>> {
        Ok(StandardDescriptors {
            _first: fs::open(rt, NULL_DEVICE)?,
            _second: fs::open(rt, NULL_DEVICE)?,
            _third: fs::open(rt, NULL_DEVICE)?,
        })
    }
}

const NULL_DEVICE: &str = "/dev/null";

#[cfg(test)]
mod tests {
    use super::*;
    use std::test::Fail;

    #[test]
    fn opens_the_null_device(rt: HostRuntime) -> Result<(), Fail> {
        let _held = StandardDescriptors::hold(&rt)?;
        Ok(())
    }
}
