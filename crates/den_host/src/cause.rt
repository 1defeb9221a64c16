//! What an operator is told of a fault.
ghost use Rattle.std.specs.Prelude.{◌≡◌};

use den_disk::Place;
use std::fmt::{Display, Formatter};
use std::io::ErrorKind;
use std::{fmt, io};

/// Why a call of an adapter failed. It prints as a text for the operator, as `log.a: No space left on device (os error
/// 28)`.
#[derive(Clone, Copy, Debug)]
pub enum Cause {
    /// The word for the folder is empty.
    NoName,
    /// Another server has the folder's lock.
    InUse,
    /// A call on the file of a place failed, or one on the folder itself, which has no place.
    Call(Option<Place>, Why),
    /// A sync of it failed, so that the disk may not have what reads still show.
    Sync(Option<Place>, Why),
    /// A read of standard input failed.
    Input(Why),
    /// A write to standard output failed.
    Output(Why),
    /// A port could not be listened on, or gave no connection.
    Port(u16, Why),
    /// A read of the connection failed.
    Receive(Why),
    /// A write to the connection failed.
    Send(Why),
    /// The file of the configuration could not be opened, or a read of it failed.
    Configuration(Why),
}

/// What is kept of an error: the operating system's number, or the kind of one that is not the system's.
#[derive(Clone, Copy, Debug)]
pub enum Why {
    System(i32),
    Kind(ErrorKind),
}

impl From<io::Error> for Why {
    fn from(error: io::Error) -> Why {
        match error.raw_os_error() {
            Some(code) => Why::System(code),
            None => Why::Kind(error.kind()),
        }
    }
}

impl Display for Why {
    fn fmt<W: fmt::Write>(&self, f: &mut Formatter<W>) -> fmt::Result {
        match *self {
            Why::System(code) => io::Error::from_raw_os_error(code).fmt(f),
            Why::Kind(kind) => kind.fmt(f),
        }
    }
}

// The name of the file of a place, or that of the folder itself.
fn name(place: Option<Place>) -> &'static str {
    match place {
        Some(place) => place.name(),
        None => "the folder",
    }
}

impl Display for Cause {
    fn fmt<W: fmt::Write>(&self, f: &mut Formatter<W>) -> fmt::Result {
        match *self {
            Cause::NoName => f.write_str("the folder has no name"),
            Cause::InUse => f.write_str("the folder is in use by another server"),
            Cause::Call(place, why) => write!(f, "{}: {why}", name(place)),
            Cause::Sync(place, why) => write!(f, "{}: a sync failed: {why}", name(place)),
            Cause::Input(why) => write!(f, "standard input: {why}"),
            Cause::Output(why) => write!(f, "standard output: {why}"),
            Cause::Port(port, why) => write!(f, "port {port}: {why}"),
            Cause::Receive(why) => write!(f, "what the client sends: {why}"),
            Cause::Send(why) => write!(f, "what is sent to the client: {why}"),
            Cause::Configuration(why) => write!(f, "the configuration's file: {why}"),
        }
    }
}

// Hands on what a call gave, and keeps why it failed.
pub(crate) fn noted<T>(kept: &mut Option<Cause>, call: Result<T, Cause>) -> Result<T, Cause>
    ensures { result ≡ call }
{
    if let Err(cause) = &call {
        *kept = Some(*cause);
    }
    call
}

#[cfg(test)]
mod tests {
    use super::*;
    use den_disk::{Family, Part};
    use std::test::Fail;

    #[test]
    fn tells_place_and_error(rt: HostRuntime) -> Result<(), Fail> {
        let place = Place {
            family: Family::Log,
            part: Part::A,
        };
        let full = Cause::Call(Some(place), Why::System(28));
        assert_eq!(rt;
            full.to_string(rt.alloc())?.as_str(),
            "log.a: No space left on device (os error 28)"
        );
        let lost = Cause::Sync(None, Why::Kind(ErrorKind::Other));
        assert_eq!(rt;
            lost.to_string(rt.alloc())?.as_str(),
            "the folder: a sync failed: other error"
        );
        Ok(())
    }
}
