//! The exit status, and the line that goes with it.
ghost use Rattle.std.specs.Prelude.{◌≡◌, ◌++◌, ◌<◌, IsTrue, IsErr, OnOk, length};
ghost use Rattle.den_disk.specs.Goes.{Rose, HasCause, SinkGoesOn};
ghost use Rattle.den_codec.specs.ConfigPlaces.{key};
ghost use Rattle.den_serving.specs.Status.{status_of, status_of_error, file_name, corruption_front, corruption_end, corruption_line, key_line, line_of, line_of_error, IsFixed, IsWrittenFront};

use den_codec::{ConfigPlace, Error};
use den_disk::{Sink, SinkFault};
use itoa::Buffer;

const USAGE: &str =
    "den_server: usage: den_server FOLDER [--config FILE] [--listen PORT] [--drive N]\n";

/// What the program's words came to: a run's answer, or none where they do not parse.
pub type Answer = Option<Result<(), Error>>;

fn status_of_error(error: Error) -> u8
    ensures { result ≡ status_of_error error }
{
    match error {
        Error::OutOfMemory => 1,
        Error::StorageIoError => 5,
        Error::LinkFault => 6,
        Error::DiskFull { .. } => 7,
        Error::DataCorruption { .. } => 8,
        Error::FeatureNotEnabled => 9,
        Error::ProposeFailed => 10,
        Error::Config(_) => 3,
        Error::ConfigFault => 4,
        Error::UnorderedChunk { .. } | Error::StateMachineError => 1,
    }
}

/// The exit status of an answer.
pub fn status_of(answer: Answer) -> u8
    ensures { result ≡ status_of answer }
{
    match answer {
        None => 2,
        Some(Ok(())) => 0,
        Some(Err(error)) => status_of_error(error),
    }
}

/// The name of the file of this number.
#[tactic(auto, unfolding(crate::specs::Status::file_name))]
fn file_name(number: u8) -> &'static str
    ensures name { result.now ≡ file_name number }
    ensures some { 0 < length result.now }
{
    match number {
        0 => "log.head",
        1 => "log.a",
        2 => "log.b",
        3 => "meta.head",
        4 => "meta.a",
        5 => "meta.b",
        6 => "state.head",
        7 => "state.a",
        8 => "state.b",
        9 => "snapshot.head",
        10 => "snapshot.a",
        _ => "snapshot.b",
    }
}

/// The line of an error that names neither a file nor a key.
fn fixed_line(error: Error) -> &'static str
    ensures line { IsFixed error → result.now ≡ line_of_error error }
    ensures some { 0 < length result.now }
{
    match error {
        Error::StorageIoError => "den_server: storage fault\n",
        Error::LinkFault => "den_server: link fault\n",
        Error::DiskFull { .. } => "den_server: disk limit reached\n",
        Error::FeatureNotEnabled => "den_server: lease is not enabled\n",
        Error::ProposeFailed => "den_server: term or index exhausted\n",
        Error::ConfigFault => "den_server: configuration cannot be read\n",
        Error::OutOfMemory
        | Error::DataCorruption { .. }
        | Error::UnorderedChunk { .. }
        | Error::Config(_)
        | Error::StateMachineError => "den_server: out of memory\n",
    }
}

/// Writes a piece behind what was written of a line. After a fault nothing more is written.
fn write_on<E: Sink>(errs: &mut E, piece: &[u8]) -> Result<(), SinkFault>
    requires { 0 < length piece.now }
    ensures errs { SinkGoesOn E.tells E.written E.faults errs.old errs.new }
    ensures cause { HasCause (E.faults errs.old) (E.faults errs.new) (IsErr result) }
    ensures all { OnOk result (IsTrue (E.tells errs.old) → E.written errs.new ≡ E.written errs.old ++ piece.now) }
    ensures front { IsTrue (E.tells errs.old) → IsWrittenFront piece.now (E.written errs.old) (E.written errs.new) }
{
    errs.write(piece)
}

/// Writes that a file is corrupt, and which.
#[tactic(auto, unfolding(crate::specs::Status::corruption_front))]
fn write_front<E: Sink>(errs: &mut E, place: u8) -> Result<(), SinkFault>
    ensures errs { SinkGoesOn E.tells E.written E.faults errs.old errs.new }
    ensures cause { HasCause (E.faults errs.old) (E.faults errs.new) (IsErr result) }
    ensures all { OnOk result (IsTrue (E.tells errs.old) → E.written errs.new ≡ E.written errs.old ++ corruption_front place) }
    ensures front { IsTrue (E.tells errs.old) → IsWrittenFront (corruption_front place) (E.written errs.old) (E.written errs.new) }
{
    write_on(errs, b"den_server: data corruption in ")?;
    write_on(errs, file_name(place).as_bytes())
}

/// Writes where a file is corrupt.
#[tactic(auto, unfolding(crate::specs::Status::corruption_end))]
fn write_end<E: Sink>(errs: &mut E, offset: u64) -> Result<(), SinkFault>
    ensures errs { SinkGoesOn E.tells E.written E.faults errs.old errs.new }
    ensures cause { HasCause (E.faults errs.old) (E.faults errs.new) (IsErr result) }
    ensures all { OnOk result (IsTrue (E.tells errs.old) → E.written errs.new ≡ E.written errs.old ++ corruption_end offset) }
    ensures front { IsTrue (E.tells errs.old) → IsWrittenFront (corruption_end offset) (E.written errs.old) (E.written errs.new) }
{
    let mut buffer = Buffer::new();
    write_on(errs, b" at ")?;
    write_on(errs, buffer.format(offset).as_bytes())?;
    write_on(errs, b"\n")
}

/// Writes the line of a corrupt file, in pieces, since it takes no memory.
fn write_corruption<E: Sink>(errs: &mut E, place: u8, offset: u64) -> Result<(), SinkFault>
    ensures errs { SinkGoesOn E.tells E.written E.faults errs.old errs.new }
    ensures cause { HasCause (E.faults errs.old) (E.faults errs.new) (IsErr result) }
    ensures all { OnOk result (IsTrue (E.tells errs.old) → E.written errs.new ≡ E.written errs.old ++ corruption_line place offset) }
    ensures front { IsTrue (E.tells errs.old) → IsWrittenFront (corruption_line place offset) (E.written errs.old) (E.written errs.new) }
{
    write_front(errs, place)?;
    write_end(errs, offset)
}

/// Writes that a key of the configuration was refused, and which.
#[tactic(auto, unfolding(crate::specs::Status::key_line))]
fn write_key<E: Sink>(errs: &mut E, place: ConfigPlace) -> Result<(), SinkFault>
    ensures errs { SinkGoesOn E.tells E.written E.faults errs.old errs.new }
    ensures cause { HasCause (E.faults errs.old) (E.faults errs.new) (IsErr result) }
    ensures all { OnOk result (IsTrue (E.tells errs.old) → E.written errs.new ≡ E.written errs.old ++ key_line place) }
    ensures front { IsTrue (E.tells errs.old) → IsWrittenFront (key_line place) (E.written errs.old) (E.written errs.new) }
{
    write_on(errs, b"den_server: bad configuration at ")?;
    write_on(errs, place.key().as_bytes())?;
    write_on(errs, b"\n")
}

fn write_line<E: Sink>(errs: &mut E, answer: Answer) -> Result<(), SinkFault>
    ensures errs { SinkGoesOn E.tells E.written E.faults errs.old errs.new }
    ensures cause { HasCause (E.faults errs.old) (E.faults errs.new) (IsErr result) }
    ensures all { OnOk result (IsTrue (E.tells errs.old) → E.written errs.new ≡ E.written errs.old ++ line_of answer) }
    ensures front { IsTrue (E.tells errs.old) → IsWrittenFront (line_of answer) (E.written errs.old) (E.written errs.new) }
{
    match answer {
        Some(Ok(())) => Ok(()),
        Some(Err(Error::DataCorruption { place, offset })) => write_corruption(errs, place, offset),
        Some(Err(Error::Config(place))) => write_key(errs, place),
        Some(Err(error)) => write_on(errs, fixed_line(error).as_bytes()),
        None => write_on(errs, USAGE.as_bytes()),
    }
}

/// Writes the line of an answer. A fault of the sink changes nothing else.
pub fn tell<E: Sink>(errs: &mut E, answer: Answer)
    ensures errs { SinkGoesOn E.tells E.written E.faults errs.old errs.new }
    ensures line { IsTrue (E.tells errs.old) → (Rose (E.faults errs.old) (E.faults errs.new) → ⊥) → E.written errs.new ≡ E.written errs.old ++ line_of answer }
    ensures front { IsTrue (E.tells errs.old) → IsWrittenFront (line_of answer) (E.written errs.old) (E.written errs.new) }
{
    match write_line(errs, answer) {
        Ok(()) | Err(_) => {}
    }
}
