//! The configuration that a source gives.
ghost use Rattle.std.specs.Prelude.{◌≡◌, ◌+◌, ◌≤◌, ◌++◌, [], IsTrue, IfOk, IfErr, OnOk, length, vec_len};
ghost use Rattle.den_disk.specs.Goes.{Rose, SourceGoesOn};
ghost use Rattle.den_config.specs.Refusals.{IsRefusal};
ghost use Rattle.den_config.specs.Rows.{values_of};
ghost use Rattle.den_config.specs.Sources.{IsSourceRefusal, configuration_in, solo_configuration_in};

use crate::text::{TEXT_LIMIT, read};
use den_codec::{ConfigPlace, Error, RaftNodeConfig, SoloConfig};
use den_disk::{Piece, Source};
use std::alloc::{AllocError, Global};

/// How many bytes are read at once.
const PIECE: usize = 4096;

/// The most that is held of a source: the longest text and a piece.
const HELD: usize = TEXT_LIMIT + PIECE;

/// Adds a piece to what is held. Room is taken for twice as much, and for no more than the most.
fn add(held: &mut Vec<u8>, piece: &[u8]) -> Result<(), AllocError>
    requires { vec_len held.old + length piece.now ≤ HELD }
    ensures held { OnOk result (held.new.items ≡ held.old.items ++ piece.now) }
    ensures length { OnOk result (vec_len held.new ≡ vec_len held.old + length piece.now) }
{
    if held.capacity() - held.len() < piece.len() {
        let more = held.len().max(piece.len()).min(HELD - held.len());
        held.reserve_exact(more)?;
    }
    held.extend_from_slice(piece)
}

/// The bytes of a source, to its end. A source that gives more than a text may have is refused once it has given more.
fn bytes_of<S: Source>(alloc: Global, conf: &mut S) -> Result<Vec<u8>, Error>
    ensures on { SourceGoesOn S.tells S.faults conf.old conf.new }
    ensures bytes { IfOk result (λ bytes. IsTrue (S.tells conf.old) → S.left conf.old ≡ bytes.items) }
    ensures end { OnOk result (IsTrue (S.tells conf.old) → S.left conf.new ≡ []) }
    ensures stops { IsTrue (S.tells conf.old) → length (S.left conf.old) ≤ length (S.left conf.new) + 1052672 }
    ensures refused { IfErr result (IsSourceRefusal (Rose (S.faults conf.old) (S.faults conf.new)) (IsTrue (S.tells conf.old)) (configuration_in (S.left conf.old))) }
{
    let mut held = Vec::new(alloc);
    let mut piece = [0; PIECE];
    while held.len() <= TEXT_LIMIT {
        match conf.read(&mut piece)? {
            Piece::Got(n) => add(&mut held, &piece[..n])?,
            Piece::End => return Ok(held),
        }
    }
    Err(Error::Config(ConfigPlace::Text))
}

/// The configuration that bytes give, which are to be UTF-8.
fn read_bytes(alloc: Global, bytes: &[u8]) -> Result<RaftNodeConfig, Error>
    ensures given { IfOk result (λ c. configuration_in bytes.now ≡ Ok (values_of c)) }
    ensures refused { IfErr result (IsRefusal (configuration_in bytes.now)) }
{
    match str::from_utf8(bytes) {
        Ok(text) => read(alloc, text),
        Err(_) => Err(Error::Config(ConfigPlace::Text)),
    }
}

/// The configuration that a source gives. It is read to its end, or until it has given more than 1,048,576 bytes. A refusal
/// is `ConfigFault` where a read failed, else it names the first key whose test fails, or `Text` where the bytes are more
/// than 1,048,576, no UTF-8 or no TOML.
pub fn read_source<S: Source>(alloc: Global, conf: &mut S) -> Result<RaftNodeConfig, Error>
    // The count of faults does not fall.
    ensures on { SourceGoesOn S.tells S.faults conf.old conf.new }

    // At Ok the bytes that were left give the configuration, and none are left.
    ensures given { IfOk result (λ c. IsTrue (S.tells conf.old) → configuration_in (S.left conf.old) ≡ Ok (values_of c)) }
    ensures end { OnOk result (IsTrue (S.tells conf.old) → S.left conf.new ≡ []) }

    // No more is read than the longest text and a piece.
    ensures stops { IsTrue (S.tells conf.old) → length (S.left conf.old) ≤ length (S.left conf.new) + 1052672 }

    // Want of memory is free; a fault comes only where the count rose; a key is the one that the bytes are refused for.
    ensures refused { IfErr result (IsSourceRefusal (Rose (S.faults conf.old) (S.faults conf.new)) (IsTrue (S.tells conf.old)) (configuration_in (S.left conf.old))) }
{
    let bytes = bytes_of(alloc, conf)?;
    read_bytes(alloc, &bytes)
}

/// The same, of one voter: `Config(InitialCluster)` too where the configuration is not of one.
pub fn read_solo<S: Source>(alloc: Global, conf: &mut S) -> Result<SoloConfig, Error>
    // The count of faults does not fall.
    ensures on { SourceGoesOn S.tells S.faults conf.old conf.new }

    // At Ok the bytes that were left give the configuration, and none are left.
    ensures given { IfOk result (λ c. IsTrue (S.tells conf.old) → solo_configuration_in (S.left conf.old) ≡ Ok (values_of c.node)) }
    ensures end { OnOk result (IsTrue (S.tells conf.old) → S.left conf.new ≡ []) }

    // No more is read than the longest text and a piece.
    ensures stops { IsTrue (S.tells conf.old) → length (S.left conf.old) ≤ length (S.left conf.new) + 1052672 }

    // Want of memory is free; a fault comes only where the count rose; a key is the one that the bytes are refused for.
    ensures refused { IfErr result (IsSourceRefusal (Rose (S.faults conf.old) (S.faults conf.new)) (IsTrue (S.tells conf.old)) (solo_configuration_in (S.left conf.old))) }
{
    match read_source(alloc, conf)?.solo() {
        Ok(config) => Ok(config),
        Err(error) => Err(error),
    }
}
