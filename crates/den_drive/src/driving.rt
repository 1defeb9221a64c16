//! A drive: requests that are made, served and counted.
ghost use Rattle.std.specs.Prelude.{◌≡◌, ◌<◌, ◌≤◌, ◌^◌, [], IfOk, IfErr, OnOk, length, map};
ghost use Rattle.den_codec.specs.declared.error.Error.TheVariants.{OutOfMemory};
ghost use Rattle.den_model.specs.declared.reply.Reply.TheVariants.{Scan};
ghost use Rattle.den_model.specs.declared.reply.ScanResult.{ScanResult};
ghost use Rattle.den_model.specs.Spelling.{reply_word};
ghost use Rattle.den_drive.specs.Report.{EndsWith, IsReport};
ghost use Rattle.den_drive.specs.Serving.{IsWant, answered};

use crate::DriveReport;
use crate::feed::Feed;
use crate::generate::drive_input;
use crate::moments::Moments;
use crate::tail::{last_body, scanned};
use den_codec::Error;
use den_disk::{Link, MemDisk};
use den_server::StandaloneEngine;
use std::alloc::Global;

// No fault is set on what the drive serves over, so a fault there is want of memory.
fn want_of(error: Error) -> Error
    requires { IsWant error }
    ensures { result ≡ OutOfMemory }
{
    match error {
        Error::OutOfMemory | Error::StorageIoError | Error::LinkFault => Error::OutOfMemory,
        Error::DiskFull { .. }
        | Error::DataCorruption { .. }
        | Error::FeatureNotEnabled
        | Error::ProposeFailed
        | Error::UnorderedChunk { .. }
        | Error::Config(_)
        | Error::ConfigFault
        | Error::StateMachineError => unreachable!(),
    }
}

// Serves a link from nothing, over a disk and a clock in memory.
fn serve(alloc: Global, link: &mut Feed) -> Result<(), Error>
    requires unsent { ⟦<Feed as Link>⟧.sent link.old ≡ [] }
    ensures sent { OnOk result (map (λ s. s.0) (⟦<Feed as Link>⟧.sent link.new) ≡ answered (⟦<Feed as Link>⟧.left link.old)) }
    ensures refused { IfErr result (λ e. e ≡ OutOfMemory) }
{
    let mut disk = MemDisk::new(alloc);
    let mut clock = Moments::new();
    match StandaloneEngine::run_default(alloc, &mut disk, link, &mut clock) {
        Ok(()) => {
            if clock.counts() {
                Ok(())
            } else {
                Err(Error::OutOfMemory)
            }
        }
        Err(error) => Err(want_of(error)),
    }
}

// The report of so many requests, by what was sent.
fn report_of(requests: u32, sent: &[u8]) -> DriveReport
    ensures requests { result.requests ≡ requests }
    ensures bytes { result.bytes ≡ length sent.now }
    ensures scanned { (r : ScanResult) → EndsWith sent.now (reply_word (Scan r)) → r.revision < 2 ^ 64
        → (result.index ≡ r.revision) × (result.keys ≡ length r.entries) }
{
    let (index, keys) = scanned(last_body(sent));
    DriveReport {
        requests,
        keys,
        index,
        bytes: sent.len() as u64,
    }
}

/// Serves so many generated requests and a scan behind them, over a disk, a link and a clock of its own, and reports what
/// came of them. Its only refusal is want of memory.
pub fn drive(alloc: Global, n: u32) -> Result<DriveReport, Error>
    requires few { n ≤ 1000000 }
    ensures report { IfOk result (λ r. IsReport n r.requests r.keys r.index r.bytes) }
    ensures refused { IfErr result (λ e. e ≡ OutOfMemory) }
{
    let input = drive_input(alloc, n)?;
    let mut link = Feed::new(alloc, input);
    serve(alloc, &mut link)?;
    Ok(report_of(n, link.sent()))
}
