//! An example: a queue of jobs in a program that embeds the engine. Jobs are keys under `/jobs/`; a worker takes one by a
//! swap, so that no two have the same, and a watch tells of all that happens to them.
//!
//! The engine keeps its files in a disk in memory here. With `FolderDisk` of `den_host` in its place they lie in a folder, and
//! each job that was added, taken or ended is on the disk when its call answers.
#![tactic(auto)]

ghost use Rattle.std.specs.Prelude.{IfOk};

mod queue;

use den_client::{Caller, ClientApi};
use den_codec::{RaftNodeConfig, SoloConfig};
use den_disk::{Clock, Disk, ListClock, MemDisk};
use den_embed::{EmbeddedEngine, FolderCaller};
use den_node::Unstarted;
use den_proto::ClientApiError;
use queue::{add, end, left, take};
use std::alloc::Global;
use std::process::ExitCode;

// Who got which job.
#[derive(Drop)]
struct Morning {
    anna: bool,
    ben: bool,
    ben_then: bool,
}

// Two jobs are added; both workers want the first, and then Ben the second.
fn spend_morning<A: ClientApi>(client: &mut A) -> Result<Morning, ClientApiError>
    requires lawful { A.lawful client.old }
    ensures lawful { A.lawful client.new }
{
    add(client, b"/jobs/1")?;
    add(client, b"/jobs/2")?;
    Ok(Morning {
        anna: take(client, b"/jobs/1", b"anna")?,
        ben: take(client, b"/jobs/1", b"ben")?,
        ben_then: take(client, b"/jobs/2", b"ben")?,
    })
}

// What is left behind the first job's end, and how many writes a watcher was told of.
#[derive(Drop)]
struct Day {
    morning: Morning,
    left: usize,
    told: usize,
}

fn spend_day<A: ClientApi>(client: &mut A) -> Result<Day, ClientApiError>
    requires lawful { A.lawful client.old }
    ensures lawful { A.lawful client.new }
{
    let watcher = client.watch_prefix(b"/jobs/")?;
    let morning = spend_morning(client)?;
    end(client, b"/jobs/1")?;
    let left = left(client)?;
    let told = client.take(&watcher)?.as_slice().len();
    Ok(Day {
        morning,
        left,
        told,
    })
}

// Opens the files of a disk.
fn start<D: Disk, C: Clock + Drop>(
    alloc: Global,
    disk: D,
    clock: C,
    config: SoloConfig,
) -> Result<EmbeddedEngine<FolderCaller<D>, C>, Unstarted<D>>
    ensures lawful { IfOk result (λ e. ⟦<FolderCaller<D> as Caller>⟧.lawful e.client.caller) }
{
    EmbeddedEngine::start(alloc, disk, clock, config)
}

// The day of an engine that is opened for it, or none where it cannot be.
fn lived<D: Disk + Drop, C: Clock + Drop>(
    alloc: Global,
    disk: D,
    clock: C,
    config: SoloConfig,
) -> Option<Day> {
    match start(alloc, disk, clock, config) {
        Ok(mut engine) => spend_day(engine.client()).ok(),
        Err(_) => None,
    }
}

// The default configuration, of one voter, with leases: a job may expire.
fn alone(alloc: Global) -> Option<SoloConfig> {
    let mut config = RaftNodeConfig::standard(alloc).ok()?;
    config.raft.lease.enabled = true;
    config.solo().ok()
}

fn whole(alloc: Global) -> Option<Day> {
    let config = alone(alloc)?;
    lived(
        alloc,
        MemDisk::new(alloc),
        ListClock::steps(1000, 1),
        config,
    )
}

fn main(rt: HostRuntime) -> ExitCode {
    let Some(day) = whole(rt.alloc()) else {
        return ExitCode::from(1);
    };
    let _ = println!(rt; "anna has the first job: {}", day.morning.anna);
    let _ = println!(rt; "ben has the first job: {}", day.morning.ben);
    let _ = println!(rt; "ben has the second job: {}", day.morning.ben_then);
    let _ = println!(rt; "jobs that are left: {}", day.left);
    let _ = println!(rt; "writes that a watcher was told of: {}", day.told);
    ExitCode::from(0)
}
