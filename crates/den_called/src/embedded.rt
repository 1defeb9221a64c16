//! An engine that is embedded: what its client is answered, who leads, and its end.
ghost use Rattle.std.specs.Prelude.{IfOk};

use crate::calls::{
    deletes, has_no_lease, has_no_such_prefix, has_one_member, is_closed, puts, reads, swaps,
    watches,
};
use den_client::{Caller, ClientApi};
use den_codec::{LeaderInfo, RaftNodeConfig, SoloConfig};
use den_disk::{Clock, Disk, ListClock, MemDisk};
use den_embed::{EmbeddedEngine, FolderCaller};
use den_node::{NodeError, Unstarted};
use den_proto::ClientApiError;
use std::alloc::Global;
use std::test::Fail;

// Opens the files of a disk.
fn start<D: Disk, C: Clock + Drop>(
    alloc: Global,
    disk: D,
    clock: C,
    config: SoloConfig,
) -> Result<EmbeddedEngine<FolderCaller<D>, C>, Unstarted<D>>
    ensures lawful { IfOk result (λ e. ⟦<FolderCaller<D> as Caller>⟧.lawful e.client.caller) }
{
    EmbeddedEngine::start(alloc, disk, clock, config)
}

// Whether its writes and reads are answered so.
fn writes<A: ClientApi>(alloc: Global, client: &mut A) -> Result<bool, ClientApiError>
    requires lawful { A.lawful client.old }
    ensures lawful { A.lawful client.new }
{
    Ok(puts(client)? && reads(alloc, client)? && swaps(client)? && deletes(client)?)
}

// Whether it is told of a lease, a watch and the members.
fn asks<A: ClientApi>(client: &mut A) -> Result<bool, ClientApiError>
    requires lawful { A.lawful client.old }
    ensures lawful { A.lawful client.new }
{
    Ok(
        has_no_lease(client)
            && watches(client)?
            && has_no_such_prefix(client)
            && has_one_member(client)?,
    )
}

// Whether all is answered so, by any engine.
fn is_answered<N: Caller, C: Clock>(
    alloc: Global,
    engine: &mut EmbeddedEngine<N, C>,
) -> Result<bool, ClientApiError>
    requires lawful { N.lawful engine.old.client.caller }
    ensures lawful { N.lawful engine.new.client.caller }
{
    let client = engine.client();
    Ok(writes(alloc, client)? && asks(client)?)
}

// Whether an engine is stopped, at the second time too, and its client finds it closed.
fn ends<N: Caller, C: Clock>(engine: &mut EmbeddedEngine<N, C>) -> Result<bool, NodeError>
    requires lawful { N.lawful engine.old.client.caller }
    ensures lawful { N.lawful engine.new.client.caller }
{
    let before = engine.is_stopped();
    engine.stop()?;
    engine.stop()?;
    Ok(!before && engine.is_stopped() && is_closed(engine.client()))
}

// Whether a client of a started engine is answered so.
fn answers<D: Disk + Drop, C: Clock + Drop>(
    alloc: Global,
    disk: D,
    clock: C,
    config: SoloConfig,
) -> Result<bool, Fail> {
    let Ok(mut engine) = start(alloc, disk, clock, config) else {
        return Ok(false);
    };
    Ok(is_answered(alloc, &mut engine)? && ends(&mut engine)?)
}

#[test]
fn answers_a_client(rt: HostRuntime) -> Result<(), Fail> {
    let alloc = rt.alloc();
    let config = RaftNodeConfig::standard(alloc)?.solo()?;
    let answered = answers(
        alloc,
        MemDisk::new(alloc),
        ListClock::steps(1000, 0),
        config,
    )?;
    assert!(rt; answered);
    Ok(())
}

// Who leads a started engine, at no look and at one, and whether that is itself.
fn looks<N, C>(
    engine: &EmbeddedEngine<N, C>,
) -> (
    Result<LeaderInfo, NodeError>,
    Result<LeaderInfo, NodeError>,
    bool,
) {
    (
        engine.wait_ready(0),
        engine.wait_ready(1),
        engine.is_leader() && engine.node_id() == 1,
    )
}

// Whether a started engine finds that it leads in the first term, where it may look once.
fn leads<N, C>(engine: &EmbeddedEngine<N, C>) -> bool {
    let (none, one, itself) = looks(engine);
    let first = LeaderInfo {
        leader_id: 1,
        term: 1,
    };
    none == Err(NodeError::Fatal)
        && one == Ok(first)
        && engine.leader_info() == Some(first)
        && itself
}

// Whether an engine that is started over a disk finds so.
fn waits<D: Disk + Drop, C: Clock + Drop>(
    alloc: Global,
    disk: D,
    clock: C,
    config: SoloConfig,
) -> bool {
    match start(alloc, disk, clock, config) {
        Ok(engine) => leads(&engine),
        Err(_) => false,
    }
}

#[test]
fn waits_for_itself(rt: HostRuntime) -> Result<(), Fail> {
    let alloc = rt.alloc();
    let config = RaftNodeConfig::standard(alloc)?.solo()?;
    assert!(rt;
        waits(
            alloc,
            MemDisk::new(alloc),
            ListClock::steps(1000, 0),
            config
        )
    );
    Ok(())
}
