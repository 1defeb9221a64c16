//! A server over stores, a state machine and a core of the caller's own.
ghost use Rattle.std.specs.Prelude.{◌≡◌, IsTrue, OnOk, IfErr};
ghost use Rattle.den_server.specs.Custom.{AreAtRest, AreReady, HasCause, IsAnsweredSo, LeavesShortLog, LeavesShortState, RefusesUntouched, SendsFront, ServesPlan, SurvivesAlways, handed};
ghost use Rattle.den_server.specs.Promises.{AllGoOn};

use crate::StandaloneEngine;
use den_codec::{Error, RaftNodeConfig};
use den_core::{Core, recover, run_from};
use den_disk::{Clock, Disk, Link};
use den_state::StateMachine;
use den_store::{LogStore, MetaStore, StorageEngine};
use std::alloc::Global;

/// Opens an engine over stores, and serves the frames of a link, to the end of its input.
fn run_over<
    D: Disk,
    G: LogStore<D>,
    T: MetaStore<D>,
    M: StateMachine<D>,
    K: Core<D>,
    L: Link,
    C: Clock,
>(
    alloc: Global,
    disk: &mut D,
    log: G,
    meta: T,
    state: M,
    core: K,
    link: &mut L,
    clock: &mut C,
    config: &RaftNodeConfig,
) -> Result<(), Error>
    requires ready { AreReady (handed G.LogStore T.MetaStore M.StateMachine log meta state) }
    requires rests { IsTrue (D.kind disk.old).tells → AreAtRest (handed G.LogStore T.MetaStore M.StateMachine log meta state) (D.content disk.old) }

    // At Ok the input was read to its end, one reading was taken at opening and one for each frame, and exactly the plan's
    // output was sent, whether the stores tell what their files give or not. Where they tell it, each image of the disk
    // stands for the plan's end, with the plan's entries in the log.
    ensures served { OnOk result (ServesPlan D.Disk L.Link C.Clock (handed G.LogStore T.MetaStore M.StateMachine log meta state)
        (K.view core) config.now disk.old disk.new link.old link.new clock.old clock.new) }

    // At Ok the log that the files give holds no more entries than the configuration allows, whatever the core's role.
    ensures short { OnOk result (LeavesShortLog D.Disk L.Link C.Clock (handed G.LogStore T.MetaStore M.StateMachine log meta state)
        (K.view core) config.now disk.old disk.new link.old link.new clock.old clock.new) }

    // Where the core leads the state machine asks for no checkpoint then.
    ensures state_short { OnOk result (LeavesShortState D.Disk L.Link C.Clock (handed G.LogStore T.MetaStore M.StateMachine log meta state)
        (K.view core) config.now disk.old disk.new link.old link.new clock.old clock.new M.shown M.map M.short) }

    // At every exit what was sent is a front of the plan's output, whatever is told of the disk and its files.
    ensures prefix { SendsFront D.Disk L.Link C.Clock (handed G.LogStore T.MetaStore M.StateMachine log meta state)
        (K.view core) config.now disk.old disk.new link.old link.new clock.old clock.new }

    // Where the stores tell what their files give: at every exit, and after a crash at any moment, inside a call too, the
    // disk stands for the state after a prefix of the plan that holds each step of which a byte was sent.
    ensures any_moment { SurvivesAlways D.Disk L.Link C.Clock (handed G.LogStore T.MetaStore M.StateMachine log meta state)
        (K.view core) config.now disk.old disk.new link.old link.new clock.old clock.new }

    // Each other answer has its cause: what opening refuses, and nothing else where it refuses; else a fault of the disk
    // or the link where its count rose, or a full disk, with the room that one of its slots would need.
    ensures refused { IfErr result (HasCause D.Disk L.Link C.Clock (handed G.LogStore T.MetaStore M.StateMachine log meta state)
        (K.view core) config.now disk.old disk.new link.old link.new clock.old clock.new) }

    // What opening refuses is refused: nothing is written, read, sent or timed.
    ensures turned_away { RefusesUntouched D.Disk L.Link C.Clock (handed G.LogStore T.MetaStore M.StateMachine log meta state)
        (K.view core) config.now disk.old disk.new link.old link.new clock.old clock.new (λ e. IsAnsweredSo e result) }

    // Disk, link and clock go on as over any call; the files of the snapshot stay as they are, and a crash leaves them as
    // it could at entry.
    ensures goes_on { AllGoOn D.Disk L.Link C.Clock disk.old disk.new link.old link.new clock.old clock.new }
{
    let mut engine = match recover(alloc, disk, log, meta, state, core, config) {
        Ok(engine) => engine,
        Err(error) => return Err(error),
    };
    let limit = config.network.max_frame_size;
    run_from(&mut engine, disk, link, clock, limit, alloc)
}

impl StandaloneEngine {
    /// Serves the frames of a link, to the end of its input, over stores, a state machine and a core of the caller's
    /// own, as they were opened. Each write is in the stores before a byte of its reply is sent. A core that does not
    /// lead begins no term, and answers who leads; its log is purged at opening where it is too long. A log and a map
    /// that disagree are refused as `DataCorruption`, those that ask for a lease where the state machine has none as
    /// `FeatureNotEnabled`, those that leave no term or index as `ProposeFailed`; nothing is written then.
    pub fn run_custom<
        D: Disk,
        E: StorageEngine<D>,
        M: StateMachine<D>,
        K: Core<D>,
        L: Link,
        C: Clock,
    >(
        alloc: Global,
        disk: &mut D,
        storage: E,
        state: M,
        core: K,
        link: &mut L,
        clock: &mut C,
        config: &RaftNodeConfig,
    ) -> Result<(), Error>
        requires ready { AreReady (handed E.Log.LogStore E.Meta.MetaStore M.StateMachine (E.its_log storage) (E.its_meta storage) state) }
        requires rests { IsTrue (D.kind disk.old).tells → AreAtRest (handed E.Log.LogStore E.Meta.MetaStore M.StateMachine (E.its_log storage) (E.its_meta storage) state) (D.content disk.old) }

        // At Ok the input was read to its end, one reading was taken at opening and one for each frame, and exactly the plan's
        // output was sent, whether the stores tell what their files give or not. Where they tell it, each image of the disk
        // stands for the plan's end, with the plan's entries in the log.
        ensures served { OnOk result (ServesPlan D.Disk L.Link C.Clock (handed E.Log.LogStore E.Meta.MetaStore M.StateMachine (E.its_log storage) (E.its_meta storage) state)
            (K.view core) config.now disk.old disk.new link.old link.new clock.old clock.new) }

        // At Ok the log that the files give holds no more entries than the configuration allows, whatever the core's
        // role.
        ensures short { OnOk result (LeavesShortLog D.Disk L.Link C.Clock (handed E.Log.LogStore E.Meta.MetaStore M.StateMachine (E.its_log storage) (E.its_meta storage) state)
            (K.view core) config.now disk.old disk.new link.old link.new clock.old clock.new) }

        // Where the core leads the state machine asks for no checkpoint then.
        ensures state_short { OnOk result (LeavesShortState D.Disk L.Link C.Clock (handed E.Log.LogStore E.Meta.MetaStore M.StateMachine (E.its_log storage) (E.its_meta storage) state)
            (K.view core) config.now disk.old disk.new link.old link.new clock.old clock.new M.shown M.map M.short) }

        // At every exit what was sent is a front of the plan's output, whatever is told of the disk and its files.
        ensures prefix { SendsFront D.Disk L.Link C.Clock (handed E.Log.LogStore E.Meta.MetaStore M.StateMachine (E.its_log storage) (E.its_meta storage) state)
            (K.view core) config.now disk.old disk.new link.old link.new clock.old clock.new }

        // Where the stores tell what their files give: at every exit, and after a crash at any moment, inside a call too, the
        // disk stands for the state after a prefix of the plan that holds each step of which a byte was sent.
        ensures any_moment { SurvivesAlways D.Disk L.Link C.Clock (handed E.Log.LogStore E.Meta.MetaStore M.StateMachine (E.its_log storage) (E.its_meta storage) state)
            (K.view core) config.now disk.old disk.new link.old link.new clock.old clock.new }

        // Each other answer has its cause: what opening refuses, and nothing else where it refuses; else a fault of the disk
        // or the link where its count rose, or a full disk, with the room that one of its slots would need.
        ensures refused { IfErr result (HasCause D.Disk L.Link C.Clock (handed E.Log.LogStore E.Meta.MetaStore M.StateMachine (E.its_log storage) (E.its_meta storage) state)
            (K.view core) config.now disk.old disk.new link.old link.new clock.old clock.new) }

        // What opening refuses is refused: nothing is written, read, sent or timed.
        ensures turned_away { RefusesUntouched D.Disk L.Link C.Clock (handed E.Log.LogStore E.Meta.MetaStore M.StateMachine (E.its_log storage) (E.its_meta storage) state)
            (K.view core) config.now disk.old disk.new link.old link.new clock.old clock.new (λ e. IsAnsweredSo e result) }

        // Disk, link and clock go on as over any call; the files of the snapshot stay as they are, and a crash leaves them as
        // it could at entry.
        ensures goes_on { AllGoOn D.Disk L.Link C.Clock disk.old disk.new link.old link.new clock.old clock.new }
    {
        let (log, meta) = storage.split();
        run_over(alloc, disk, log, meta, state, core, link, clock, config)
    }
}
