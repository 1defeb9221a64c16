//! The end of an engine, for those who embed one.
ghost use Rattle.std.specs.Prelude.{◌≡◌, ◌+◌, IsTrue, [], OnOk, IfErr};
ghost use Rattle.den_codec.specs.declared.error.Error.TheVariants.{StorageIoError};
ghost use Rattle.den_disk.specs.declared.place.Family.TheVariants.{Snapshot as snapshot_family};
ghost use Rattle.den_disk.specs.Goes.{Rose};
ghost use Rattle.den_journal.specs.Causes.{IsRefusal};
ghost use Rattle.den_journal.specs.Writes.{DiskTells, GoesOn};
ghost use Rattle.den_model.specs.Crash.{Survives};
ghost use Rattle.den_model.specs.Sizes.{store_rise};
ghost use Rattle.den_core.specs.Closing.{KeepsStores};
ghost use Rattle.den_core.specs.Full.{IsFullBy};
ghost use Rattle.den_core.specs.Making.{CanGoOn};
ghost use Rattle.den_core.specs.Spared.{SparesFamily};

use crate::{Core, Engine, Stepper};
use den_codec::Error;
use den_disk::Disk;
use den_state::StateMachine;
use den_store::{LogStore, MetaStore};

impl<G, T, M, K> Engine<G, T, M, K> {
    /// Puts all files on the disk, and lets the engine go. Nothing that was answered rests on it: a crash inside leaves what
    /// the files stood for, and each store's files give the log, the hard state or the map that it held. Where the disk
    /// tells its bytes it writes nothing, and is refused for a fault alone.
    pub fn close<D: Disk>(self, disk: &mut D) -> Result<(), Error>
    where
        G: LogStore<D>,
        T: MetaStore<D>,
        M: StateMachine<D>,
        K: Core<D>,
        requires stands { CanGoOn D.Disk (⟦<Engine<G, T, M, K> as Stepper<D>>⟧.seen self) disk.old }
        ensures goes_on { GoesOn D.Disk disk.old disk.new }
        ensures snapshot { DiskTells D.Disk disk.old → SparesFamily snapshot_family D.content D.moment D.images disk.old disk.new }
        ensures keeps { DiskTells D.Disk disk.old → KeepsStores D.Disk disk.old disk.new G.holds T.holds M.holds
            (G.shown self.log).value (T.shown self.meta).value (M.map self.state) }
        ensures stays { DiskTells D.Disk disk.old → ⟦<Engine<G, T, M, K> as Stepper<D>>⟧.says.told
            → Survives ⟦<Engine<G, T, M, K> as Stepper<D>>⟧.says.holds (D.images disk.new) (D.moment disk.old) (D.moment disk.new) [] (⟦<Engine<G, T, M, K> as Stepper<D>>⟧.seen self).kv [] }
        ensures flushed { OnOk result (DiskTells D.Disk disk.old → (D.content disk.new).pending ≡ []) }
        ensures faulted { IfErr result (λ e. DiskTells D.Disk disk.old → e ≡ StorageIoError) }
        ensures refused { IfErr result (IsRefusal (Rose (D.faults disk.old) (D.faults disk.new)) (D.kind disk.old).limit) }
        ensures full { IfErr result (IsFullBy (DiskTells D.Disk disk.old) (λ needed. ⊥) (D.kind disk.old).limit ((⟦<Engine<G, T, M, K> as Stepper<D>>⟧.seen self).weight + store_rise 0)) }
    {
        let log = self.log;
        let state = self.state;
        state.close(disk)?;
        log.close(disk)
    }
}
