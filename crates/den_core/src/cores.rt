//! What decides: the part of a consensus core that an engine wants, and two bodies without a peer.
ghost use Rattle.std.specs.Prelude.{◌≡◌, ◌<◌, ◌+◌, ◌^◌, ◌-◌, true, [], ◌∷◌, IfOk, IfErr};
ghost use Rattle.den_disk.specs.declared.place.Family.TheVariants.{Log as log_family, Meta as meta_family};
ghost use Rattle.den_journal.specs.Writes.{StoreStands, Writes};
ghost use Rattle.den_model.specs.Image.{term_of};
ghost use Rattle.den_model.specs.Log.{last_index};
ghost use Rattle.den_model.specs.declared.region.LogRegion.TheVariants.{Append};
ghost use Rattle.den_model.specs.Step.{is_leader};
ghost use Rattle.den_store.specs.Changes.{log_change, state_change};
ghost use Rattle.den_core.specs.Cores.{CoreView, KeepsPlace, follower_view, solo_view};
ghost use Rattle.den_core.specs.Parts.{raised_by};

use crate::terms::current_term;
use den_codec::{Entry, Error, HardState, Label, LeaderHint, LeaderInfo, NodeMeta, VotedFor};
use den_disk::Disk;
use den_store::{LogStore, MetaStore};
use std::alloc::{AllocError, Global};

/// What decides for a node: its role, and in which term it writes. A leader commits entries. No call changes a core's role,
/// its hint or the id of its leader.
pub trait Core<D: Disk>: Drop {
    /// The node's id, its role, its hint and its leader.
    ghost view: { Self → CoreView };

    /// Follower 0, candidate 1, leader 2, learner 3.
    fn role(&self) -> i32
        ensures { result ≡ (view self.now).role };

    /// The node that leads, with its term as far as the core knows it.
    fn leader(&self) -> Option<LeaderInfo>
        ensures { result ≡ (view self.now).leader };

    /// Where a core that does not lead sends its callers.
    fn hint(&self, alloc: Global) -> Result<Option<LeaderHint>, AllocError>
        ensures { IfOk result (λ hint. hint ≡ (view self.now).hint) };

    /// Raises the term by one: saves it, with a vote for this node, and answers it. A crash inside leaves the old hard state
    /// or the new one.
    fn raise<T: MetaStore<D>>(&mut self, disk: &mut D, meta: &mut T) -> Result<u64, Error>
        requires stands { StoreStands D.Disk (T.shown meta.old) disk.old }
        requires room { term_of (T.shown meta.old).value < 2 ^ 64 - 1 }
        ensures writes { Writes D.Disk (T.shown meta.old) (T.shown meta.new) disk.old disk.new meta_family T.holds
            (state_change (raised_by (view self.old).id (T.shown meta.old).value)) result }
        ensures term { IfOk result (λ term. term ≡ term_of (T.shown meta.old).value + 1) }
        ensures same { KeepsPlace (view self.old) (view self.new) };

    /// Commits an entry behind the log's last: at Ok it is on the disk, and on as many nodes as it needs. A crash inside
    /// leaves the old log, or the one with this entry.
    fn commit<G: LogStore<D>>(
        &mut self,
        disk: &mut D,
        log: &mut G,
        entry: Entry,
    ) -> Result<(), Error>
        requires leads { is_leader (view self.old).role ≡ true }
        requires stands { StoreStands D.Disk (G.shown log.old) disk.old }
        requires above { last_index (G.shown log.old).value < entry.index }
        ensures writes { Writes D.Disk (G.shown log.old) (G.shown log.new) disk.old disk.new log_family G.holds
            (log_change (G.shown log.old).value (Append (entry ∷ []))) result }
        ensures same { view self.new ≡ view self.old };
}

/// A core that leads alone, in the term that it last raised.
#[derive(Debug, Drop)]
pub struct SoloCore {
    node: NodeMeta,
    term: u64,
}

impl SoloCore {
    /// Of this node, before it raised a term.
    pub fn new(node: NodeMeta) -> SoloCore
        ensures { solo_view result.node.id result.term ≡ solo_view node.id 0 }
    {
        SoloCore { node, term: 0 }
    }
}

// Saves the next term, with a vote for this node, and answers it.
fn save_next<D: Disk, T: MetaStore<D>>(id: u32, disk: &mut D, meta: &mut T) -> Result<u64, Error>
    requires stands { StoreStands D.Disk (T.shown meta.old) disk.old }
    requires room { term_of (T.shown meta.old).value < 2 ^ 64 - 1 }
    ensures writes { Writes D.Disk (T.shown meta.old) (T.shown meta.new) disk.old disk.new meta_family T.holds
        (state_change (raised_by id (T.shown meta.old).value)) result }
    ensures term { IfOk result (λ term. term ≡ term_of (T.shown meta.old).value + 1) }
{
    let term = current_term::<D, T>(meta) + 1;
    let raised = HardState {
        current_term: term,
        voted_for: Some(VotedFor { id, term }),
    };
    meta.save_hard_state(disk, &raised)?;
    Ok(term)
}

// Adds an entry to the log.
fn add<D: Disk, G: LogStore<D>>(disk: &mut D, log: &mut G, entry: Entry) -> Result<(), Error>
    requires stands { StoreStands D.Disk (G.shown log.old) disk.old }
    requires above { last_index (G.shown log.old).value < entry.index }
    ensures writes { Writes D.Disk (G.shown log.old) (G.shown log.new) disk.old disk.new log_family G.holds
        (log_change (G.shown log.old).value (Append (entry ∷ []))) result }
{
    log.persist_entries(disk, &[entry])
}

impl<D: Disk> Core<D> for SoloCore {
    ghost view = { λ c. solo_view c.node.id c.term };

    fn role(&self) -> i32 {
        2
    }

    fn leader(&self) -> Option<LeaderInfo> {
        Some(LeaderInfo {
            leader_id: self.node.id,
            term: self.term,
        })
    }

    fn hint(&self, _alloc: Global) -> Result<Option<LeaderHint>, AllocError> {
        Ok(None)
    }

    /// At Ok it leads in the new term, else in the one before.
    fn raise<T: MetaStore<D>>(&mut self, disk: &mut D, meta: &mut T) -> Result<u64, Error>
        requires stands { StoreStands D.Disk (T.shown meta.old) disk.old }
        requires room { term_of (T.shown meta.old).value < 2 ^ 64 - 1 }
        ensures writes { Writes D.Disk (T.shown meta.old) (T.shown meta.new) disk.old disk.new meta_family T.holds
            (state_change (raised_by self.old.node.id (T.shown meta.old).value)) result }
        ensures term { IfOk result (λ term. term ≡ term_of (T.shown meta.old).value + 1) }
        ensures same { KeepsPlace (solo_view self.old.node.id self.old.term) (solo_view self.new.node.id self.new.term) }
        ensures leads_in { IfOk result (λ term. self.new ≡ record self.old { term = term }) }
        ensures kept { IfErr result (λ e. self.new ≡ self.old) }
    {
        let term = save_next(self.node.id, disk, meta)?;
        self.term = term;
        Ok(term)
    }

    fn commit<G: LogStore<D>>(
        &mut self,
        disk: &mut D,
        log: &mut G,
        entry: Entry,
    ) -> Result<(), Error> {
        add(disk, log, entry)
    }
}

/// A core that follows, and names its leader, if it knows one. It commits nothing.
#[derive(Debug, Drop)]
pub struct FollowerCore {
    node: NodeMeta,
    leader: Option<NodeMeta>,
}

impl FollowerCore {
    /// Of this node, under that leader.
    pub fn new(node: NodeMeta, leader: Option<NodeMeta>) -> FollowerCore
        ensures { follower_view result.node result.leader ≡ follower_view node leader }
    {
        FollowerCore { node, leader }
    }
}

impl<D: Disk> Core<D> for FollowerCore {
    ghost view = { λ c. follower_view c.node c.leader };

    fn role(&self) -> i32 {
        0
    }

    fn leader(&self) -> Option<LeaderInfo> {
        match &self.leader {
            Some(node) => Some(LeaderInfo {
                leader_id: node.id,
                term: 0,
            }),
            None => None,
        }
    }

    fn hint(&self, alloc: Global) -> Result<Option<LeaderHint>, AllocError> {
        match &self.leader {
            Some(node) => Ok(Some(LeaderHint {
                leader_id: node.id,
                address: Label::of(alloc, node.address.as_str())?,
            })),
            None => Ok(None),
        }
    }

    fn raise<T: MetaStore<D>>(&mut self, disk: &mut D, meta: &mut T) -> Result<u64, Error> {
        save_next(self.node.id, disk, meta)
    }

    /// No engine calls it, since it does not lead.
    fn commit<G: LogStore<D>>(
        &mut self,
        disk: &mut D,
        log: &mut G,
        entry: Entry,
    ) -> Result<(), Error>
        requires stands { StoreStands D.Disk (G.shown log.old) disk.old }
        requires above { last_index (G.shown log.old).value < entry.index }
        ensures writes { Writes D.Disk (G.shown log.old) (G.shown log.new) disk.old disk.new log_family G.holds
            (log_change (G.shown log.old).value (Append (entry ∷ []))) result }
        ensures same { self.new ≡ self.old }
    {
        add(disk, log, entry)
    }
}
