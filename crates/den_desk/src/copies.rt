//! Calls, answers and finished calls, copied.
ghost use Rattle.std.specs.Prelude.{◌≡◌, IfOk};

use crate::history::{Answer, Call, Finished};
use den_codec::{
    Blob, ClientReadRequest, ClientResponse, ClientResponsePayload, ClientWriteRequest,
    ClusterMembership, Frame, KvEntry, Label, LeaderHint, NodeMeta, Reply, Request, Rows,
    ScanResult, WatchEvent, WriteOperation,
};
use den_core::copy_node;
use den_watch::WatcherHandle;
use std::alloc::{AllocError, Global};

/// What can be copied. Want of memory alone refuses it.
pub(crate) trait Duplicate: Sized + Drop {
    /// The same value.
    fn duplicate(&self, alloc: Global) -> Result<Self, AllocError>
        ensures { IfOk result (λ copy. copy ≡ self.now) };
}

/// The same values in order.
pub(crate) fn copy_items<T: Duplicate>(alloc: Global, items: &[T]) -> Result<Vec<T>, AllocError>
    ensures { IfOk result (λ copies. copies.items ≡ items.now) }
{
    let mut copies = Vec::new(alloc);
    for item in items {
        copies.push(item.duplicate(alloc)?)?;
    }
    Ok(copies)
}

impl<T: Duplicate> Duplicate for Rows<T> {
    fn duplicate(&self, alloc: Global) -> Result<Self, AllocError> {
        Ok(Rows::of(copy_items(alloc, self.as_slice())?))
    }
}

impl<T: Duplicate> Duplicate for Option<T> {
    fn duplicate(&self, alloc: Global) -> Result<Self, AllocError> {
        match self {
            Some(value) => Ok(Some(value.duplicate(alloc)?)),
            None => Ok(None),
        }
    }
}

impl Duplicate for Blob {
    fn duplicate(&self, _alloc: Global) -> Result<Self, AllocError> {
        self.copy()
    }
}

impl Duplicate for WriteOperation {
    fn duplicate(&self, alloc: Global) -> Result<Self, AllocError> {
        match self {
            WriteOperation::Insert {
                key,
                value,
                ttl_secs,
            } => Ok(WriteOperation::Insert {
                key: key.copy()?,
                value: value.copy()?,
                ttl_secs: *ttl_secs,
            }),
            WriteOperation::Delete { key } => Ok(WriteOperation::Delete { key: key.copy()? }),
            WriteOperation::CompareAndSwap {
                key,
                expected,
                new_value,
            } => Ok(WriteOperation::CompareAndSwap {
                key: key.copy()?,
                expected: expected.duplicate(alloc)?,
                new_value: new_value.copy()?,
            }),
        }
    }
}

impl Duplicate for Request {
    fn duplicate(&self, alloc: Global) -> Result<Self, AllocError> {
        match self {
            Request::Write(write) => Ok(Request::Write(ClientWriteRequest {
                client_id: write.client_id,
                command: write.command.duplicate(alloc)?,
            })),
            Request::Read(read) => Ok(Request::Read(ClientReadRequest {
                client_id: read.client_id,
                keys: read.keys.duplicate(alloc)?,
                consistency_policy: read.consistency_policy,
            })),
            Request::Scan { client_id, prefix } => Ok(Request::Scan {
                client_id: *client_id,
                prefix: prefix.copy()?,
            }),
            Request::Watch {
                client_id,
                prefix,
                prev_kv,
                key,
            } => Ok(Request::Watch {
                client_id: *client_id,
                prefix: *prefix,
                prev_kv: *prev_kv,
                key: key.copy()?,
            }),
            Request::Members { client_id } => Ok(Request::Members {
                client_id: *client_id,
            }),
        }
    }
}

impl Duplicate for Frame {
    fn duplicate(&self, alloc: Global) -> Result<Self, AllocError> {
        match self {
            Frame::Good(request) => Ok(Frame::Good(request.duplicate(alloc)?)),
            Frame::Bad => Ok(Frame::Bad),
        }
    }
}

impl Duplicate for Call {
    fn duplicate(&self, alloc: Global) -> Result<Self, AllocError> {
        match self {
            Call::Serve(frame) => Ok(Call::Serve(frame.duplicate(alloc)?)),
            Call::Take(watcher) => Ok(Call::Take(WatcherHandle { id: watcher.id })),
            Call::Unregister(watcher) => Ok(Call::Unregister(WatcherHandle { id: watcher.id })),
            Call::Look { from, most } => Ok(Call::Look {
                from: *from,
                most: *most,
            }),
            Call::Stop => Ok(Call::Stop),
        }
    }
}

impl Duplicate for LeaderHint {
    fn duplicate(&self, alloc: Global) -> Result<Self, AllocError> {
        Ok(LeaderHint {
            leader_id: self.leader_id,
            address: Label::of(alloc, self.address.as_str())?,
        })
    }
}

impl Duplicate for KvEntry {
    fn duplicate(&self, _alloc: Global) -> Result<Self, AllocError> {
        Ok(KvEntry {
            key: self.key.copy()?,
            value: self.value.copy()?,
        })
    }
}

impl Duplicate for ClientResponsePayload {
    fn duplicate(&self, alloc: Global) -> Result<Self, AllocError> {
        match self {
            ClientResponsePayload::Write { succeeded } => Ok(ClientResponsePayload::Write {
                succeeded: *succeeded,
            }),
            ClientResponsePayload::Read { entries } => Ok(ClientResponsePayload::Read {
                entries: entries.duplicate(alloc)?,
            }),
        }
    }
}

impl Duplicate for NodeMeta {
    fn duplicate(&self, alloc: Global) -> Result<Self, AllocError> {
        copy_node(alloc, self)
    }
}

impl Duplicate for Reply {
    fn duplicate(&self, alloc: Global) -> Result<Self, AllocError> {
        match self {
            Reply::Response(response) => Ok(Reply::Response(ClientResponse {
                error: response.error,
                leader_hint: response.leader_hint.duplicate(alloc)?,
                retry_after_ms: response.retry_after_ms,
                result: response.result.duplicate(alloc)?,
            })),
            Reply::Scan(scan) => Ok(Reply::Scan(ScanResult {
                entries: scan.entries.duplicate(alloc)?,
                revision: scan.revision,
            })),
            Reply::Watching { number } => Ok(Reply::Watching { number: *number }),
            Reply::Members(members) => Ok(Reply::Members(ClusterMembership {
                version: members.version,
                nodes: members.nodes.duplicate(alloc)?,
                current_leader_id: members.current_leader_id,
            })),
            Reply::Refused(refusal) => Ok(Reply::Refused(*refusal)),
        }
    }
}

impl Duplicate for WatchEvent {
    fn duplicate(&self, _alloc: Global) -> Result<Self, AllocError> {
        Ok(WatchEvent {
            watcher: self.watcher,
            revision: self.revision,
            kind: self.kind,
            key: self.key.copy()?,
            value: self.value.copy()?,
            prev_value: self.prev_value.copy()?,
        })
    }
}

impl Duplicate for Answer {
    fn duplicate(&self, alloc: Global) -> Result<Self, AllocError> {
        match self {
            Answer::Reply(reply) => Ok(Answer::Reply(reply.duplicate(alloc)?)),
            Answer::Events(events) => Ok(Answer::Events(events.duplicate(alloc)?)),
            Answer::Overflow => Ok(Answer::Overflow),
            Answer::NotRegistered => Ok(Answer::NotRegistered),
            Answer::Unregistered(stood) => Ok(Answer::Unregistered(*stood)),
            Answer::Looked { from, count } => Ok(Answer::Looked {
                from: *from,
                count: *count,
            }),
            Answer::Stopped => Ok(Answer::Stopped),
        }
    }
}

impl Duplicate for Finished {
    fn duplicate(&self, alloc: Global) -> Result<Self, AllocError> {
        let outcome = match &self.outcome {
            Ok(answer) => Ok(answer.duplicate(alloc)?),
            Err(kind) => Err(*kind),
        };
        Ok(Finished {
            caller: self.caller,
            call: self.call.duplicate(alloc)?,
            moment: self.moment,
            outcome,
        })
    }
}
