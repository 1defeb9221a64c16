//! The words of replies and watch events.
#![tactic(auto, using(crate::proofs::Growing::grows_then))]

ghost use Rattle.std.specs.Prelude.{◌≡◌, ◌-◌, ◌^◌, ◌++◌, ◌∷◌, length, min, IfSome, OnOk, Option, refl};
ghost use Rattle.std.specs.List.{slice_get};
ghost use Rattle.std.specs.Int.{w32};
ghost use Rattle.den_model.specs.declared.reply.Reply.TheVariants.{Response, Scan, Members};
ghost use Rattle.den_model.specs.Spelling.{u32_word, u64_word, blob_word, option_word, list_word, code_number, refusal_number, event_number, kv_word, hint_word, node_word, payload_word, reply_word, event_word};
ghost use Rattle.den_model.specs.Words.{IsWordBy, FitsU32, FitsU64, FitsText, FitsKv, FitsHint, FitsNode, FitsPayload, FitsReply, FitsEvent};
ghost use Rattle.den_model.specs.Reading.{number_at};
ghost use Rattle.den_model.specs.ReplyReading.{all_codes, text_at, kv_at, hint_at, node_at, code_at, refusal_at, written_at, found_at, payload_at, response_at, scanned_at, watching_at, members_at, refused_at, reply_at, kind_at, event_behind, event_at};
ghost use Rattle.den_model.proofs.Spells.{word_found, word_read, spells_u32};
ghost use Rattle.den_model.proofs.ReplySpells.{spells_text, spells_kv, spells_hint, spells_node, spells_reply, spells_event};
ghost use Rattle.den_codec.specs.Gives.{Gives};
ghost use Rattle.den_codec.specs.Grows.{Grows};

use crate::fields::{
    put_blob, put_byte, put_i32, put_raw, put_text, put_u32, put_u64, take_blob, take_byte,
    take_i32, take_text, take_truth, take_u32, take_u64,
};
use crate::word::{list_size, option_size, put_list, put_option, take_list, take_option};
use crate::{ReadError, Word};
use den_model::{
    ClientResponse, ClientResponsePayload, ClusterMembership, ErrorCode, KvEntry, Label,
    LeaderHint, NodeMeta, Refusal, Reply, ScanResult, WatchEvent, WatchEventType,
};
use std::alloc::{AllocError, Global};

impl Word for u32 {
    ghost word = { u32_word };

    ghost at = { number_at w32 };

    ghost fits = { FitsU32 };

    ghost is_word = { IsWordBy FitsU32 u32_word };

    ghost found = { word_found spells_u32 };

    ghost again = { word_read spells_u32 };

    ghost written = { λ x h. (refl, h) };

    fn put(&self, out: &mut Vec<u8>) -> Result<(), AllocError> {
        put_u32(out, *self)
    }

    fn take(_alloc: Global, bytes: &[u8]) -> Result<(u32, &[u8]), ReadError> {
        take_u32(bytes)
    }

    #[tactic(auto, unfolding(den_model::specs::Spelling::u32_word))]
    fn size(&self) -> u64 {
        4
    }
}

impl Word for KvEntry {
    ghost word = { kv_word };

    ghost at = { kv_at };

    ghost fits = { FitsKv };

    ghost is_word = { IsWordBy FitsKv kv_word };

    ghost found = { word_found spells_kv };

    ghost again = { word_read spells_kv };

    ghost written = { λ x h. (refl, h) };

    fn put(&self, out: &mut Vec<u8>) -> Result<(), AllocError> {
        put_blob(out, &self.key)?;
        put_blob(out, &self.value)
    }

    #[tactic(auto, unfolding(den_model::specs::ReplyReading::kv_at))]
    fn take(alloc: Global, bytes: &[u8]) -> Result<(KvEntry, &[u8]), ReadError> {
        let (key, rest) = take_blob(alloc, bytes)?;
        let (value, rest) = take_blob(alloc, rest)?;
        Ok((KvEntry { key, value }, rest))
    }

    #[tactic(auto, unfolding(den_model::specs::Spelling::u64_word))]
    fn size(&self) -> u64 {
        let value = self.value.as_slice().len() as u64;
        (self.key.as_slice().len() as u64)
            .saturating_add(value)
            .saturating_add(16)
    }
}

impl Word for LeaderHint {
    ghost word = { hint_word };

    ghost at = { hint_at };

    ghost fits = { FitsHint };

    ghost is_word = { IsWordBy FitsHint hint_word };

    ghost found = { word_found spells_hint };

    ghost again = { word_read spells_hint };

    ghost written = { λ x h. (refl, h) };

    fn put(&self, out: &mut Vec<u8>) -> Result<(), AllocError> {
        put_u32(out, self.leader_id)?;
        put_text(out, &self.address)
    }

    #[tactic(auto, unfolding(den_model::specs::ReplyReading::hint_at))]
    fn take(alloc: Global, bytes: &[u8]) -> Result<(LeaderHint, &[u8]), ReadError> {
        let (leader_id, rest) = take_u32(bytes)?;
        let (address, rest) = take_text(alloc, rest)?;
        Ok((LeaderHint { leader_id, address }, rest))
    }

    #[tactic(auto, unfolding(den_model::specs::Spelling::u32_word, den_model::specs::Spelling::u64_word))]
    fn size(&self) -> u64 {
        (self.address.as_str().len() as u64).saturating_add(12)
    }
}

impl Word for NodeMeta {
    ghost word = { node_word };

    ghost at = { node_at };

    ghost fits = { FitsNode };

    ghost is_word = { IsWordBy FitsNode node_word };

    ghost found = { word_found spells_node };

    ghost again = { word_read spells_node };

    ghost written = { λ x h. (refl, h) };

    fn put(&self, out: &mut Vec<u8>) -> Result<(), AllocError> {
        put_u32(out, self.id)?;
        put_text(out, &self.address)?;
        put_i32(out, self.role)?;
        put_i32(out, self.status)
    }

    #[tactic(auto, unfolding(den_model::specs::ReplyReading::node_at))]
    fn take(alloc: Global, bytes: &[u8]) -> Result<(NodeMeta, &[u8]), ReadError> {
        let (id, rest) = take_u32(bytes)?;
        let (address, rest) = take_text(alloc, rest)?;
        let (role, rest) = take_i32(rest)?;
        let (status, rest) = take_i32(rest)?;
        Ok((
            NodeMeta {
                id,
                address,
                role,
                status,
            },
            rest,
        ))
    }

    #[tactic(auto, unfolding(den_model::specs::Spelling::u32_word, den_model::specs::Spelling::u64_word, den_model::specs::Spelling::i32_word))]
    fn size(&self) -> u64 {
        (self.address.as_str().len() as u64).saturating_add(20)
    }
}

/// The codes in the order of their numbers.
const CODES: [ErrorCode; 23] = [
    ErrorCode::Success,
    ErrorCode::ConnectionTimeout,
    ErrorCode::InvalidAddress,
    ErrorCode::LeaderChanged,
    ErrorCode::JoinError,
    ErrorCode::InvalidResponse,
    ErrorCode::VersionMismatch,
    ErrorCode::DiskFull,
    ErrorCode::DataCorruption,
    ErrorCode::StorageIoError,
    ErrorCode::StoragePermissionDenied,
    ErrorCode::KeyNotExist,
    ErrorCode::NotLeader,
    ErrorCode::StaleOperation,
    ErrorCode::InvalidRequest,
    ErrorCode::RateLimited,
    ErrorCode::ClusterUnavailable,
    ErrorCode::ProposeFailed,
    ErrorCode::TermOutdated,
    ErrorCode::RetryRequired,
    ErrorCode::WatchBufferOverflow,
    ErrorCode::General,
    ErrorCode::Uncategorized,
];

#[tactic(auto, using(crate::proofs::Codes::code_within, crate::proofs::Codes::code_past))]
fn code_of(number: u8) -> Option<ErrorCode>
    ensures { result ≡ slice_get all_codes number }
{
    if number < 23 {
        Some(CODES[number as usize])
    } else {
        None
    }
}

fn code_number(code: ErrorCode) -> u8
    ensures { result ≡ code_number code }
{
    match code {
        ErrorCode::Success => 0,
        ErrorCode::ConnectionTimeout => 1,
        ErrorCode::InvalidAddress => 2,
        ErrorCode::LeaderChanged => 3,
        ErrorCode::JoinError => 4,
        ErrorCode::InvalidResponse => 5,
        ErrorCode::VersionMismatch => 6,
        ErrorCode::DiskFull => 7,
        ErrorCode::DataCorruption => 8,
        ErrorCode::StorageIoError => 9,
        ErrorCode::StoragePermissionDenied => 10,
        ErrorCode::KeyNotExist => 11,
        ErrorCode::NotLeader => 12,
        ErrorCode::StaleOperation => 13,
        ErrorCode::InvalidRequest => 14,
        ErrorCode::RateLimited => 15,
        ErrorCode::ClusterUnavailable => 16,
        ErrorCode::ProposeFailed => 17,
        ErrorCode::TermOutdated => 18,
        ErrorCode::RetryRequired => 19,
        ErrorCode::WatchBufferOverflow => 20,
        ErrorCode::General => 21,
        ErrorCode::Uncategorized => 22,
    }
}

#[tactic(auto, unfolding(den_model::specs::ReplyReading::code_at))]
fn take_code(bytes: &[u8]) -> Result<(ErrorCode, &[u8]), ReadError>
    ensures { Gives (λ x. (x.0, x.1.now)) result (code_at bytes.now) }
{
    let (number, rest) = take_byte(bytes)?;
    match code_of(number) {
        Some(code) => Ok((code, rest)),
        None => Err(ReadError::NoWord),
    }
}

fn refusal_number(refusal: Refusal) -> u8
    ensures { result ≡ refusal_number refusal }
{
    match refusal {
        Refusal::InvalidPrefix => 1,
        Refusal::LimitExceeded => 2,
        Refusal::FeatureNotEnabled => 3,
    }
}

#[tactic(auto, unfolding(den_model::specs::ReplyReading::refusal_at))]
fn take_refusal(bytes: &[u8]) -> Result<(Refusal, &[u8]), ReadError>
    ensures { Gives (λ x. (x.0, x.1.now)) result (refusal_at bytes.now) }
{
    let (number, rest) = take_byte(bytes)?;
    match number {
        1 => Ok((Refusal::InvalidPrefix, rest)),
        2 => Ok((Refusal::LimitExceeded, rest)),
        3 => Ok((Refusal::FeatureNotEnabled, rest)),
        _ => Err(ReadError::NoWord),
    }
}

fn put_payload(out: &mut Vec<u8>, payload: &Option<ClientResponsePayload>) -> Result<(), AllocError>
    ensures ok { OnOk result (out.new.items ≡ out.old.items ++ payload_word payload.now) }
    ensures fits { OnOk result (IfSome payload.now FitsPayload) }
    ensures grows { Grows out.old.items out.new.items }
{
    match payload {
        None => put_byte(out, 0),
        Some(ClientResponsePayload::Write { succeeded }) => {
            put_raw(out, &[1, if *succeeded { 1 } else { 0 }])
        }
        Some(ClientResponsePayload::Read { entries }) => {
            put_byte(out, 2)?;
            put_list(out, entries.as_slice())
        }
    }
}

#[tactic(auto, unfolding(den_model::specs::ReplyReading::written_at))]
fn take_written(bytes: &[u8]) -> Result<(Option<ClientResponsePayload>, &[u8]), ReadError>
    ensures { Gives (λ x. (x.0, x.1.now)) result (written_at bytes.now) }
{
    let (succeeded, rest) = take_truth(bytes)?;
    Ok((Some(ClientResponsePayload::Write { succeeded }), rest))
}

#[tactic(auto, unfolding(den_model::specs::ReplyReading::found_at))]
fn take_found(
    alloc: Global,
    bytes: &[u8],
) -> Result<(Option<ClientResponsePayload>, &[u8]), ReadError>
    ensures { Gives (λ x. (x.0, x.1.now)) result (found_at bytes.now) }
{
    let (entries, rest) = take_list(alloc, bytes)?;
    Ok((Some(ClientResponsePayload::Read { entries }), rest))
}

#[tactic(auto, unfolding(den_model::specs::ReplyReading::payload_at))]
fn take_payload(
    alloc: Global,
    bytes: &[u8],
) -> Result<(Option<ClientResponsePayload>, &[u8]), ReadError>
    ensures { Gives (λ x. (x.0, x.1.now)) result (payload_at bytes.now) }
{
    let (tag, rest) = take_byte(bytes)?;
    match tag {
        0 => Ok((None, rest)),
        1 => take_written(rest),
        2 => take_found(alloc, rest),
        _ => Err(ReadError::NoWord),
    }
}

fn payload_size(payload: &Option<ClientResponsePayload>) -> u64
    ensures { result ≡ min (length (payload_word payload.now)) (2 ^ 64 - 1) }
{
    match payload {
        None => 1,
        Some(ClientResponsePayload::Write { succeeded: _ }) => 2,
        Some(ClientResponsePayload::Read { entries }) => {
            list_size(entries.as_slice()).saturating_add(1)
        }
    }
}

fn put_response(out: &mut Vec<u8>, response: &ClientResponse) -> Result<(), AllocError>
    ensures ok { OnOk result (out.new.items ≡ out.old.items ++ reply_word (Response response.now)) }
    ensures fits { OnOk result (FitsReply (Response response.now)) }
    ensures grows { Grows out.old.items out.new.items }
{
    put_raw(out, &[1, code_number(response.error)])?;
    put_option(out, &response.leader_hint)?;
    put_option(out, &response.retry_after_ms)?;
    put_payload(out, &response.result)
}

fn put_scan(out: &mut Vec<u8>, scan: &ScanResult) -> Result<(), AllocError>
    ensures ok { OnOk result (out.new.items ≡ out.old.items ++ reply_word (Scan scan.now)) }
    ensures fits { OnOk result (FitsReply (Scan scan.now)) }
    ensures grows { Grows out.old.items out.new.items }
{
    put_byte(out, 2)?;
    put_u64(out, scan.revision)?;
    put_list(out, scan.entries.as_slice())
}

fn put_members(out: &mut Vec<u8>, members: &ClusterMembership) -> Result<(), AllocError>
    ensures ok { OnOk result (out.new.items ≡ out.old.items ++ reply_word (Members members.now)) }
    ensures fits { OnOk result (FitsReply (Members members.now)) }
    ensures grows { Grows out.old.items out.new.items }
{
    put_byte(out, 5)?;
    put_u64(out, members.version)?;
    put_option(out, &members.current_leader_id)?;
    put_list(out, members.nodes.as_slice())
}

#[tactic(auto, unfolding(den_model::specs::ReplyReading::response_at))]
fn take_response(alloc: Global, bytes: &[u8]) -> Result<(Reply, &[u8]), ReadError>
    ensures { Gives (λ x. (x.0, x.1.now)) result (response_at bytes.now) }
{
    let (error, rest) = take_code(bytes)?;
    let (leader_hint, rest) = take_option(alloc, rest)?;
    let (retry_after_ms, rest) = take_option(alloc, rest)?;
    let (payload, rest) = take_payload(alloc, rest)?;
    let response = ClientResponse {
        error,
        leader_hint,
        retry_after_ms,
        result: payload,
    };
    Ok((Reply::Response(response), rest))
}

#[tactic(auto, unfolding(den_model::specs::ReplyReading::scanned_at))]
fn take_scanned(alloc: Global, bytes: &[u8]) -> Result<(Reply, &[u8]), ReadError>
    ensures { Gives (λ x. (x.0, x.1.now)) result (scanned_at bytes.now) }
{
    let (revision, rest) = take_u64(bytes)?;
    let (entries, rest) = take_list(alloc, rest)?;
    Ok((Reply::Scan(ScanResult { entries, revision }), rest))
}

#[tactic(auto, unfolding(den_model::specs::ReplyReading::watching_at))]
fn take_watching(bytes: &[u8]) -> Result<(Reply, &[u8]), ReadError>
    ensures { Gives (λ x. (x.0, x.1.now)) result (watching_at bytes.now) }
{
    let (number, rest) = take_u64(bytes)?;
    Ok((Reply::Watching { number }, rest))
}

#[tactic(auto, unfolding(den_model::specs::ReplyReading::members_at))]
fn take_members(alloc: Global, bytes: &[u8]) -> Result<(Reply, &[u8]), ReadError>
    ensures { Gives (λ x. (x.0, x.1.now)) result (members_at bytes.now) }
{
    let (version, rest) = take_u64(bytes)?;
    let (current_leader_id, rest) = take_option(alloc, rest)?;
    let (nodes, rest) = take_list(alloc, rest)?;
    let members = ClusterMembership {
        version,
        nodes,
        current_leader_id,
    };
    Ok((Reply::Members(members), rest))
}

#[tactic(auto, unfolding(den_model::specs::ReplyReading::refused_at))]
fn take_refused(bytes: &[u8]) -> Result<(Reply, &[u8]), ReadError>
    ensures { Gives (λ x. (x.0, x.1.now)) result (refused_at bytes.now) }
{
    let (refusal, rest) = take_refusal(bytes)?;
    Ok((Reply::Refused(refusal), rest))
}

impl Word for Reply {
    ghost word = { reply_word };

    ghost at = { reply_at };

    ghost fits = { FitsReply };

    ghost is_word = { IsWordBy FitsReply reply_word };

    ghost found = { word_found spells_reply };

    ghost again = { word_read spells_reply };

    ghost written = { λ x h. (refl, h) };

    fn put(&self, out: &mut Vec<u8>) -> Result<(), AllocError> {
        match self {
            Reply::Response(response) => put_response(out, response),
            Reply::Scan(scan) => put_scan(out, scan),
            Reply::Watching { number } => {
                put_byte(out, 3)?;
                put_u64(out, *number)
            }
            Reply::Members(members) => put_members(out, members),
            Reply::Refused(refusal) => {
                put_byte(out, 6)?;
                put_byte(out, refusal_number(*refusal))
            }
        }
    }

    #[tactic(auto, unfolding(den_model::specs::ReplyReading::reply_at))]
    fn take(alloc: Global, bytes: &[u8]) -> Result<(Reply, &[u8]), ReadError> {
        let (tag, rest) = take_byte(bytes)?;
        match tag {
            1 => take_response(alloc, rest),
            2 => take_scanned(alloc, rest),
            3 => take_watching(rest),
            5 => take_members(alloc, rest),
            6 => take_refused(rest),
            _ => Err(ReadError::NoWord),
        }
    }

    #[tactic(auto, unfolding(den_model::specs::Spelling::u64_word))]
    fn size(&self) -> u64 {
        match self {
            Reply::Response(response) => option_size(&response.leader_hint)
                .saturating_add(option_size(&response.retry_after_ms))
                .saturating_add(payload_size(&response.result))
                .saturating_add(2),
            Reply::Scan(scan) => list_size(scan.entries.as_slice()).saturating_add(9),
            Reply::Watching { number: _ } => 9,
            Reply::Members(members) => option_size(&members.current_leader_id)
                .saturating_add(list_size(members.nodes.as_slice()))
                .saturating_add(9),
            Reply::Refused(_) => 2,
        }
    }
}

fn kind_number(kind: WatchEventType) -> u8
    ensures { result ≡ event_number kind }
{
    match kind {
        WatchEventType::Put => 1,
        WatchEventType::Delete => 2,
    }
}

#[tactic(auto, unfolding(den_model::specs::ReplyReading::kind_at))]
fn take_kind(bytes: &[u8]) -> Result<(WatchEventType, &[u8]), ReadError>
    ensures { Gives (λ x. (x.0, x.1.now)) result (kind_at bytes.now) }
{
    let (number, rest) = take_byte(bytes)?;
    match number {
        1 => Ok((WatchEventType::Put, rest)),
        2 => Ok((WatchEventType::Delete, rest)),
        _ => Err(ReadError::NoWord),
    }
}

#[tactic(auto, unfolding(den_model::specs::ReplyReading::event_behind))]
fn take_behind(alloc: Global, bytes: &[u8]) -> Result<(WatchEvent, &[u8]), ReadError>
    ensures { Gives (λ x. (x.0, x.1.now)) result (event_behind bytes.now) }
{
    let (watcher, rest) = take_u64(bytes)?;
    let (kind, rest) = take_kind(rest)?;
    let (revision, rest) = take_u64(rest)?;
    let (key, rest) = take_blob(alloc, rest)?;
    let (value, rest) = take_blob(alloc, rest)?;
    let (prev_value, rest) = take_blob(alloc, rest)?;
    let event = WatchEvent {
        watcher,
        revision,
        kind,
        key,
        value,
        prev_value,
    };
    Ok((event, rest))
}

fn put_heading(out: &mut Vec<u8>, event: &WatchEvent) -> Result<(), AllocError>
    ensures ok { OnOk result (out.new.items ≡ out.old.items ++ 4 ∷ u64_word event.now.watcher ++ event_number event.now.kind ∷ u64_word event.now.revision) }
    ensures watcher { OnOk result (FitsU64 event.now.watcher) }
    ensures revision { OnOk result (FitsU64 event.now.revision) }
    ensures grows { Grows out.old.items out.new.items }
{
    put_byte(out, 4)?;
    put_u64(out, event.watcher)?;
    put_byte(out, kind_number(event.kind))?;
    put_u64(out, event.revision)
}

impl Word for WatchEvent {
    ghost word = { event_word };

    ghost at = { event_at };

    ghost fits = { FitsEvent };

    ghost is_word = { IsWordBy FitsEvent event_word };

    ghost found = { word_found spells_event };

    ghost again = { word_read spells_event };

    ghost written = { λ x h. (refl, h) };

    fn put(&self, out: &mut Vec<u8>) -> Result<(), AllocError> {
        put_heading(out, self)?;
        put_blob(out, &self.key)?;
        put_blob(out, &self.value)?;
        put_blob(out, &self.prev_value)
    }

    #[tactic(auto, unfolding(den_model::specs::ReplyReading::event_at))]
    fn take(alloc: Global, bytes: &[u8]) -> Result<(WatchEvent, &[u8]), ReadError> {
        let (tag, rest) = take_byte(bytes)?;
        if tag == 4 {
            take_behind(alloc, rest)
        } else {
            Err(ReadError::NoWord)
        }
    }

    #[tactic(auto, unfolding(den_model::specs::Spelling::u64_word))]
    fn size(&self) -> u64 {
        let value = self.value.as_slice().len() as u64;
        let prev_value = self.prev_value.as_slice().len() as u64;
        (self.key.as_slice().len() as u64)
            .saturating_add(value)
            .saturating_add(prev_value)
            .saturating_add(42)
    }
}
