//! Calls of a client, whoever makes them. Each function goes on where the one before it ends.
use den_client::ClientApi;
use den_codec::{Blob, ErrorCode, WatchEvent, WatchEventType};
use den_proto::ClientApiError;
use std::alloc::{AllocError, Global};

// Whether a read found this value.
fn is_value(found: &Option<Blob>, value: &[u8]) -> bool {
    match found {
        Some(found) => found.as_slice() == value,
        None => false,
    }
}

// Whether a call is refused by this code and text.
fn is_told(answer: &Result<(), ClientApiError>, code: ErrorCode, text: &str) -> bool {
    match answer {
        Ok(()) => false,
        Err(error) => error.code() == code && error.message() == text,
    }
}

// The keys a, z and a.
fn three_keys(alloc: Global) -> Result<Vec<Blob>, AllocError> {
    let mut keys = Vec::new(alloc);
    keys.push(Blob::of(alloc, b"a")?)?;
    keys.push(Blob::of(alloc, b"z")?)?;
    keys.push(Blob::of(alloc, b"a")?)?;
    Ok(keys)
}

// Whether a put of a = b is read.
pub(crate) fn puts<A: ClientApi>(client: &mut A) -> Result<bool, ClientApiError>
    requires lawful { A.lawful client.old }
    ensures lawful { A.lawful client.new }
{
    client.put(b"a", b"b")?;
    let held = client.get(b"a")?;
    Ok(is_value(&held, b"b"))
}

// Whether z is not held, and the values of a, z and a are b, none and b.
pub(crate) fn reads<A: ClientApi>(alloc: Global, client: &mut A) -> Result<bool, ClientApiError>
    requires lawful { A.lawful client.old }
    ensures lawful { A.lawful client.new }
{
    let absent = client.get_eventual(b"z")?;
    let keys = three_keys(alloc)?;
    let values = client.get_multi(keys.as_slice())?;
    Ok(absent.is_none() && are_two(values.as_slice()))
}

// Whether they are b, none and b.
fn are_two(values: &[Option<Blob>]) -> bool {
    match values {
        [first, second, third] => {
            is_value(first, b"b") && second.is_none() && is_value(third, b"b")
        }
        _ => false,
    }
}

// Whether a is swapped from b to c once.
pub(crate) fn swaps<A: ClientApi>(client: &mut A) -> Result<bool, ClientApiError>
    requires lawful { A.lawful client.old }
    ensures lawful { A.lawful client.new }
{
    let first = client.compare_and_swap(b"a", Some(b"b"), b"c")?;
    let second = client.compare_and_swap(b"a", Some(b"b"), b"c")?;
    Ok(first && !second)
}

// Whether nothing is held behind a delete of a, at revision 5: an opening, a put, two swaps and the delete.
pub(crate) fn deletes<A: ClientApi>(client: &mut A) -> Result<bool, ClientApiError>
    requires lawful { A.lawful client.old }
    ensures lawful { A.lawful client.new }
{
    client.delete(b"a")?;
    let found = client.scan_prefix(b"")?;
    Ok(found.entries.as_slice().is_empty() && found.revision == 5)
}

// Whether a time to live is refused, also of no seconds.
pub(crate) fn has_no_lease<A: ClientApi>(client: &mut A) -> bool
    requires lawful { A.lawful client.old }
    ensures lawful { A.lawful client.new }
{
    let answer = client.put_with_ttl(b"a", b"b", 0);
    is_told(
        &answer,
        ErrorCode::Uncategorized,
        "Error code: FeatureNotEnabled",
    )
}

// Whether it is one put, of a = d at revision 6.
fn is_one_put(events: &[WatchEvent]) -> bool {
    match events {
        [event] => {
            event.kind == WatchEventType::Put
                && event.revision == 6
                && event.key.as_slice() == b"a".as_slice()
                && event.value.as_slice() == b"d".as_slice()
        }
        _ => false,
    }
}

// Whether who watches a is told of a put.
pub(crate) fn watches<A: ClientApi>(client: &mut A) -> Result<bool, ClientApiError>
    requires lawful { A.lawful client.old }
    ensures lawful { A.lawful client.new }
{
    let watcher = client.watch(b"a")?;
    client.put(b"a", b"d")?;
    let events = client.take(&watcher)?;
    Ok(is_one_put(events.as_slice()))
}

// Whether what is no prefix is not watched.
pub(crate) fn has_no_such_prefix<A: ClientApi>(client: &mut A) -> bool
    requires lawful { A.lawful client.old }
    ensures lawful { A.lawful client.new }
{
    match client.watch_prefix(b"x") {
        Ok(_) => false,
        Err(error) => {
            error.code() == ErrorCode::Uncategorized
                && error.message() == "prefix must start and end with '/'"
        }
    }
}

// Whether node 1 is the only member, and leads.
pub(crate) fn has_one_member<A: ClientApi>(client: &mut A) -> Result<bool, ClientApiError>
    requires lawful { A.lawful client.old }
    ensures lawful { A.lawful client.new }
{
    let members = client.list_members()?;
    let leader = client.get_leader_id()?;
    match members.as_slice() {
        [node] => Ok(node.id == 1 && leader == Some(1)),
        _ => Ok(false),
    }
}

// Whether a put finds that the history has ended.
pub(crate) fn is_closed<A: ClientApi>(client: &mut A) -> bool
    requires lawful { A.lawful client.old }
    ensures lawful { A.lawful client.new }
{
    let answer = client.put(b"a", b"b");
    is_told(
        &answer,
        ErrorCode::ConnectionTimeout,
        "Channel closed, node may be shutting down",
    )
}
