//! Jobs as keys of an engine: what is to be done, and who does it.
use den_client::ClientApi;
use den_proto::ClientApiError;

// The value of a job that nobody has taken.
const READY: &[u8] = b"ready";

// How many seconds a job is kept where nobody ends it.
const KEPT: u64 = 3600;

/// Adds a job, which nobody has taken. It goes by itself after an hour.
pub fn add<A: ClientApi>(client: &mut A, job: &[u8]) -> Result<(), ClientApiError>
    requires lawful { A.lawful client.old }
    ensures lawful { A.lawful client.new }
{
    client.put_with_ttl(job, READY, KEPT)
}

/// Takes a job for a worker, where nobody has it: of several workers that ask, one swap is made.
pub fn take<A: ClientApi>(client: &mut A, job: &[u8], worker: &[u8]) -> Result<bool, ClientApiError>
    requires lawful { A.lawful client.old }
    ensures lawful { A.lawful client.new }
{
    client.compare_and_swap(job, Some(READY), worker)
}

/// Ends a job that is done.
pub fn end<A: ClientApi>(client: &mut A, job: &[u8]) -> Result<(), ClientApiError>
    requires lawful { A.lawful client.old }
    ensures lawful { A.lawful client.new }
{
    client.delete(job)
}

/// How many jobs are left, taken or not.
pub fn left<A: ClientApi>(client: &mut A) -> Result<usize, ClientApiError>
    requires lawful { A.lawful client.old }
    ensures lawful { A.lawful client.new }
{
    let found = client.scan_prefix(b"/jobs/")?;
    Ok(found.entries.as_slice().len())
}
