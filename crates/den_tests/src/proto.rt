//! Messages and what a client is told: that memory suffices for them.
use den_codec::{ClientResponse, ClientResponsePayload, ErrorCode, Label, LeaderHint};
use den_proto::{
    ClientApiError, extract_read_payload, map_error_response, to_core_response, to_proto_response,
};
use std::alloc::{AllocError, Global};
use std::test::Fail;

fn leader(alloc: Global) -> Result<LeaderHint, AllocError> {
    Ok(LeaderHint {
        leader_id: 2,
        address: Label::of(alloc, "10.0.0.2:5002")?,
    })
}

fn answer(alloc: Global) -> Result<ClientResponse, AllocError> {
    Ok(ClientResponse {
        error: ErrorCode::NotLeader,
        leader_hint: Some(leader(alloc)?),
        retry_after_ms: Some(250),
        result: Some(ClientResponsePayload::Write { succeeded: false }),
    })
}

// Whether an answer is itself behind a message.
fn comes_back(alloc: Global) -> Result<bool, AllocError> {
    let message = to_proto_response(alloc, answer(alloc)?)?;
    Ok(to_core_response(alloc, message)? == answer(alloc)?)
}

// Whether it is told with this code and this text.
fn is_told(error: ClientApiError, code: ErrorCode, message: &str) -> bool {
    error.code() == code && error.message() == message
}

// Whether a read that brought nothing is told so.
fn tells_no_payload(alloc: Global) -> bool {
    match extract_read_payload(alloc, None) {
        Ok(_) => false,
        Err(error) => is_told(
            error,
            ErrorCode::InvalidResponse,
            "expected ReadData payload, got None",
        ),
    }
}

#[test]
fn an_answer_comes_back(rt: HostRuntime) -> Result<(), Fail> {
    assert!(rt; comes_back(rt.alloc())?);
    Ok(())
}

#[test]
fn a_leader_is_told(rt: HostRuntime) -> Result<(), Fail> {
    let leader = leader(rt.alloc())?;
    let error = map_error_response(rt.alloc(), ErrorCode::NotLeader, Some(leader), None);
    assert!(rt;
        is_told(
            error,
            ErrorCode::NotLeader,
            "Not leader, try leader at: 10.0.0.2:5002"
        )
    );
    Ok(())
}

#[test]
fn a_read_without_a_payload(rt: HostRuntime) {
    assert!(rt; tells_no_payload(rt.alloc()));
}
