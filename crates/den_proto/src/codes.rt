//! Codes of answers: those of messages, those of values, and their numbers.
ghost use Rattle.std.specs.Prelude.{◌≡◌, pos};
ghost use Rattle.den_model.specs.Spelling.{code_number};
ghost use Rattle.den_proto.specs.Codes.{core_code, error_of, proto_code};

use crate::proto;
use den_model::ErrorCode;

/// The codes in the order of their numbers.
const CODES: [ErrorCode; 23] = [
    ErrorCode::Success,
    ErrorCode::ConnectionTimeout,
    ErrorCode::InvalidAddress,
    ErrorCode::LeaderChanged,
    ErrorCode::JoinError,
    ErrorCode::InvalidResponse,
    ErrorCode::VersionMismatch,
    ErrorCode::DiskFull,
    ErrorCode::DataCorruption,
    ErrorCode::StorageIoError,
    ErrorCode::StoragePermissionDenied,
    ErrorCode::KeyNotExist,
    ErrorCode::NotLeader,
    ErrorCode::StaleOperation,
    ErrorCode::InvalidRequest,
    ErrorCode::RateLimited,
    ErrorCode::ClusterUnavailable,
    ErrorCode::ProposeFailed,
    ErrorCode::TermOutdated,
    ErrorCode::RetryRequired,
    ErrorCode::WatchBufferOverflow,
    ErrorCode::General,
    ErrorCode::Uncategorized,
];

/// The code of the same name.
pub fn proto_error_to_core(e: proto::ErrorCode) -> ErrorCode
    ensures { result ≡ core_code e }
{
    match e {
        proto::ErrorCode::Success => ErrorCode::Success,
        proto::ErrorCode::ConnectionTimeout => ErrorCode::ConnectionTimeout,
        proto::ErrorCode::InvalidAddress => ErrorCode::InvalidAddress,
        proto::ErrorCode::LeaderChanged => ErrorCode::LeaderChanged,
        proto::ErrorCode::JoinError => ErrorCode::JoinError,
        proto::ErrorCode::InvalidResponse => ErrorCode::InvalidResponse,
        proto::ErrorCode::VersionMismatch => ErrorCode::VersionMismatch,
        proto::ErrorCode::DiskFull => ErrorCode::DiskFull,
        proto::ErrorCode::DataCorruption => ErrorCode::DataCorruption,
        proto::ErrorCode::StorageIoError => ErrorCode::StorageIoError,
        proto::ErrorCode::StoragePermissionDenied => ErrorCode::StoragePermissionDenied,
        proto::ErrorCode::KeyNotExist => ErrorCode::KeyNotExist,
        proto::ErrorCode::NotLeader => ErrorCode::NotLeader,
        proto::ErrorCode::StaleOperation => ErrorCode::StaleOperation,
        proto::ErrorCode::InvalidRequest => ErrorCode::InvalidRequest,
        proto::ErrorCode::RateLimited => ErrorCode::RateLimited,
        proto::ErrorCode::ClusterUnavailable => ErrorCode::ClusterUnavailable,
        proto::ErrorCode::ProposeFailed => ErrorCode::ProposeFailed,
        proto::ErrorCode::TermOutdated => ErrorCode::TermOutdated,
        proto::ErrorCode::RetryRequired => ErrorCode::RetryRequired,
        proto::ErrorCode::WatchBufferOverflow => ErrorCode::WatchBufferOverflow,
        proto::ErrorCode::General => ErrorCode::General,
        proto::ErrorCode::Uncategorized => ErrorCode::Uncategorized,
    }
}

/// The code of the same name.
pub fn core_error_to_proto(e: ErrorCode) -> proto::ErrorCode
    ensures { result ≡ proto_code e }
{
    match e {
        ErrorCode::Success => proto::ErrorCode::Success,
        ErrorCode::ConnectionTimeout => proto::ErrorCode::ConnectionTimeout,
        ErrorCode::InvalidAddress => proto::ErrorCode::InvalidAddress,
        ErrorCode::LeaderChanged => proto::ErrorCode::LeaderChanged,
        ErrorCode::JoinError => proto::ErrorCode::JoinError,
        ErrorCode::InvalidResponse => proto::ErrorCode::InvalidResponse,
        ErrorCode::VersionMismatch => proto::ErrorCode::VersionMismatch,
        ErrorCode::DiskFull => proto::ErrorCode::DiskFull,
        ErrorCode::DataCorruption => proto::ErrorCode::DataCorruption,
        ErrorCode::StorageIoError => proto::ErrorCode::StorageIoError,
        ErrorCode::StoragePermissionDenied => proto::ErrorCode::StoragePermissionDenied,
        ErrorCode::KeyNotExist => proto::ErrorCode::KeyNotExist,
        ErrorCode::NotLeader => proto::ErrorCode::NotLeader,
        ErrorCode::StaleOperation => proto::ErrorCode::StaleOperation,
        ErrorCode::InvalidRequest => proto::ErrorCode::InvalidRequest,
        ErrorCode::RateLimited => proto::ErrorCode::RateLimited,
        ErrorCode::ClusterUnavailable => proto::ErrorCode::ClusterUnavailable,
        ErrorCode::ProposeFailed => proto::ErrorCode::ProposeFailed,
        ErrorCode::TermOutdated => proto::ErrorCode::TermOutdated,
        ErrorCode::RetryRequired => proto::ErrorCode::RetryRequired,
        ErrorCode::WatchBufferOverflow => proto::ErrorCode::WatchBufferOverflow,
        ErrorCode::General => proto::ErrorCode::General,
        ErrorCode::Uncategorized => proto::ErrorCode::Uncategorized,
    }
}

/// The code of a number, which the numbers from 0 to 22 have.
#[tactic(auto, using(crate::proofs::Numbers::code_within, crate::proofs::Numbers::code_past))]
pub fn error_from_i32(n: i32) -> Option<ErrorCode>
    ensures { result ≡ error_of n }
{
    if 0 <= n && n < 23 {
        Some(CODES[n as usize])
    } else {
        None
    }
}

/// The number of a code.
pub(crate) fn error_number(e: ErrorCode) -> i32
    ensures { result ≡ pos (code_number e) }
{
    match e {
        ErrorCode::Success => 0,
        ErrorCode::ConnectionTimeout => 1,
        ErrorCode::InvalidAddress => 2,
        ErrorCode::LeaderChanged => 3,
        ErrorCode::JoinError => 4,
        ErrorCode::InvalidResponse => 5,
        ErrorCode::VersionMismatch => 6,
        ErrorCode::DiskFull => 7,
        ErrorCode::DataCorruption => 8,
        ErrorCode::StorageIoError => 9,
        ErrorCode::StoragePermissionDenied => 10,
        ErrorCode::KeyNotExist => 11,
        ErrorCode::NotLeader => 12,
        ErrorCode::StaleOperation => 13,
        ErrorCode::InvalidRequest => 14,
        ErrorCode::RateLimited => 15,
        ErrorCode::ClusterUnavailable => 16,
        ErrorCode::ProposeFailed => 17,
        ErrorCode::TermOutdated => 18,
        ErrorCode::RetryRequired => 19,
        ErrorCode::WatchBufferOverflow => 20,
        ErrorCode::General => 21,
        ErrorCode::Uncategorized => 22,
    }
}
