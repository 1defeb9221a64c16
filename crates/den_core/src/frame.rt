//! Frames read from a link: a length in eight bytes, and so many bytes.
ghost use Rattle.std.specs.Prelude.{◌≡◌, ◌+◌, ◌-◌, ◌<◌, ◌≤◌, IsTrue, IsSome, IfOk, IfSome, IfErr, OnErr, OnOk, length, take, drop, [], vec_len};
ghost use Rattle.den_disk.specs.Goes.{Rose, LinkGoesOn};
ghost use Rattle.den_model.specs.Frames.{frame_in};
ghost use Rattle.den_model.specs.Sizes.{frame_size};
ghost use Rattle.den_core.specs.Input.{Took, IsPiece, IsBehind, Found, HasCome};
ghost use Rattle.den_core.specs.Refusals.{IsLinkRefusal};

use den_codec::{Error, Frame, read_request};
use den_disk::{Link, LinkFault, Piece};
use std::alloc::{AllocError, Global};

/// How many bytes are read of a body at once: no more memory than this is taken before its bytes have come.
const PIECE: u64 = 65536;

/// Fills the buffer, or reads to the end of the input.
fn fill<L: Link>(link: &mut L, buf: &mut [u8]) -> Result<usize, LinkFault>
    ensures on { LinkGoesOn L.tells L.sent L.budget L.taken L.faults link.old link.new }
    ensures sent { IsTrue (L.tells link.old) → L.sent link.new ≡ L.sent link.old }
    ensures counted { IsTrue (L.tells link.old) → L.taken link.new + length (L.left link.new) ≡ L.taken link.old + length (L.left link.old) }
    ensures took { IfOk result (λ n. Took L.tells L.left L.sent L.budget L.taken n link.old link.new) }
    ensures bytes { IfOk result (λ n. IsTrue (L.tells link.old) → take n buf.new ≡ take n (L.left link.old)) }
    ensures size { IfOk result (λ n. n ≤ length buf.new) }
    ensures end { IfOk result (λ n. n < length buf.new → IsTrue (L.tells link.old) → L.left link.new ≡ []) }
    ensures cause { OnErr result (Rose (L.faults link.old) (L.faults link.new)) }
{
    let mut n = 0;
    while n < buf.len() {
        match link.read(&mut buf[n..])? {
            Piece::Got(more) => n += more,
            Piece::End => return Ok(n),
        }
    }
    Ok(n)
}

/// Reads past so many bytes, or to the end of the input.
fn skip<L: Link>(link: &mut L, size: u64) -> Result<(), LinkFault>
    ensures on { LinkGoesOn L.tells L.sent L.budget L.taken L.faults link.old link.new }
    ensures sent { IsTrue (L.tells link.old) → L.sent link.new ≡ L.sent link.old }
    ensures counted { IsTrue (L.tells link.old) → L.taken link.new + length (L.left link.new) ≡ L.taken link.old + length (L.left link.old) }
    ensures rest { OnOk result (IsTrue (L.tells link.old) → L.left link.new ≡ drop size (L.left link.old)) }
    ensures cause { OnErr result (Rose (L.faults link.old) (L.faults link.new)) }
{
    let mut chunk = [0; 4096];
    let mut rest = size;
    while rest > 0 {
        let want = rest.min(4096) as usize;
        let got = fill(link, &mut chunk[..want])?;
        if got < want {
            return Ok(());
        }
        rest -= want as u64;
    }
    Ok(())
}

/// Adds so many bytes to the body, or reads to the end of the input and answers `false`.
fn read_piece<L: Link>(link: &mut L, size: usize, body: &mut Vec<u8>) -> Result<bool, Error>
    requires { size ≤ 65536 }
    ensures on { LinkGoesOn L.tells L.sent L.budget L.taken L.faults link.old link.new }
    ensures sent { IsTrue (L.tells link.old) → L.sent link.new ≡ L.sent link.old }
    ensures counted { IsTrue (L.tells link.old) → L.taken link.new + length (L.left link.new) ≡ L.taken link.old + length (L.left link.old) }
    ensures taken { IfOk result (λ whole. IsTrue whole → L.taken link.new ≡ L.taken link.old + size) }
    ensures size { OnOk result (vec_len body.new ≡ vec_len body.old + size) }
    ensures piece { IfOk result (λ whole. IsTrue (L.tells link.old) → IsPiece size (L.left link.old) (L.left link.new) body.old.items body.new.items whole) }
    ensures refused { IfErr result (λ e. IsLinkRefusal (Rose (L.faults link.old) (L.faults link.new)) e) }
{
    let at = body.len();
    body.resize(at + size, 0)?;
    let got = fill(link, &mut body[at..])?;
    Ok(got == size)
}

/// Reads a body of this size into the buffer, or to the end of the input and answers `false`.
fn read_body<L: Link>(link: &mut L, size: u64, body: &mut Vec<u8>) -> Result<bool, Error>
    ensures on { LinkGoesOn L.tells L.sent L.budget L.taken L.faults link.old link.new }
    ensures sent { IsTrue (L.tells link.old) → L.sent link.new ≡ L.sent link.old }
    ensures counted { IsTrue (L.tells link.old) → L.taken link.new + length (L.left link.new) ≡ L.taken link.old + length (L.left link.old) }
    ensures taken { IfOk result (λ whole. IsTrue whole → L.taken link.new ≡ L.taken link.old + size) }
    ensures size { IfOk result (λ whole. IsTrue whole → vec_len body.new ≡ size) }
    ensures body { IfOk result (λ whole. IsTrue (L.tells link.old) → IsPiece size (L.left link.old) (L.left link.new) [] body.new.items whole) }
    ensures refused { IfErr result (λ e. IsLinkRefusal (Rose (L.faults link.old) (L.faults link.new)) e) }
{
    body.clear();
    let mut rest = size;
    while rest > 0 {
        let want = rest.min(PIECE);
        if !read_piece(link, want as usize, body)? {
            return Ok(false);
        }
        rest -= want;
    }
    Ok(true)
}

/// What a body holds: a request, whether or not it is answered, or no word of one.
fn frame_in(alloc: Global, body: &[u8]) -> Result<Frame, AllocError>
    ensures is { IfOk result (λ frame. frame ≡ frame_in body.now) }
    ensures size { IfOk result (λ frame. frame_size frame ≤ length body.now) }
{
    match read_request(alloc, body)? {
        Some(request) => Ok(Frame::Good(request)),
        None => Ok(Frame::Bad),
    }
}

/// Reads frames from a link, none of whose bodies is longer than the limit. A longer one is read past.
#[derive(Debug, Drop)]
pub struct FrameReader {
    alloc: Global,
    limit: u32,
    /// The body of the last frame: its memory is used again.
    body: Vec<u8>,
}

impl FrameReader {
    /// A reader at the beginning of a link's input. A frame whose body is longer than the limit, in bytes, is read past
    /// and is bad.
    pub fn new(alloc: Global, limit: u32) -> FrameReader
        ensures { result.limit ≡ limit }
    {
        FrameReader {
            alloc,
            limit,
            body: Vec::new(alloc),
        }
    }

    /// The frame behind a length.
    fn behind<L: Link>(&mut self, link: &mut L, size: u64) -> Result<Frame, Error>
        ensures on { LinkGoesOn L.tells L.sent L.budget L.taken L.faults link.old link.new }
        ensures sent { IsTrue (L.tells link.old) → L.sent link.new ≡ L.sent link.old }
        ensures counted { IsTrue (L.tells link.old) → L.taken link.new + length (L.left link.new) ≡ L.taken link.old + length (L.left link.old) }
        ensures behind { IfOk result (λ frame. IsTrue (L.tells link.old) → IsBehind self.old.limit size (L.left link.old) (L.left link.new) frame) }
        ensures size { IfOk result (λ frame. L.taken link.old + frame_size frame ≤ L.taken link.new) }
        ensures limit { self.new.limit ≡ self.old.limit }
        ensures refused { IfErr result (λ e. IsLinkRefusal (Rose (L.faults link.old) (L.faults link.new)) e) }
    {
        if size > u64::from(self.limit) {
            skip(link, size)?;
            return Ok(Frame::Bad);
        }
        if !read_body(link, size, &mut self.body)? {
            return Ok(Frame::Bad);
        }
        Ok(frame_in(self.alloc, &self.body)?)
    }

    /// The next frame, or `None` at the end of the input. After an error it is not called again.
    pub fn next<L: Link>(&mut self, link: &mut L) -> Result<Option<Frame>, Error>
        ensures on { LinkGoesOn L.tells L.sent L.budget L.taken L.faults link.old link.new }
        ensures sent { IsTrue (L.tells link.old) → L.sent link.new ≡ L.sent link.old }
        ensures counted { IsTrue (L.tells link.old) → L.taken link.new + length (L.left link.new) ≡ L.taken link.old + length (L.left link.old) }
        ensures found { IfOk result (λ found. IsTrue (L.tells link.old) → Found self.old.limit (L.left link.old) (L.left link.new) found) }
        ensures size { IfOk result (λ found. IfSome found (HasCome (L.taken link.new - L.taken link.old))) }
        ensures nearer { IfOk result (λ found. IsSome found → L.budget link.new - L.taken link.new < L.budget link.old - L.taken link.old) }
        ensures limit { self.new.limit ≡ self.old.limit }
        ensures refused { IfErr result (λ e. IsLinkRefusal (Rose (L.faults link.old) (L.faults link.new)) e) }
    {
        let mut head = [0; 8];
        let got = fill(link, &mut head)?;
        if got == 0 {
            return Ok(None);
        }
        if got < 8 {
            return Ok(Some(Frame::Bad));
        }
        Ok(Some(self.behind(link, u64::from_be_bytes(head))?))
    }
}
