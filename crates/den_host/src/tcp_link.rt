//! One connection over TCP.
ghost use Rattle.std.specs.Prelude.{◌≡◌, ◌≤◌, ◌^◌, false, [], IfOk, length};

use crate::cause::{Cause, noted};
use crate::system_call::{accept_once, counted, read_once};
use den_disk::{Disk, Link, LinkFault, Piece};
use std::io;
use std::io::{BufReader, ErrorKind, Write};
use std::net::{Ipv4Addr, Net, OpenStream, SocketAddr, SocketAddrV4};

// How many bytes may be taken in all.
const BUDGET: u64 = 1 << 63;

// How many bytes are asked of the operating system at once.
const ROOM: usize = 64 * 1024;

/// Requests come from the first client that connects to a port of 127.0.0.1, and replies go to it at once. The port is
/// held as long as the link is there, and other clients wait unanswered. The end of the input is the client's shutdown; a
/// connection that it resets is a fault.
#[derive(Drop)]
pub struct TcpLink<R: Net + Alloc> {
    rt: R,
    port: u16,
    listener: Option<R::Listener>,
    connection: Option<BufReader<R::Stream, R::A>>,
    taken: u64,
    faults: u64,
    cause: Option<Cause>,
}

impl<R: Net + Alloc> TcpLink<R> {
    /// A link over this port. It listens, and waits for its client, at the first read or send.
    pub fn new(rt: R, port: u16) -> TcpLink<R> {
        TcpLink {
            rt,
            port,
            listener: None,
            connection: None,
            taken: 0,
            faults: 0,
            cause: None,
        }
    }

    /// Why the last call that failed did so.
    pub fn cause(&self) -> Option<Cause> {
        self.cause
    }
}

impl<R: Net + Alloc> Link for TcpLink<R> {
    ghost tells = { λ _. false };

    ghost left = { λ _. [] };

    ghost taken = { λ link. link.taken };

    ghost sent = { λ _. [] };

    ghost budget = { λ _. 2 ^ 63 };

    ghost faults = { λ link. link.faults };

    fn read(&mut self, buf: &mut [u8]) -> Result<Piece, LinkFault> {
        let read = if self.taken < BUDGET {
            receive(
                &self.rt,
                self.port,
                &mut self.listener,
                &mut self.connection,
                buf,
            )
        } else {
            Err(Cause::Receive(io::Error::from(ErrorKind::QuotaExceeded).into()))
        };
        let n = counted(&mut self.faults, noted(&mut self.cause, read), LinkFault)?;
        if n == 0 {
            return Ok(Piece::End);
        }
        self.taken += n as u64;
        Ok(Piece::Got(n))
    }

    fn send<D: Disk>(&mut self, piece: &[u8], _disk: &D) -> Result<(), LinkFault> {
        let sent = send_all(
            &self.rt,
            self.port,
            &mut self.listener,
            &mut self.connection,
            piece,
        );
        counted(&mut self.faults, noted(&mut self.cause, sent), LinkFault)
    }
}

// Listens on the port, and waits for a client.
fn connect<R: Net + Alloc>(
    rt: &R,
    port: u16,
    held: &mut Option<R::Listener>,
) -> Result<BufReader<R::Stream, R::A>, Cause> {
    let address = SocketAddr::V4(SocketAddrV4::new(Ipv4Addr::LOCALHOST, port));
    let listener = rt.bind(address).map_err(|e| Cause::Port(port, e.into()))?;
    let stream = accept_once(held.insert(listener)).map_err(|e| Cause::Port(port, e.into()))?;
    stream
        .set_nodelay(true)
        .map_err(|e| Cause::Port(port, e.into()))?;
    BufReader::with_capacity(rt.alloc(), ROOM, stream).map_err(|_| Cause::Port(
        port,
        io::Error::from(ErrorKind::OutOfMemory).into(),
    ))
}

// Reads from the connection, which is made where there is none.
fn receive<R: Net + Alloc>(
    rt: &R,
    port: u16,
    listener: &mut Option<R::Listener>,
    connection: &mut Option<BufReader<R::Stream, R::A>>,
    buf: &mut [u8],
) -> Result<usize, Cause>
    ensures { IfOk result (λ n. n ≤ length buf.old) }
{
    if let Some(stream) = connection {
        return read_once(stream, buf).map_err(|e| Cause::Receive(e.into()));
    }
    let stream = connection.insert(connect(rt, port, listener)?);
    read_once(stream, buf).map_err(|e| Cause::Receive(e.into()))
}

// Writes to the connection, which is made where there is none.
fn send_all<R: Net + Alloc>(
    rt: &R,
    port: u16,
    listener: &mut Option<R::Listener>,
    connection: &mut Option<BufReader<R::Stream, R::A>>,
    piece: &[u8],
) -> Result<(), Cause> {
    if let Some(stream) = connection {
        return stream
            .get_mut()
            .write_all(piece)
            .map_err(|e| Cause::Send(e.into()));
    }
    let stream = connection.insert(connect(rt, port, listener)?);
    stream
        .get_mut()
        .write_all(piece)
        .map_err(|e| Cause::Send(e.into()))
}

#[cfg(test)]
mod tests {
    use super::*;
    use den_disk::MemDisk;
    use std::io::Read;
    use std::net::{OpenListener, Shutdown, TcpListener, TcpStream};
    use std::test::Fail;

    // A client that waits in the backlog: it connects, sends and shuts its half down before the link takes it.
    #[test]
    fn serves_one_client(rt: HostRuntime) -> Result<(), Fail> {
        let listener = TcpListener::bind(&rt, (Ipv4Addr::LOCALHOST, 0u16))?;
        let address = OpenListener::local_addr(&listener)?;
        let mut client = TcpStream::connect(&rt, address)?;
        client.write_all(b"abcde")?;
        client.shutdown(Shutdown::Write)?;
        let disk = MemDisk::new(rt.alloc());
        let mut link = TcpLink::new(rt, address.port());
        assert_eq!(rt; link.send(b"reply", &disk), Err(LinkFault));
        assert!(rt; matches!(link.cause(), Some(Cause::Port(_, _))));
        link.connection = Some(BufReader::with_capacity(
            rt.alloc(),
            ROOM,
            accept_once(&listener)?,
        )?);
        let mut buf = [0u8; 4];
        assert_eq!(rt; link.read(&mut buf)?, Piece::Got(4));
        assert_eq!(rt; link.read(&mut buf)?, Piece::Got(1));
        assert_eq!(rt; link.read(&mut buf)?, Piece::End);
        link.send(b"reply", &disk)?;
        assert_eq!(rt; client.read(&mut buf)?, 4);
        assert_eq!(rt; buf.as_slice(), b"repl".as_slice());
        assert_eq!(rt; link.faults, 1);
        Ok(())
    }
}
