//! Lines by the sockets of the system, and by fakes of them that fail.
use super::*;
use std::io::{ErrorKind, Read, Write};
use std::net::{Net, Shutdown, SocketAddr, TcpListener, TcpStream};
use std::test::Fail;
use std::{io, thread};
use upd_base::{EdgeFault, MemberId};
use upd_lines::{Line, LineMaker};

fn member(id: u8) -> Result<MemberId, Fail> {
    Ok(MemberId::new(id).ok_or("no member")?)
}

/// The line from member 1 to member 0.
fn made<M: LineMaker>(lines: &mut M) -> Result<<M as LineMaker>::Line, Fail> {
    Ok(
        lines
            .make_line(member(1)?, member(0)?)
            .ok()
            .ok_or("a line")?,
    )
}

/// Puts two bytes, and gets what comes in two pieces.
fn carried<L: Line>(line: &mut L) -> Result<[u8; 2], EdgeFault> {
    let mut buf = [0u8; 2];
    line.put(b"ab")?;
    line.get(&mut buf[..1])?;
    line.get(&mut buf[1..])?;
    Ok(buf)
}

#[test]
fn bytes_come_back_in_order(rt: HostRuntime) -> Result<(), Fail> {
    let mut line = made(&mut LoopLines::new(rt))?;
    let mut buf = [0u8; 2];
    assert!(rt; matches!(line.get(&mut buf), Ok(0)));
    assert_eq!(rt; carried(&mut line).ok(), Some(*b"ab"));
    assert!(rt; matches!(line.get(&mut buf), Ok(0)));
    assert!(rt; matches!(line.put(b""), Ok(0)));
    Ok(())
}

#[test]
fn lines_are_apart(rt: HostRuntime) -> Result<(), Fail> {
    let mut lines = LoopLines::new(rt);
    let mut line = made(&mut lines)?;
    let mut other = lines
        .make_line(member(0)?, member(1)?)
        .ok()
        .ok_or("a line")?;
    assert!(rt; matches!(line.put(b"xy"), Ok(2)));
    assert_eq!(rt; carried(&mut other).ok(), Some(*b"ab"));
    let mut buf = [0u8; 4];
    assert!(rt; matches!(line.get(&mut buf), Ok(2)));
    assert_eq!(rt; buf, *b"xy\0\0");
    Ok(())
}

#[test]
fn a_line_moves_to_another_thread(rt: HostRuntime) -> Result<(), Fail> {
    let mut line = made(&mut LoopLines::new(&rt))?;
    let mut other = made(&mut LoopLines::new(&rt))?;
    let (there, here) = thread::join(
        &rt,
        move || carried(&mut line).ok(),
        move || carried(&mut other).ok(),
    );
    assert_eq!(rt; there, Some(*b"ab"));
    assert_eq!(rt; here, Some(*b"ab"));
    Ok(())
}

#[test]
fn a_full_line_takes_no_more(rt: HostRuntime) -> Result<(), Fail> {
    let mut line = made(&mut LoopLines::new(rt))?;
    let piece = [7u8; 5000];
    assert!(rt; matches!(line.put(&piece), Ok(4096)));
    assert!(rt; matches!(line.put(&piece), Err(EdgeFault::Failed)));
    assert!(rt; matches!(line.put(b""), Ok(0)));
    let mut buf = [0u8; 5000];
    assert!(rt; matches!(line.get(&mut buf), Ok(1..=4096)));
    assert!(rt; matches!(line.put(&piece), Ok(1..=4096)));
    Ok(())
}

#[test]
fn a_line_of_single_bytes_does_not_block(rt: HostRuntime) -> Result<(), Fail> {
    let mut line = made(&mut LoopLines::new(rt))?;
    for _ in 0..4096 {
        assert!(rt; matches!(line.put(b"a"), Ok(1)));
    }
    assert!(rt; matches!(line.put(b"a"), Err(EdgeFault::Failed)));
    let mut buf = [0u8; 1];
    for _ in 0..4096 {
        assert!(rt; matches!(line.get(&mut buf), Ok(1)));
    }
    assert!(rt; matches!(line.get(&mut buf), Ok(0)));
    Ok(())
}

/// Sockets of which none can be bound.
#[derive(Clone, Copy)]
struct Unbound(ErrorKind);

impl Net for Unbound {
    type Stream = TcpStream;

    type Listener = TcpListener;

    fn bind(&self, _addr: SocketAddr) -> io::Result<TcpListener> {
        Err(io::Error::from(self.0))
    }

    fn connect(&self, _addr: SocketAddr) -> io::Result<TcpStream> {
        Err(io::Error::from(self.0))
    }
}

#[test]
fn a_line_that_cannot_be_made(rt: HostRuntime) -> Result<(), Fail> {
    let (from, to) = (member(6)?, member(6)?);
    let mut lines = LoopLines::new(Unbound(ErrorKind::AddrInUse));
    assert!(rt; matches!(lines.make_line(from, to), Err(EdgeFault::Failed)));
    let mut lines = LoopLines::new(Unbound(ErrorKind::OutOfMemory));
    assert!(rt; matches!(lines.make_line(from, to), Err(EdgeFault::NoMemory)));
    Ok(())
}

/// Sockets at which others connect before we do.
#[derive(Clone, Copy)]
struct Crowded<R> {
    net: R,
    others: u32,
}

impl<R: Net<Stream = TcpStream, Listener = TcpListener>> Net for Crowded<R> {
    type Stream = TcpStream;

    type Listener = TcpListener;

    fn bind(&self, addr: SocketAddr) -> io::Result<TcpListener> {
        self.net.bind(addr)
    }

    fn connect(&self, addr: SocketAddr) -> io::Result<TcpStream> {
        for _ in 0..self.others {
            self.net.connect(addr)?;
        }
        self.net.connect(addr)
    }
}

#[test]
fn connections_of_others_are_let_go(rt: HostRuntime) -> Result<(), Fail> {
    let mut line = made(&mut LoopLines::new(Crowded { net: rt, others: 3 }))?;
    assert_eq!(rt; carried(&mut line).ok(), Some(*b"ab"));
    let mut lines = LoopLines::new(Crowded {
        net: rt,
        others: 32,
    });
    assert!(rt;
        matches!(
            lines.make_line(member(1)?, member(0)?),
            Err(EdgeFault::Failed)
        )
    );
    Ok(())
}

/// Sockets whose connecting ends write nothing.
#[derive(Clone, Copy)]
struct Mute<R>(R);

impl<R: Net<Stream = TcpStream, Listener = TcpListener>> Net for Mute<R> {
    type Stream = TcpStream;

    type Listener = TcpListener;

    fn bind(&self, addr: SocketAddr) -> io::Result<TcpListener> {
        self.0.bind(addr)
    }

    fn connect(&self, addr: SocketAddr) -> io::Result<TcpStream> {
        let stream = self.0.connect(addr)?;
        stream.shutdown(Shutdown::Write)?;
        Ok(stream)
    }
}

#[test]
fn a_put_into_a_closed_end_fails(rt: HostRuntime) -> Result<(), Fail> {
    let mut line = made(&mut LoopLines::new(Mute(rt)))?;
    assert!(rt; matches!(line.put(b"ab"), Err(EdgeFault::Failed)));
    assert!(rt; matches!(line.get(&mut [0]), Ok(0)));
    Ok(())
}

/// An end that was interrupted so often, before it takes every byte; its reads are at the end then.
#[derive(Drop)]
struct Stumbling {
    interrupts: u32,
}

impl Stumbling {
    fn stumble(&mut self) -> io::Result<()> {
        if self.interrupts == 0 {
            return Ok(());
        }
        self.interrupts -= 1;
        Err(io::Error::from(ErrorKind::Interrupted))
    }
}

impl Read for Stumbling {
    fn read(&mut self, _buf: &mut [u8]) -> io::Result<usize> {
        self.stumble()?;
        Ok(0)
    }
}

impl Write for Stumbling {
    fn write(&mut self, piece: &[u8]) -> io::Result<usize> {
        self.stumble()?;
        Ok(piece.len())
    }

    fn flush(&mut self) -> io::Result<()> {
        Ok(())
    }
}

#[test]
fn interrupted_calls_are_made_again(rt: HostRuntime) -> Result<(), Fail> {
    let (sender, receiver) = (Stumbling { interrupts: 31 }, Stumbling { interrupts: 1 });
    let mut line = LoopLine::new(sender, receiver);
    assert!(rt; matches!(line.put(b"ab"), Ok(2)));
    assert!(rt; matches!(line.get(&mut [0]), Err(EdgeFault::Failed)));
    let (sender, receiver) = (Stumbling { interrupts: 32 }, Stumbling { interrupts: 0 });
    let mut line = LoopLine::new(sender, receiver);
    assert!(rt; matches!(line.put(b"ab"), Err(EdgeFault::Failed)));
    Ok(())
}
