//! A door of the system's sockets, on 127.0.0.1. What is to come and what was done is not told.

ghost use Rattle.std.specs.Prelude.{◌≡◌, ◌≤◌, ◌+◌, ◌-◌, ◌^◌, min, None};

use crate::door::Door;
use bench_edge::{EdgeStop, Sink, Source, Stream};
use std::io::{Read, Write};
use std::net::{Ipv4Addr, Net, OpenListener, SocketAddr, SocketAddrV4, TcpListener};

/// A connection over a socket.
#[derive(Drop)]
pub struct TcpConn<N: Net> {
    stream: N::Stream,
    read_faults: u64,
    write_faults: u64,
}

impl<N: Net> Stream for TcpConn<N> {
    ghost left = { λ _. None };

    ghost read_faults = { λ c. c.read_faults };

    ghost got = { λ _. None };

    ghost write_faults = { λ c. c.write_faults };
}

impl<N: Net> Source for TcpConn<N> {
    fn read(&mut self, buf: &mut [u8]) -> Result<usize, EdgeStop> {
        match self.stream.read(buf) {
            Ok(count) => Ok(count),
            Err(_) => {
                self.read_faults = self.read_faults.saturating_add(1);
                Err(EdgeStop::Failed)
            }
        }
    }
}

impl<N: Net> Sink for TcpConn<N> {
    fn write(&mut self, bytes: &[u8]) -> Result<usize, EdgeStop> {
        match self.stream.write(bytes) {
            Ok(count) if count > 0 => Ok(count),
            _ => {
                self.write_faults = self.write_faults.saturating_add(1);
                Err(EdgeStop::Failed)
            }
        }
    }
}

/// A door of sockets. There is always room, since nothing is kept of a finished connection.
#[derive(Drop)]
pub struct TcpDoor<N: Net> {
    net: N,
    listener: Option<N::Listener>,
    faults: u64,
}

impl<N: Net> TcpDoor<N> {
    pub fn new(net: N) -> Self {
        TcpDoor {
            net,
            listener: None,
            faults: 0,
        }
    }

    fn fail(&mut self) -> EdgeStop
        ensures faults { self.new.faults ≡ min (self.old.faults + 1) (2 ^ 64 - 1) }
        ensures later { self.old.faults ≤ self.new.faults }
        ensures value { result ≡ EdgeStop.Failed }
    {
        self.faults = self.faults.saturating_add(1);
        EdgeStop::Failed
    }
}

impl<N: Net> Door for TcpDoor<N> {
    type Conn = TcpConn<N>;

    ghost door_faults = { λ d. d.faults };

    ghost room = { λ _. 1 };

    ghost waiting = { λ _. None };

    ghost done = { λ _. None };

    fn listen(&mut self, port: u16) -> Result<(), EdgeStop> {
        let addr = SocketAddr::V4(SocketAddrV4::new(Ipv4Addr::LOCALHOST, port));
        match TcpListener::bind(&self.net, addr) {
            Ok(listener) => {
                self.listener = Some(listener);
                Ok(())
            }
            Err(_) => Err(self.fail()),
        }
    }

    fn accept(&mut self) -> Result<TcpConn<N>, EdgeStop> {
        let taken = match &self.listener {
            Some(listener) => listener.accept(),
            None => return Err(self.fail()),
        };
        match taken {
            Ok((stream, _)) => Ok(TcpConn {
                stream,
                read_faults: 0,
                write_faults: 0,
            }),
            Err(_) => Err(self.fail()),
        }
    }

    fn finish(&mut self, _conn: TcpConn<N>) {}
}
