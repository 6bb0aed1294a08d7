//! Doors, with memory at hand.

ghost use Rattle.std.specs.Prelude.{IfOk};
ghost use Rattle.door_edge.specs.Conns.{IsNew};

use crate::{ConnList, Door, MemConn, MemDoor, TcpDoor};
use base::{Bytes, Counts};
use bench_edge::{EdgeStop, read_upto, write_all};
use std::io::{Read, Write};
use std::net::{Ipv4Addr, SocketAddr, SocketAddrV4, TcpStream};
use std::process;
use std::test::Fail;

fn conn_of(rt: &impl AllocGlobal, text: &str) -> Result<MemConn, Fail>
    ensures { IfOk result IsNew }
{
    let bytes = Bytes::from_slice(rt.alloc(), text.as_bytes())?;
    let reads = Counts::new(rt.alloc());
    let writes = Counts::new(rt.alloc());
    Ok(MemConn::new(rt.alloc(), bytes, reads, writes))
}

#[test]
fn connections_come_and_are_finished_in_order(rt: HostRuntime) -> Result<(), Fail> {
    let mut conns = ConnList::new(rt.alloc());
    let first = conn_of(&rt, "first")?;
    conns.push(first)?;
    let second = conn_of(&rt, "second")?;
    conns.push(second)?;
    let failing = Counts::from_slice(rt.alloc(), &[2])?;
    let mut door = MemDoor::new(rt.alloc(), conns, failing);
    door.listen(8080)?;
    assert!(rt; matches!(door.accept(), Err(EdgeStop::Failed)));
    for want in ["first", "second"] {
        let mut conn = door.accept()?;
        let bytes = read_upto(rt.alloc(), &mut conn, 9)?;
        assert_eq!(rt; bytes.as_slice(), want.as_bytes());
        write_all(&mut conn, bytes.as_slice())?;
        door.finish(conn);
    }
    assert!(rt; matches!(door.accept(), Err(EdgeStop::Failed)));
    let finished = door.finished().as_slice();
    assert_eq!(rt; finished.len(), 2);
    assert_eq!(rt; finished[0].written(), b"first".as_slice());
    assert_eq!(rt; finished[1].written(), b"second".as_slice());
    Ok(())
}

#[test]
fn a_socket_on_loopback_is_read_and_written(rt: HostRuntime) -> Result<(), Fail> {
    let port = 20_000 + (process::id(rt.process()) % 20_000) as u16;
    let mut door = TcpDoor::new(rt.clone()?);
    assert!(rt; matches!(door.accept(), Err(EdgeStop::Failed)));
    door.listen(port)?;
    let addr = SocketAddr::V4(SocketAddrV4::new(Ipv4Addr::LOCALHOST, port));
    let mut client = TcpStream::connect(&rt, addr)?;
    client.write_all(b"ping")?;
    let mut conn = door.accept()?;
    let bytes = read_upto(rt.alloc(), &mut conn, 4)?;
    assert_eq!(rt; bytes.as_slice(), b"ping".as_slice());
    write_all(&mut conn, b"pong")?;
    door.finish(conn);
    let mut reply = [0u8; 4];
    client.read_exact(&mut reply)?;
    assert_eq!(rt; reply.as_slice(), b"pong".as_slice());
    Ok(())
}
