//! The answers of a link over sockets of this machine.
ghost use Rattle.std.specs.Prelude.{IsTrue};
ghost use Rattle.ct_outside.specs.Causes.{Rose};

use ct_links::link::{Peer, TcpLink};
use ct_outside::fault::LinkFault;
use ct_outside::link::{Link, Received};
use std::alloc::Global;
use std::io::{self, Read, Write};
use std::net::{Ipv4Addr, Net, SocketAddr, TcpListener, TcpStream};
use std::test::Fail;

// How often a link is asked for what is to come.
const LOOKS: u32 = 10_000_000;

// What a look gives, or is to give.
#[derive(Clone, Copy, Debug, PartialEq, Eq)]
enum Heard<'a> {
    Piece(u32, &'a [u8]),
    Nothing,
    Closed,
    Failed,
    NoMemory,
}

fn heard_as(answer: &Result<Received, LinkFault>) -> Heard<'_> {
    match answer {
        Ok(Received::Piece { sender, bytes }) => Heard::Piece(*sender, bytes.as_slice()),
        Ok(Received::Nothing) => Heard::Nothing,
        Ok(Received::Closed) => Heard::Closed,
        Err(LinkFault::Failed) => Heard::Failed,
        Err(LinkFault::NoMemory) => Heard::NoMemory,
    }
}

// The first answer that is not that nothing is there yet.
fn answered<L: Link>(link: &mut L) -> Result<Received, LinkFault> {
    for _ in 0..LOOKS {
        match link.receive(true) {
            Ok(Received::Nothing) => {}
            answer => return answer,
        }
    }
    Ok(Received::Nothing)
}

// The pieces that come of this node, joined, until so many bytes are there; what came, where another answer comes first.
fn joined<L: Link>(alloc: Global, link: &mut L, node: u32, size: usize) -> Result<Vec<u8>, Fail> {
    let mut all = Vec::new(alloc);
    for _ in 0..size {
        if all.len() >= size {
            return Ok(all);
        }
        match answered(link) {
            Ok(Received::Piece { sender, bytes }) if sender == node => {
                all.extend_from_slice(bytes.as_slice())?;
            }
            _ => return Ok(all),
        }
    }
    Ok(all)
}

// A send that fails raises the count of faults.
fn send_fails<L: Link>(link: &mut L, to: u32, bytes: &[u8]) -> bool
    ensures { IsTrue result → Rose (L.faults link.old) (L.faults link.new) }
{
    match link.send(to, bytes) {
        Err(LinkFault::Failed) => true,
        _ => false,
    }
}

// Does one of many sends fail?
fn some_send_fails<L: Link>(link: &mut L, to: u32) -> bool {
    for _ in 0..LOOKS {
        if send_fails(link, to, b"lost") {
            return true;
        }
    }
    false
}

// A stream to this address that does not block.
fn stream_to<R: Net<Stream = TcpStream>>(rt: &R, address: SocketAddr) -> io::Result<TcpStream> {
    let stream = TcpStream::connect(rt, address)?;
    stream.set_nonblocking(true)?;
    Ok(stream)
}

// The link of node 0 over a stream to each of these nodes, and the other ends of the streams.
fn linked<R: Net<Listener = TcpListener, Stream = TcpStream>>(
    rt: &R,
    alloc: Global,
    nodes: &[u32],
) -> Result<(TcpLink, Vec<TcpStream>), Fail> {
    let listener = TcpListener::bind(rt, SocketAddr::from((Ipv4Addr::LOCALHOST, 0)))?;
    let address = listener.local_addr()?;
    let mut peers = Vec::new(alloc);
    let mut others = Vec::new(alloc);
    for node in nodes {
        let stream = stream_to(rt, address)?;
        let (other, _) = listener.accept()?;
        peers.push(Peer {
            node: *node,
            stream,
        })?;
        others.push(other)?;
    }
    let link = TcpLink::new(alloc, 0, peers)?;
    Ok((link, others))
}

#[test]
fn pieces_joined_are_what_was_sent(rt: HostRuntime) -> Result<(), Fail> {
    let alloc = rt.alloc();
    let (mut link, mut others) = linked(&rt, alloc, &[1])?;
    assert_eq!(rt; heard_as(&link.receive(true)), Heard::Nothing);
    assert!(rt; link.send(1, b"there").is_ok());
    for other in others.iter_mut() {
        let mut got = [0; 5];
        other.read_exact(&mut got)?;
        assert_eq!(rt; got, *b"there");
        for part in [b"half a fr".as_slice(), b"ame, and more".as_slice()] {
            other.write_all(part)?;
            assert_eq!(rt; joined(alloc, &mut link, 1, part.len())?.as_slice(), part);
            assert_eq!(rt; heard_as(&link.receive(true)), Heard::Nothing);
        }
    }
    Ok(())
}

// Is this the first answer that is not that nothing is there yet?
fn answers_so<L: Link>(link: &mut L, want: Heard<'static>) -> bool {
    let answer = answered(link);
    heard_as(&answer) == want
}

// Is nothing there?
fn hears_nothing<L: Link>(link: &mut L, may_wait: bool) -> bool {
    let answer = link.receive(may_wait);
    heard_as(&answer) == Heard::Nothing
}

// Is it answered that nothing will come any more, and only to a look that may wait?
fn has_ended<L: Link>(link: &mut L) -> bool {
    answers_so(link, Heard::Closed) && hears_nothing(link, false)
}

// The last of the streams brings a word, and ends.
fn end_last(others: &mut Vec<TcpStream>) -> Result<(), Fail> {
    let Some(mut last) = others.pop() else {
        return Err(Fail::new("no stream to node 1"));
    };
    last.write_all(b"last")?;
    drop(last);
    Ok(())
}

#[test]
fn the_end_comes_once_all_have_ended(rt: HostRuntime) -> Result<(), Fail> {
    let (mut link, mut others) = linked(&rt, rt.alloc(), &[2, 1])?;
    assert!(rt; link.send(0, b"own").is_ok());
    end_last(&mut others)?;
    assert!(rt; answers_so(&mut link, Heard::Piece(0, b"own")));
    assert!(rt; answers_so(&mut link, Heard::Piece(1, b"last")));
    for number in 0..3u32 {
        assert!(rt; hears_nothing(&mut link, true), "look {number}");
    }
    drop(others);
    assert!(rt; has_ended(&mut link));
    assert!(rt; has_ended(&mut link));
    Ok(())
}

#[test]
fn who_is_not_there_gets_nothing(rt: HostRuntime) -> Result<(), Fail> {
    let (mut link, others) = linked(&rt, rt.alloc(), &[1])?;
    drop(others);
    assert!(rt; some_send_fails(&mut link, 1));
    let listener = TcpListener::bind(&rt, SocketAddr::from((Ipv4Addr::LOCALHOST, 0)))?;
    let address = listener.local_addr()?;
    drop(listener);
    assert!(rt; stream_to(&rt, address).is_err());
    Ok(())
}
