//! What one node writes to another, that one reads, and no other.
use ct_links::link::Peer;
use ct_links::mesh::mesh;
use std::io::{ErrorKind, Read, Write};
use std::net::TcpStream;
use std::test::Fail;

// The bytes that node `from` writes to node `to`.
fn word(from: u32, to: u32) -> [u8; 2] {
    [(from % 8) as u8, (to % 8) as u8]
}

// The next two bytes of a stream that does not block.
fn two_bytes(stream: &mut TcpStream) -> Result<[u8; 2], Fail> {
    let mut got = [0; 2];
    for _ in 0..10_000_000u32 {
        match stream.read(&mut got) {
            Ok(count) => {
                if count != 2 {
                    return Err(Fail::new("half of a word"));
                }
                return Ok(got);
            }
            Err(e) => {
                if e.kind() != ErrorKind::WouldBlock {
                    return Err(Fail::new("no word"));
                }
            }
        }
    }
    Err(Fail::new("nothing came"))
}

#[test]
fn joined_nodes_hear_each_other(rt: HostRuntime) -> Result<(), Fail> {
    let mut all = mesh(&rt, rt.alloc(), 3)?;
    assert_eq!(rt; all.len(), 3);
    let mut me: u32 = 0;
    for peers in all.iter_mut() {
        assert_eq!(rt; peers.len(), 2);
        for Peer { node, stream } in peers.iter_mut() {
            stream.write_all(&word(me, *node))?;
        }
        me = me.wrapping_add(1);
    }
    me = 0;
    for peers in all.iter_mut() {
        for Peer { node, stream } in peers.iter_mut() {
            assert_eq!(rt; two_bytes(stream)?, word(*node, me));
            assert!(rt; stream.read(&mut [0; 1]).is_err());
        }
        me = me.wrapping_add(1);
    }
    Ok(())
}
