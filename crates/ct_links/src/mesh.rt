//! Streams between each two of so many nodes.
ghost use Rattle.std.specs.Prelude.{◌≡◌, ◌+◌, IfOk};
ghost use Rattle.ct_links.specs.Meshes.{all_peer_nodes, mesh_of};

use crate::link::Peer;
use std::alloc::{AllocFailed, Global};
use std::io;
use std::net::{Ipv4Addr, Net, OpenListener, OpenStream, SocketAddr};
use thiserror::Error;

/// Why nodes are not joined.
#[derive(Clone, Copy, Debug, PartialEq, Eq, Error)]
pub enum MeshFault {
    /// The system refused to listen, to connect, to accept or to set up a stream, or another program connected first.
    #[error("the nodes are not joined")]
    Refused,
    /// This answer alone needs no cause.
    #[error("want of memory")]
    NoMemory,
}

impl<T: Drop> From<AllocFailed<T>> for MeshFault {
    ghost use Rattle.ct_links.specs.declared.mesh.MeshFault.TheVariants.{NoMemory as Want};

    ghost from_gives = { λ _ e. e ≡ Want };

    fn from(_e: AllocFailed<T>) -> MeshFault {
        MeshFault::NoMemory
    }
}

impl From<io::Error> for MeshFault {
    ghost use Rattle.ct_links.specs.declared.mesh.MeshFault.TheVariants.{Refused as Not};

    ghost from_gives = { λ _ e. e ≡ Not };

    fn from(_e: io::Error) -> MeshFault {
        MeshFault::Refused
    }
}

/// The stream neither blocks nor keeps back what is written.
fn set_up<S: OpenStream>(stream: &S) -> Result<(), MeshFault> {
    stream.set_nonblocking(true)?;
    stream.set_nodelay(true)?;
    Ok(())
}

/// The two ends of a stream over this machine.
fn ends<R: Net>(rt: &R) -> Result<(R::Stream, R::Stream), MeshFault> {
    let listener = rt.bind(SocketAddr::from((Ipv4Addr::LOCALHOST, 0)))?;
    let near = rt.connect(listener.local_addr()?)?;
    let (far, from) = listener.accept()?;
    if near.local_addr()? != from {
        return Err(MeshFault::Refused);
    }
    set_up(&near)?;
    set_up(&far)?;
    Ok((near, far))
}

/// One node more joins so many that are joined: each gets a stream to it, behind those that it has, and it gets one to each.
fn join_node<R: Net>(
    rt: &R,
    alloc: Global,
    all: Vec<Vec<Peer<R::Stream>>>,
    node: u32,
) -> Result<Vec<Vec<Peer<R::Stream>>>, MeshFault>
    requires { all_peer_nodes all.items ≡ mesh_of node }
    ensures { IfOk result (λ v. all_peer_nodes v.items ≡ mesh_of (node + 1)) }
{
    let mut joined = Vec::new(alloc);
    let mut own = Vec::new(alloc);
    let mut other = 0;
    for mut peers in all {
        let (near, far) = ends(rt)?;
        peers.push(Peer { node, stream: near })?;
        joined.push(peers)?;
        own.push(Peer {
            node: other,
            stream: far,
        })?;
        other += 1;
    }
    joined.push(own)?;
    Ok(joined)
}

/// Joins so many nodes by TCP over this machine: for each node the streams to all others, by ascending number. No stream blocks.
pub fn mesh<R: Net>(
    rt: &R,
    alloc: Global,
    nodes: u32,
) -> Result<Vec<Vec<Peer<R::Stream>>>, MeshFault>
    ensures { IfOk result (λ all. all_peer_nodes all.items ≡ mesh_of nodes) }
{
    let mut all = Vec::new(alloc);
    for node in 0..nodes {
        all = join_node(rt, alloc, all, node)?;
    }
    Ok(all)
}
