use client::Dialer;
use serve_sockets::TcpDialer;
use std::io::{Read, Write};
use std::net::TcpListener;
use std::test::*;

/// What comes of calls over a connection to a port of this machine: whether it is there, the bytes that come to its other side and those
/// that come back, the connection's end once the other side is gone, and whether a dial of a port where nobody listens and a write
/// without a connection fail.
fn talk(rt: HostRuntime) -> Option<([u8; 5], [u8; 4], usize, bool, bool)> {
    let listener = TcpListener::bind(&rt, "127.0.0.1:0").ok()?;
    let address = listener.local_addr().ok()?;
    let address = format!(in rt.alloc(); "{address}").ok()?;
    let mut dialer = TcpDialer::new(rt);
    dialer.dial(address.as_str()).ok()?;
    let asked = hear(&listener, &mut dialer)?;
    let mut told = [0; 4];
    dialer.read(&mut told).ok()?;
    let end = dialer.read(&mut [0; 8]).ok()?;
    let refused = dialer.dial("127.0.0.1:1").is_err();
    let unlinked = dialer.write_all(b"asked").is_err();
    Some((asked, told, end, refused, unlinked))
}

/// What the other side of the connection hears, which answers and is gone.
fn hear<D: Dialer>(listener: &TcpListener, dialer: &mut D) -> Option<[u8; 5]> {
    let (mut peer, _) = listener.accept().ok()?;
    dialer.write_all(b"asked").ok()?;
    let mut asked = [0; 5];
    peer.read(&mut asked).ok()?;
    peer.write_all(b"told").ok()?;
    Some(asked)
}

#[test]
fn a_dialer_talks_over_a_socket(rt: HostRuntime) -> Result<(), Fail> {
    assert_eq!(rt; talk(rt), Some((*b"asked", *b"told", 0, true, true)));
    Ok(())
}
