//! Addresses of this machine.
use std::io;
use std::net::TcpListener;

/// An address of this machine at which nobody listens.
pub(crate) fn free_address(rt: HostRuntime) -> io::Result<String> {
    let listener = TcpListener::bind(&rt, "127.0.0.1:0")?;
    let address = listener.local_addr()?;
    Ok(format!(in rt.alloc(); "{address}")?)
}
