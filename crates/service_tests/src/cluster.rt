//! Two nodes over this machine's sockets.

use crate::addresses::free_address;
use crate::silent::Silent;
use crate::words::named;
use client::Dialer;
use disk_model::MemDisk;
use serve_node::{ServeEnd, serve};
use serve_sockets::{TcpDialer, TcpHost};
use session_gateway::Read;
use sql_engine::CellEngine;
use std::alloc::Global;
use std::sync::Wait;
use std::test::*;
use std::thread;
use std::thread::Threads;
use std::time::{Clock, Duration};

/// How many events each node takes before it ends: enough for many elections, as some 80 come in a second.
const EVENTS: &str = "1000";

/// The version of the wire, and an OPEN of `d`.
const OPEN: &[u8] =
    b"\x01\0\0\0\0\0\0\0\x04\0\0\0\x03\0\0\0d\0\0\0\0\0\0\0\0\0\0\0\0\0\0\0volatile\0\0\0\0\0\0\0\0";

/// EXEC_SQL of `SET 1 7`.
const SET: &[u8] = b"\x02\0\0\0\x08\0\0\0\0\0\0\0\0\0\0\0SET 1 7\0";

/// The version of the wire, and LEADER.
const VERSION: &[u8] = b"\x01\0\0\0\0\0\0\0";

const LEADER: &[u8] = b"\x01\0\0\0\0\0\0\0\0\0\0\0\0\0\0\0";

/// How many requests use a node up.
const REQUESTS: u32 = 1_000;

/// The numbers of the responses DB and STMT_RESULT.
const DB: u8 = 4;

const RESULT: u8 = 6;

/// How many times the nodes are asked, and how long a client waits in between, in milliseconds.
const TRIES: u32 = 200;

const PAUSE: u64 = 100;

/// The number of the next response; it is read to its end.
fn response<D: Dialer>(alloc: Global, dialer: &mut D) -> Option<u8> {
    let head = read(alloc, dialer, 8)?;
    let (Some(words), Some(kind)) = (head.first(), head.get(4)) else {
        return None;
    };
    read(alloc, dialer, 8 * *words as usize)?;
    Some(*kind)
}

/// The next bytes of a connection, this many.
fn read<D: Dialer>(alloc: Global, dialer: &mut D, size: usize) -> Option<Vec<u8>> {
    let mut bytes = Vec::new(alloc);
    let mut byte = [0; 1];
    for _ in 0..size {
        if dialer.read(&mut byte).ok()? == 0 {
            return None;
        }
        bytes.push(byte[0]).ok()?;
    }
    Some(bytes)
}

/// Whether the node at an address does a write.
fn writes<D: Dialer>(dialer: &mut D, alloc: Global, address: &str) -> Option<bool> {
    dialer.dial(address).ok()?;
    dialer.write_all(OPEN).ok()?;
    if response(alloc, dialer)? != DB {
        return Some(false);
    }
    dialer.write_all(SET).ok()?;
    Some(response(alloc, dialer)? == RESULT)
}

/// Uses the events of the node at an address up, by one request after the other, until its connection ends.
fn use_up<D: Dialer>(dialer: &mut D, alloc: Global, address: &str) -> Option<()> {
    dialer.dial(address).ok()?;
    dialer.write_all(VERSION).ok()?;
    for _ in 0..REQUESTS {
        dialer.write_all(LEADER).ok()?;
        response(alloc, dialer)?;
    }
    Some(())
}

/// Has a client write at one of two nodes, as soon as one does it, and then uses both up. Says whether a write was answered.
fn ask<R: Wait + Clock, D: Dialer>(
    rt: &R,
    alloc: Global,
    dialer: &mut D,
    addresses: &[&str],
) -> bool {
    let mut is_done = false;
    for _ in 0..TRIES {
        for address in addresses {
            is_done = is_done || writes(dialer, alloc, address) == Some(true);
        }
        if is_done {
            break;
        }
        thread::sleep(rt, Duration::from_millis(PAUSE));
    }
    for address in addresses {
        use_up(dialer, alloc, address);
    }
    is_done
}

/// Serves one of two nodes until it took this many events.
fn node<R: Threads + Wait + Clock + Copy + Drop + Send + 'static>(
    rt: R,
    sockets: HostRuntime,
    alloc: Global,
    words: [&str; 3],
) -> Option<ServeEnd> {
    let [id, own, peer] = words;
    let words = named(
        alloc,
        &[id, own, peer, "--engine", "cells", "--events", EVENTS],
    )?;
    let mut host: TcpHost<_, Read> = TcpHost::new(rt, sockets, alloc).ok()?;
    let mut disk = MemDisk::new(alloc);
    let mut engine = CellEngine::new(alloc);
    Some(serve(
        alloc,
        &words,
        &mut host,
        &mut disk,
        &mut engine,
        &mut Silent,
    ))
}

#[test]
fn two_nodes_do_a_write(rt: HostRuntime) -> Result<(), Fail> {
    let alloc = rt.alloc();
    let one = free_address(rt)?;
    let two = free_address(rt)?;
    let first_peer = format!(in alloc; "1={one}")?;
    let second_peer = format!(in alloc; "2={two}")?;
    let (ends, is_done) = thread::join(
        &rt,
        || {
            thread::join(
                &rt,
                || node(rt, rt, alloc, ["1", one.as_str(), second_peer.as_str()]),
                || node(rt, rt, alloc, ["2", two.as_str(), first_peer.as_str()]),
            )
        },
        || ask(
            &rt,
            alloc,
            &mut TcpDialer::new(rt),
            &[one.as_str(), two.as_str()],
        ),
    );
    assert!(rt; is_done);
    assert!(rt; ends == (Some(ServeEnd::Spent), Some(ServeEnd::Spent)));
    Ok(())
}
