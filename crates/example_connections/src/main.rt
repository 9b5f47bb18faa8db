//! Connections: a server handles one connection after another. Each connection is two threads at a table of its own,
//! which is dropped when the connection ends.
#![tactic(auto)]

use std::alloc::Global;
use std::sync::Wait;
use std::thread::Threads;
use yalwythen::channels::closable;
use yalwythen::steps::{close, read, write};
use yalwythen::workers::{RunFault, Session, TransactError, Worker, run};

// The indexes of the channels of a connection.
const REQUESTS: u16 = 0;

const REPLIES: u16 = 1;

/// A thread of a connection.
#[derive(Drop)]
enum Side {
    /// Sends this many requests, and counts the replies.
    Client { requests: u64, replies: u64 },
    /// Replies to each request, until there are no more.
    Server,
}

impl<R: Wait> Worker<R> for Side {
    fn work(&mut self, rt: &R, session: &mut Session<'_>) -> Result<(), TransactError> {
        match self {
            Side::Client { requests, replies } => ask(rt, session, *requests, replies),
            Side::Server => answer(rt, session),
        }
    }
}

/// Writes the requests, and reads replies until their channel is closed and empty.
fn ask<R: Wait>(
    rt: &R,
    session: &mut Session<'_>,
    requests: u64,
    replies: &mut u64,
) -> Result<(), TransactError> {
    for request in 0..requests {
        session.run(rt, [write(REQUESTS, request)])?;
    }
    session.run(rt, [close(REQUESTS)])?;
    for _ in rt.forever() {
        let Some(_reply) = session.take(rt, [read(REPLIES)])? else {
            break;
        };
        *replies = replies.saturating_add(1);
    }
    Ok(())
}

/// Replies to each request with twice its number, until there are no more.
fn answer<R: Wait>(rt: &R, session: &mut Session<'_>) -> Result<(), TransactError> {
    for _ in rt.forever() {
        let Some(request) = session.take(rt, [read(REQUESTS)])? else {
            break;
        };
        session.run(rt, [write(REPLIES, request.body.saturating_mul(2))])?;
    }
    session.run(rt, [close(REPLIES)])
}

/// Handles a connection at a table of its own, and returns how many replies its client got.
fn handle<R: Threads + Wait + Sync>(rt: &R, alloc: Global, requests: u64) -> Result<u64, RunFault> {
    let client = Side::Client {
        requests,
        replies: 0,
    };
    let sides = vec![in alloc; client, Side::Server]?;
    let done = run(rt, alloc, &[closable(), closable()], sides)?;
    let mut got = 0;
    for side in done.workers {
        if let Side::Client { replies, .. } = side {
            got = replies;
        }
    }
    Ok(got)
}

fn main(rt: HostRuntime) -> anyhow::Result<()> {
    let alloc = rt.alloc();
    let mut replies = 0u64;
    for requests in 1..11u64 {
        replies = replies.saturating_add(handle(&rt, alloc, requests)?);
    }
    println!(rt; "10 connections, {replies} replies")?;
    Ok(())
}
