//! Letters: a writer sends values of its own type and closes the channel after the last one; a reader prints them.
#![tactic(auto)]

use std::sync::Wait;
use yalwythen::channels::closable;
use yalwythen::payloads::Payloads;
use yalwythen::steps::{close, read, write};
use yalwythen::workers::{Session, TransactError, Worker, run};

// The index of the only channel.
const POST: u16 = 0;

/// A value that is sent.
#[derive(Drop)]
struct Letter {
    name: &'static str,
    text: String,
}

/// The role of a thread.
#[derive(Drop)]
enum Hand<'a> {
    Writer(&'a Payloads<Letter>),
    Reader(&'a Payloads<Letter>),
}

impl<R: Wait + Print> Worker<R> for Hand<'_> {
    fn work(&mut self, rt: &R, session: &mut Session<'_>) -> Result<(), TransactError> {
        match self {
            Hand::Writer(letters) => send(rt, session, letters),
            Hand::Reader(letters) => receive(rt, session, letters),
        }
    }
}

/// Sends a letter to each of three people, and closes the channel after the last one.
fn send<R: Wait>(
    rt: &R,
    session: &mut Session<'_>,
    letters: &Payloads<Letter>,
) -> Result<(), TransactError> {
    for name in ["Ada", "Emmy", "Grace"] {
        let text = format!(in session.alloc(); "dear {name}, nothing was lost")?;
        let key = letters.put(rt, Letter { name, text })?;
        session.run(rt, [write(POST, key)])?;
    }
    session.run(rt, [close(POST)])
}

/// Prints each letter, until the channel is closed and empty.
fn receive<R: Wait + Print>(
    rt: &R,
    session: &mut Session<'_>,
    letters: &Payloads<Letter>,
) -> Result<(), TransactError> {
    for _ in rt.forever() {
        let Some(item) = session.take(rt, [read(POST)])? else {
            break;
        };
        if let Some(letter) = letters.open(rt, &item) {
            let _printed = println!(rt; "to {}: {}", letter.name, letter.text);
        }
    }
    Ok(())
}

fn main(rt: HostRuntime) -> anyhow::Result<()> {
    let alloc = rt.alloc();
    let letters = Payloads::new(alloc);
    let hands = vec![in alloc; Hand::Reader(&letters), Hand::Writer(&letters)]?;
    let done = run(&rt, alloc, &[closable()], hands)?;
    done.ended()?;
    println!(rt; "{} letters left", letters.len(&rt))?;
    Ok(())
}
