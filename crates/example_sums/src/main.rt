//! Sums: a giver writes the numbers from 1 to 20, two adders add them to one total, and a teller prints the total.
#![tactic(auto)]

use std::sync::Wait;
use yalwythen::channels::{closable_bounded, queue};
use yalwythen::steps::{close, peek, read, write};
use yalwythen::workers::{Session, TransactError, Worker, run};

// The indexes of the channels.
const NUMBERS: u16 = 0;

const TOTAL: u16 = 1;

const DONE: u16 = 2;

/// The role of a thread.
#[derive(Drop)]
enum Hand {
    Giver,
    Adder,
    Teller,
}

impl<R: Wait + Print> Worker<R> for Hand {
    fn work(&mut self, rt: &R, session: &mut Session<'_>) -> Result<(), TransactError> {
        match self {
            Hand::Giver => give(rt, session),
            Hand::Adder => add(rt, session),
            Hand::Teller => tell(rt, session),
        }
    }
}

/// Writes the first total, and the numbers, two at a time. Closes the channel after the last two.
fn give<R: Wait>(rt: &R, session: &mut Session<'_>) -> Result<(), TransactError> {
    session.run(rt, [write(TOTAL, 0)])?;
    for pair in 0..10u64 {
        let (odd, even) = (2 * pair + 1, 2 * pair + 2);
        session.run(rt, [write(NUMBERS, odd), write(NUMBERS, even)])?;
    }
    session.run(rt, [close(NUMBERS)])
}

/// Adds one number after another to the total, until their channel is closed and empty, and writes that it is done.
fn add<R: Wait>(rt: &R, session: &mut Session<'_>) -> Result<(), TransactError> {
    for _ in rt.forever() {
        let Some(number) = session.take(rt, [read(NUMBERS)])? else {
            break;
        };
        // Until the total is written back, the other adder waits for it.
        if let Some(total) = session.take(rt, [read(TOTAL)])? {
            let sum = total.body.saturating_add(number.body);
            session.run(rt, [write(TOTAL, sum)])?;
        }
    }
    session.run(rt, [write(DONE, 1)])
}

/// Prints the total once both adders are done, with the number of changes to its channel.
fn tell<R: Wait + Print>(rt: &R, session: &mut Session<'_>) -> Result<(), TransactError> {
    let total = session.take(rt, [read(DONE), read(DONE), peek(TOTAL)])?;
    let account = session.account(rt, TOTAL)?;
    if let Some(total) = total {
        let changes = account.log.as_slice().len();
        let _printed = println!(rt; "{} after {changes} changes", total.body);
    }
    Ok(())
}

fn main(rt: HostRuntime) -> anyhow::Result<()> {
    let alloc = rt.alloc();
    let channels = [closable_bounded(4), queue(), queue()];
    let hands = vec![in alloc; Hand::Teller, Hand::Adder, Hand::Adder, Hand::Giver]?;
    let done = run(&rt, alloc, &channels, hands)?;
    let ranks = done.audit(&rt, alloc, &channels)?;
    println!(rt; "{} transactions, as in one order", ranks.len())?;
    Ok(())
}
