//! Hello: one worker writes a number to a queue, and another one reads it.
#![tactic(auto)]

use std::sync::Wait;
use yalwythen::channels::queue;
use yalwythen::steps::{read, write};
use yalwythen::workers::{Session, TransactError, Worker, run};

#[derive(Drop)]
enum Hand {
    Writes,
    Reads,
}

impl<R: Wait + Print> Worker<R> for Hand {
    fn work(&mut self, rt: &R, session: &mut Session<'_>) -> Result<(), TransactError> {
        match self {
            Hand::Writes => session.run(rt, [write(0, 7)]),
            Hand::Reads => {
                if let Some(item) = session.take(rt, [read(0)])? {
                    let _printed = println!(rt; "{}", item.body);
                }
                Ok(())
            }
        }
    }
}

fn main(rt: HostRuntime) -> anyhow::Result<()> {
    let workers = vec![in rt.alloc(); Hand::Reads, Hand::Writes]?;
    let _done = run(&rt, rt.alloc(), &[queue()], workers)?;
    Ok(())
}
