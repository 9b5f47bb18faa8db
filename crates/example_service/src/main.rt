//! A service: a giver writes jobs, four doers run them in parallel, and a gatherer adds up the results. It keeps no
//! history, so a million jobs need no more memory than a thousand.
#![tactic(auto)]

use std::sync::Wait;
use yalwythen::channels::{closable, closable_bounded};
use yalwythen::payloads::{Payloads, ReadOutcome, TypedChannel};
use yalwythen::steps::{close, read, write};
use yalwythen::workers::{GhostLog, Server, Session, Summary, TransactError, serve};

// The indexes of the channels.
const JOBS: u16 = 0;

const ANSWERS: u16 = 1;

const OTHERS: u16 = 2;

/// The number of jobs.
const COUNT: u64 = 1_000_000;

/// The number of numbers in a job.
const SIZE: u64 = 10;

/// The number of doers.
const DOERS: u64 = 4;

/// A job: the numbers from `first` to before `end` must be added up.
#[derive(Drop)]
struct Job {
    first: u64,
    end: u64,
}

/// The role of a thread.
#[derive(Drop)]
enum Hand<'a> {
    Giver(&'a Payloads<Job>),
    Doer(&'a Payloads<Job>),
    Gatherer { answers: u64, sum: u64 },
}

impl<R: Wait> Server<R> for Hand<'_> {
    fn serve(&mut self, rt: &R, session: &mut Session<'_, GhostLog>) -> Result<(), TransactError> {
        match self {
            Hand::Giver(jobs) => give(rt, session, TypedChannel::new(jobs, JOBS)),
            Hand::Doer(jobs) => work(rt, session, TypedChannel::new(jobs, JOBS)),
            Hand::Gatherer { answers, sum } => gather(rt, session, answers, sum),
        }
    }
}

/// Writes the numbers from 1 on in jobs of ten, waiting while the channel is full, and closes it after the last.
fn give<R: Wait>(
    rt: &R,
    session: &mut Session<'_, GhostLog>,
    jobs: TypedChannel<'_, Job>,
) -> Result<(), TransactError> {
    for number in 0..COUNT {
        let first = SIZE * number + 1;
        let end = first + SIZE;
        let _sent = jobs.write(rt, session, Job { first, end })?;
    }
    // A word for each doer except one.
    for doer in 1..DOERS {
        session.run(rt, [write(OTHERS, doer)])?;
    }
    session.run(rt, [close(JOBS), close(OTHERS)])
}

/// Runs one job after another, until the channel is closed and empty.
fn work<R: Wait>(
    rt: &R,
    session: &mut Session<'_, GhostLog>,
    jobs: TypedChannel<'_, Job>,
) -> Result<(), TransactError> {
    for _ in rt.forever() {
        match jobs.read(rt, session)? {
            ReadOutcome::Value(job) => session.run(rt, [write(ANSWERS, answer(&job))])?,
            // A job that was opened elsewhere is not the end.
            ReadOutcome::Opened => continue,
            ReadOutcome::Closed => break,
        }
    }
    // Each doer that is done takes a word. The doer that finds none is the last.
    if session.take(rt, [read(OTHERS)])?.is_none() {
        session.run(rt, [close(ANSWERS)])?;
    }
    Ok(())
}

fn answer(job: &Job) -> u64 {
    let mut sum = 0u64;
    for number in job.first..job.end {
        sum = sum.saturating_add(number);
    }
    sum
}

/// Adds up the results until the channel is closed and empty.
fn gather<R: Wait>(
    rt: &R,
    session: &mut Session<'_, GhostLog>,
    answers: &mut u64,
    sum: &mut u64,
) -> Result<(), TransactError> {
    let next = session.prepare([read(ANSWERS)])?;
    for _ in rt.forever() {
        let Some(item) = session.take_prepared(rt, next)? else {
            break;
        };
        *answers = answers.saturating_add(1);
        *sum = sum.saturating_add(item.body);
    }
    Ok(())
}

/// Returns whether no reader of the channel has anything to read.
fn is_empty(summary: &Summary) -> bool {
    let mut readers = summary.remaining.as_slice().iter();
    readers.all(|items| items.as_slice().is_empty())
}

fn main(rt: HostRuntime) -> anyhow::Result<()> {
    let alloc = rt.alloc();
    let jobs = Payloads::new(alloc);
    let channels = [closable_bounded(100), closable_bounded(100), closable()];
    let mut hands = vec![in alloc; Hand::Giver(&jobs), Hand::Gatherer { answers: 0, sum: 0 }]?;
    for _ in 0..DOERS {
        hands.push(Hand::Doer(&jobs))?;
    }
    let outcome = serve(&rt, alloc, &channels, hands)?;
    outcome.ended()?;
    for hand in &outcome.servers {
        if let Hand::Gatherer { answers, sum } = hand {
            // Each of the numbers up to n = COUNT * SIZE is in one job, so the sum is n * (n + 1) / 2.
            println!(rt; "{answers} jobs, whose answers add up to {sum}")?;
        }
    }
    for summary in outcome.summaries.as_slice() {
        let (kind, entries) = (summary.kind.name(), summary.log_len);
        let (closed, empty) = (summary.closed, is_empty(summary));
        println!(rt; "{kind}: {entries} entries, closed: {closed}, empty: {empty}")?;
    }
    println!(rt; "{} jobs left", jobs.len(&rt))?;
    Ok(())
}
