//! A scheduler: jobs of three ranks wait in three queues. The highest rank runs first, and the stop when no job waits.
#![tactic(auto)]

use std::sync::Wait;
use yalwythen::channels::queue;
use yalwythen::or;
use yalwythen::payloads::Payloads;
use yalwythen::steps::{read, write};
use yalwythen::workers::{Session, TransactError, Worker, run};

// The indexes of the channels.
const HIGH: u16 = 0;

const MIDDLE: u16 = 1;

const LOW: u16 = 2;

const STOP: u16 = 3;

/// A job to run.
#[derive(Drop)]
struct Job {
    name: &'static str,
}

/// The role of a thread.
#[derive(Drop)]
enum Hand<'a> {
    Clerk(&'a Payloads<Job>),
    Runner(&'a Payloads<Job>),
}

impl<R: Wait + Print> Worker<R> for Hand<'_> {
    fn work(&mut self, rt: &R, session: &mut Session<'_>) -> Result<(), TransactError> {
        match self {
            Hand::Clerk(jobs) => submit(rt, session, jobs),
            Hand::Runner(jobs) => run_jobs(rt, session, jobs),
        }
    }
}

/// Submits all jobs and the stop in one transaction: the runner sees none of them, or all.
fn submit<R: Wait>(
    rt: &R,
    session: &mut Session<'_>,
    jobs: &Payloads<Job>,
) -> Result<(), TransactError> {
    let sweep = jobs.put(
        rt,
        Job {
            name: "sweep the floor",
        },
    )?;
    let fire = jobs.put(
        rt,
        Job {
            name: "put out the fire",
        },
    )?;
    let letters = jobs.put(
        rt,
        Job {
            name: "answer letters",
        },
    )?;
    let help = jobs.put(
        rt,
        Job {
            name: "call for help",
        },
    )?;
    session.run(
        rt,
        [
            write(LOW, sweep),
            write(HIGH, fire),
            write(MIDDLE, letters),
            write(HIGH, help),
            write(STOP, 0),
        ],
    )
}

/// Runs the jobs by rank, until only the stop is left.
fn run_jobs<R: Wait + Print>(
    rt: &R,
    session: &mut Session<'_>,
    jobs: &Payloads<Job>,
) -> Result<(), TransactError> {
    for _ in rt.forever() {
        let next = or![in session.alloc(); [read(HIGH)], [read(MIDDLE)], [read(LOW)], [read(STOP)]];
        let Some(item) = session.take(rt, [next])? else {
            break;
        };
        // The stop's key is that of a job that ran before it.
        let Some(job) = jobs.open(rt, &item) else {
            break;
        };
        let _printed = println!(rt; "{}", job.name);
    }
    Ok(())
}

fn main(rt: HostRuntime) -> anyhow::Result<()> {
    let alloc = rt.alloc();
    let jobs = Payloads::new(alloc);
    let hands = vec![in alloc; Hand::Runner(&jobs), Hand::Clerk(&jobs)]?;
    let channels = [queue(), queue(), queue(), queue()];
    let done = run(&rt, alloc, &channels, hands)?;
    let _ranks = done.audit(&rt, alloc, &channels)?;
    Ok(())
}
