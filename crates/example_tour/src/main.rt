//! The tour: a pipeline of three stages. A counter takes orders in, two mills turn them into bills, and a cashier
//! collects the bills. A clerk prints the progress.
#![tactic(auto)]

use std::alloc::{AllocError, Global};
use std::sync::Wait;
use yalwythen::channels::{
    Account, bounded, closable, closable_bounded, closable_broadcast, queue,
};
use yalwythen::or;
use yalwythen::payloads::{Payloads, ReadOutcome, TypedChannel};
use yalwythen::steps::{close, read, write};
use yalwythen::workers::{Session, TransactError, Worker, run};

// The indexes of the channels.
const URGENT: u16 = 0;

const PLAIN: u16 = 1;

const BILLS: u16 = 2;

const DONE: u16 = 3;

const NEWS: u16 = 4;

const ORDERS: u64 = 24;

/// A customer's order, with the prices of its items.
#[derive(Drop)]
struct Order {
    customer: String,
    prices: Vec<u32>,
}

/// A customer's bill.
#[derive(Drop)]
struct Bill {
    customer: String,
    total: u64,
}

/// The values in transit between the workers.
#[derive(Drop)]
struct Stock {
    orders: Payloads<Order>,
    bills: Payloads<Bill>,
}

impl Stock {
    fn urgent(&self) -> TypedChannel<'_, Order> {
        TypedChannel::new(&self.orders, URGENT)
    }

    fn plain(&self) -> TypedChannel<'_, Order> {
        TypedChannel::new(&self.orders, PLAIN)
    }

    fn bills(&self) -> TypedChannel<'_, Bill> {
        TypedChannel::new(&self.bills, BILLS)
    }
}

/// The role of a thread.
#[derive(Drop)]
enum Hand<'a> {
    Counter(&'a Stock),
    Mill(&'a Stock),
    Cashier(&'a Stock, Vec<Bill>),
    Clerk,
}

impl<R: Wait + Print> Worker<R> for Hand<'_> {
    fn work(&mut self, rt: &R, session: &mut Session<'_>) -> Result<(), TransactError> {
        match self {
            Hand::Counter(stock) => take_in(rt, session, stock),
            Hand::Mill(stock) => grind(rt, session, stock),
            Hand::Cashier(stock, bills) => collect(rt, session, stock, bills),
            Hand::Clerk => tell(rt, session),
        }
    }
}

/// Makes the order with this number.
fn new_order(alloc: Global, number: u64) -> Result<Order, AllocError> {
    Ok(Order {
        customer: format!(in alloc; "customer {number}")?,
        prices: vec![in alloc; 3, 5, 7]?,
    })
}

/// Returns the sum of these bills.
fn sum(bills: &[Bill]) -> u64 {
    let mut sum = 0u64;
    for bill in bills {
        sum = sum.saturating_add(bill.total);
    }
    sum
}

/// Makes the bill of an order.
fn bill_of(order: Order) -> Bill {
    let Order { customer, prices } = order;
    let mut total = 0u64;
    for price in &prices {
        total = total.saturating_add(u64::from(*price));
    }
    Bill { customer, total }
}

/// Stage one: every fifth order is urgent. Closes the plain orders when all are written.
fn take_in<R: Wait>(rt: &R, session: &mut Session<'_>, stock: &Stock) -> Result<(), TransactError> {
    for number in 0..ORDERS {
        let orders = if number % 5 == 0 {
            stock.urgent()
        } else {
            stock.plain()
        };
        let _sent = orders.write(rt, session, new_order(session.alloc(), number)?)?;
    }
    session.run(rt, [close(PLAIN)])
}

/// Stage two: takes urgent orders first, then plain ones, until the plain ones are closed and empty. The first mill
/// that is done writes to `DONE`. The second finds `DONE` full, and closes the bills.
fn grind<R: Wait>(rt: &R, session: &mut Session<'_>, stock: &Stock) -> Result<(), TransactError> {
    let (orders, bills) = (stock.plain(), stock.bills());
    let next = or![in session.alloc(); [stock.urgent().reading()], [orders.reading()]];
    let next = session.prepare([next])?;
    for _ in rt.forever() {
        let Some(item) = session.take_prepared(rt, next)? else {
            break;
        };
        if let Some(order) = orders.open(rt, item) {
            let _sent = bills.write(rt, session, bill_of(order))?;
        }
    }
    let last = or![in session.alloc(); [write(DONE, 1)], [close(BILLS)]];
    session.run(rt, [last])
}

/// Stage three: collects the bills, and writes news of every eighth.
fn collect<R: Wait>(
    rt: &R,
    session: &mut Session<'_>,
    stock: &Stock,
    bills: &mut Vec<Bill>,
) -> Result<(), TransactError> {
    for _ in rt.forever() {
        match stock.bills().read(rt, session)? {
            ReadOutcome::Value(bill) => bills.push(bill)?,
            // A bill that was opened elsewhere is not for this list, and it is not the end.
            ReadOutcome::Opened => continue,
            ReadOutcome::Closed => break,
        }
        if bills.len() % 8 == 0 {
            session.run(rt, [write(NEWS, bills.len() as u64)])?;
        }
    }
    session.run(rt, [close(NEWS)])
}

/// Prints the news until their channel is closed and empty.
fn tell<R: Wait + Print>(rt: &R, session: &mut Session<'_>) -> Result<(), TransactError> {
    for _ in rt.forever() {
        let Some(news) = session.take(rt, [read(NEWS)])? else {
            break;
        };
        let _printed = println!(rt; "{} of {ORDERS} bills", news.body);
    }
    Ok(())
}

/// Returns the number of items that the channel's readers have still to read.
fn left(account: &Account) -> usize {
    let mut left = 0usize;
    for items in account.remaining.as_slice() {
        left = left.saturating_add(items.as_slice().len());
    }
    left
}

fn main(rt: HostRuntime) -> anyhow::Result<()> {
    let alloc = rt.alloc();
    let stock = Stock {
        orders: Payloads::new(alloc),
        bills: Payloads::new(alloc),
    };
    let channels = [
        queue(),
        closable(),
        closable_bounded(8),
        bounded(1),
        closable_broadcast(1),
    ];
    let hands = vec![in alloc;
        Hand::Counter(&stock),
        Hand::Mill(&stock),
        Hand::Mill(&stock),
        Hand::Cashier(&stock, Vec::new(alloc)),
        Hand::Clerk,
    ]?;
    let done = run(&rt, alloc, &channels, hands)?;
    let ranks = done.audit(&rt, alloc, &channels)?;
    println!(rt; "{} transactions, as in one order", ranks.len())?;
    for account in done.report.accounts.as_slice() {
        println!(rt;
            "{}: {} entries, {}, {} left",
            account.kind.name(),
            account.log.as_slice().len(),
            if account.closed { "closed" } else { "open" },
            left(account)
        )?;
    }
    for hand in &done.workers {
        if let Hand::Cashier(_, bills) = hand {
            println!(rt; "{} bills, {} in all", bills.len(), sum(bills))?;
        }
    }
    Ok(())
}
