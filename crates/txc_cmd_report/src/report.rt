// The report of an outcome.
ghost use Rattle.std.specs.Fmt.{decimal};
ghost use Rattle.std.specs.Prelude.{◌≡◌, ◌++◌, codes, length, OnOk, IfOk, IfErr, string_bytes};
ghost use Rattle.txc_base.specs.Counts.{put, took, other};
ghost use Rattle.txc_cmd_report.specs.Outcome.{IsComplete, outcome_of};
ghost use Rattle.txc_cmd_report.specs.Text.{replies_text, transaction_text, receipt_text, receipts_text, end_text};
ghost use Rattle.txc_cmd_report.specs.Text.{seat_text, seats_text, state_text, counts_text, reader_text, readers_text};
ghost use Rattle.txc_cmd_report.specs.Text.{account_text};
ghost use Rattle.txc_cmd_report.specs.Text.{accounts_text, last_text, text_of};

use crate::outcome::Outcome;
use crate::seat_end::{SeatEnd, any_stalled, any_stopped};
use std::alloc::{AllocError, Global};
use txc_base::{Act, Entry, Item, Items, List, Reply, Stop};
use txc_chan::Account;
use txc_txn::Receipt;

/// Writes the beginning of a line of a seat's transaction.
fn push_transaction(text: &mut String, seat: usize, number: usize) -> Result<(), AllocError>
    ensures { OnOk result (string_bytes text.new ≡ string_bytes text.old ++ transaction_text seat number) }
{
    write!(text, "seat {seat} txn {number}")
}

/// Writes the replies of a transaction: the first after a space, each further one after a semicolon.
fn push_replies(text: &mut String, replies: &[Reply]) -> Result<(), AllocError>
    ensures { OnOk result (string_bytes text.new ≡ string_bytes text.old ++ replies_text replies.now) }
{
    let [first, further @ ..] = replies else {
        return Ok(());
    };
    write!(text, " {first}")?;
    for reply in further {
        write!(text, "; {reply}")?;
    }
    Ok(())
}

/// Writes the line of a committed transaction.
fn push_receipt(
    text: &mut String,
    seat: usize,
    number: usize,
    replies: &[Reply],
) -> Result<(), AllocError>
    ensures { OnOk result (string_bytes text.new ≡ string_bytes text.old ++ receipt_text seat number replies.now) }
{
    push_transaction(text, seat, number)?;
    text.push_str(" kept:")?;
    push_replies(text, replies)?;
    text.push_str("\n")
}

/// Writes a line for each committed transaction of a seat.
fn push_receipts(text: &mut String, seat: usize, receipts: &[Receipt]) -> Result<(), AllocError>
    ensures { OnOk result (string_bytes text.new ≡ string_bytes text.old ++ receipts_text seat 0 receipts.now) }
{
    for (number, receipt) in receipts.iter().enumerate() {
        push_receipt(text, seat, number, receipt.replies.as_slice())?;
    }
    Ok(())
}

/// Writes the line of a seat that did not finish, with the number of its next transaction. Writes nothing if the seat
/// finished.
fn push_end(text: &mut String, seat: usize, number: usize, end: SeatEnd) -> Result<(), AllocError>
    ensures { OnOk result (string_bytes text.new ≡ string_bytes text.old ++ end_text seat number end) }
{
    match end {
        SeatEnd::Finished => Ok(()),
        SeatEnd::Stalled(cause) => {
            push_transaction(text, seat, number)?;
            writeln!(text, " stalled: {cause}")
        }
        SeatEnd::Stopped(stop) => {
            push_transaction(text, seat, number)?;
            writeln!(text, " stopped: {stop}")
        }
    }
}

/// Writes the lines of a seat.
fn push_seat(
    text: &mut String,
    seat: usize,
    receipts: &[Receipt],
    end: SeatEnd,
) -> Result<(), AllocError>
    ensures { OnOk result (string_bytes text.new ≡ string_bytes text.old ++ seat_text seat receipts.now end) }
{
    push_receipts(text, seat, receipts)?;
    push_end(text, seat, receipts.len(), end)
}

/// Writes the lines of each seat.
fn push_seats(
    text: &mut String,
    receipts: &[List<Receipt>],
    ends: &[SeatEnd],
) -> Result<(), AllocError>
    requires { length ends.now ≡ length receipts.now }
    ensures { OnOk result (string_bytes text.new ≡ string_bytes text.old ++ seats_text 0 receipts.now ends.now) }
{
    for seat in 0..receipts.len() {
        push_seat(text, seat, receipts[seat].as_slice(), ends[seat])?;
    }
    Ok(())
}

/// Returns the number of entries that put an item in.
fn count_put(log: &[Entry]) -> usize
    ensures { result ≡ put log.now }
{
    log.iter()
        .filter(|entry| matches!(entry.act, Act::Wrote(_) | Act::PutBack(_, _)))
        .count()
}

/// Returns the number of entries that took an item out.
fn count_took(log: &[Entry]) -> usize
    ensures { result ≡ took log.now }
{
    log.iter()
        .filter(|entry| matches!(entry.act, Act::Took(_, _)))
        .count()
}

/// Returns the number of other entries.
fn count_other(log: &[Entry]) -> usize
    ensures { result ≡ other log.now }
{
    log.iter()
        .filter(|entry| { matches!(entry.act, Act::Closed | Act::Begun(_) | Act::Cloned(_, _)) })
        .count()
}

/// Writes the counts of a log, to the end of the line.
fn push_log(text: &mut String, log: &[Entry]) -> Result<(), AllocError>
    ensures { OnOk result (string_bytes text.new ≡ string_bytes text.old
        ++ codes " put " ++ decimal (put log.now) ++ codes " took " ++ decimal (took log.now) ++ codes " other "
        ++ decimal (other log.now) ++ codes "\n") }
{
    let put = count_put(log);
    let took = count_took(log);
    let other = count_other(log);
    writeln!(text, " put {put} took {took} other {other}")
}

/// Returns the word for whether a channel is closed.
fn state_text(closed: bool) -> &'static str
    ensures { result.now ≡ state_text closed }
{
    if closed { "closed" } else { "open" }
}

/// Writes the line of a channel, with the counts of its log.
fn push_counts(text: &mut String, chan: usize, account: &Account) -> Result<(), AllocError>
    ensures { OnOk result (string_bytes text.new ≡ string_bytes text.old ++ counts_text chan account.now) }
{
    let Account { kind, closed, .. } = account;
    let state = state_text(*closed);
    write!(text, "chan {chan} {kind} {state}")?;
    push_log(text, account.log.as_slice())
}

/// Writes the line of a reader, with the items that it has left.
fn push_reader(
    text: &mut String,
    chan: usize,
    reader: usize,
    items: &[Item],
) -> Result<(), AllocError>
    ensures { OnOk result (string_bytes text.new ≡ string_bytes text.old ++ reader_text chan reader items.now) }
{
    let items = Items(items);
    writeln!(text, "chan {chan} reader {reader} left:{items}")
}

/// Writes a line for each reader of a channel.
fn push_readers(text: &mut String, chan: usize, lists: &[List<Item>]) -> Result<(), AllocError>
    ensures { OnOk result (string_bytes text.new ≡ string_bytes text.old ++ readers_text chan 0 lists.now) }
{
    for (reader, items) in lists.iter().enumerate() {
        push_reader(text, chan, reader, items.as_slice())?;
    }
    Ok(())
}

/// Writes the lines of a channel and of its readers.
fn push_account(text: &mut String, chan: usize, account: &Account) -> Result<(), AllocError>
    ensures { OnOk result (string_bytes text.new ≡ string_bytes text.old ++ account_text chan account.now) }
{
    push_counts(text, chan, account)?;
    push_readers(text, chan, account.remaining.as_slice())
}

/// Writes the lines of each channel.
fn push_accounts(text: &mut String, accounts: &[Account]) -> Result<(), AllocError>
    ensures { OnOk result (string_bytes text.new ≡ string_bytes text.old ++ accounts_text 0 accounts.now) }
{
    for (chan, account) in accounts.iter().enumerate() {
        push_account(text, chan, account)?;
    }
    Ok(())
}

/// Returns the last line of a report.
fn last_line(ends: &[SeatEnd]) -> &'static str
    ensures { result.now ≡ last_text ends.now }
{
    if any_stopped(ends) {
        "end stopped\n"
    } else if any_stalled(ends) {
        "end stalled\n"
    } else {
        "end done\n"
    }
}

/// Writes a report.
fn push_report(text: &mut String, outcome: &Outcome) -> Result<(), AllocError>
    requires { length outcome.now.ends ≡ length outcome.now.report.receipts }
    ensures { OnOk result (string_bytes text.new ≡ string_bytes text.old ++ text_of (outcome_of outcome.now)) }
{
    let ends = outcome.ends.as_slice();
    push_seats(text, outcome.report.receipts.as_slice(), ends)?;
    push_accounts(text, outcome.report.accounts.as_slice())?;
    text.push_str(last_line(ends))
}

/// Returns the report of an outcome. The outcome must have one end for each seat's receipts, and no end that is a
/// failed allocation, like every outcome of `replay`. Fails only with `NoMemory`, if allocation fails.
pub fn report_text(alloc: Global, outcome: &Outcome) -> Result<String, Stop>
    requires { IsComplete outcome.now }
    ensures ok { IfOk result (λ text. string_bytes text ≡ text_of (outcome_of outcome.now)) }
    ensures err { IfErr result (λ stop. stop ≡ Stop.NoMemory) }
{
    let mut text = String::new(alloc);
    push_report(&mut text, outcome)?;
    Ok(text)
}
