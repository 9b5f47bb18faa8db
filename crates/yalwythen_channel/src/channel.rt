// A channel in its caller's memory.
ghost use Rattle.std.specs.Prelude.{◌≡◌, ◌≢◌, None, Some, false, true, slice_get, IfOk, IfErr, IfSome, OnErr};
ghost use Rattle.yalwythen_channel.specs.Channel.{HasMade, TellsAccount, TellsChannel, view_in};
ghost use Rattle.yalwythen_channel.specs.Channel.{is_recorded_here, unrecorded_in, recorded_in};
ghost use Rattle.yalwythen_channel.specs.RawSteps.{decls_with};

use crate::account::{self, Record};
use crate::call_result::{
    BAD_DECL, CallResult, DONE, NO_LOG, NO_MEMORY, NO_SUCH, NOT_NOW, REJECTED, call_result,
};
use crate::chan_box::ChanBox;
use crate::numbers::decl_numbered;
use std::alloc::Global;
use std::mem;
use txc_chan::{ChanFault, Decl, FullLog, GhostLog, Log};

/// A place for a channel, in its caller's memory.
#[derive(Drop)]
pub enum Channel {
    /// No channel is here: none was made, or a transaction has it.
    Absent,
    /// A channel whose log exists only in proofs.
    Unrecorded(ChanBox<GhostLog>),
    /// A channel whose log is recorded.
    Recorded(ChanBox<FullLog>),
}

impl Channel {
    /// Creates a place without a channel. Does not allocate.
    pub fn absent() -> Channel
        ensures { result ≡ Channel.Absent }
    {
        Channel::Absent
    }

    /// Returns whether no channel is here.
    pub(crate) fn is_absent(&self) -> bool
        ensures none { result ≡ true → view_in self.now ≡ None }
        ensures there { result ≡ false → view_in self.now ≢ None }
    {
        matches!(self, Channel::Absent)
    }

    /// Makes an open and empty channel of the kind with this number, whose log is recorded unless `records` is 0.
    /// `size` is the bound of a bounded kind, and the number of readers of a broadcast kind. Returns code 0, or code 5
    /// if an allocation fails. The request is rejected with code 4 if a channel is here, or if there is no such kind,
    /// bound or number of readers. Unless the code is 0, the place is unchanged. Allocates.
    pub fn make(&mut self, alloc: Global, kind: u64, size: u64, records: u64) -> CallResult
        ensures { HasMade (slice_get (decls_with size) kind) records self.old self.new result }
    {
        if !self.is_absent() {
            return call_result(REJECTED, NOT_NOW);
        }
        let Some(decl) = decl_numbered(kind, size) else {
            return call_result(REJECTED, NO_SUCH);
        };
        if records == 0 {
            self.make_unrecorded(alloc, decl)
        } else {
            self.make_recorded(alloc, decl)
        }
    }

    fn make_unrecorded(&mut self, alloc: Global, decl: Decl) -> CallResult
        requires { view_in self.old ≡ None }
        ensures { HasMade (Some decl) 0 self.old self.new result }
    {
        match ChanBox::build(alloc, decl) {
            Ok(chan) => {
                *self = Channel::Unrecorded(chan);
                call_result(DONE, 0)
            }
            Err(ChanFault::NoMemory) => call_result(NO_MEMORY, 0),
            Err(fault) => call_result(REJECTED, BAD_DECL + u64::from(fault.code())),
        }
    }

    fn make_recorded(&mut self, alloc: Global, decl: Decl) -> CallResult
        requires { view_in self.old ≡ None }
        ensures { HasMade (Some decl) 1 self.old self.new result }
    {
        if decl.kind.is_broadcast() {
            return call_result(REJECTED, NO_LOG);
        }
        match ChanBox::build(alloc, decl) {
            Ok(chan) => {
                *self = Channel::Recorded(chan);
                call_result(DONE, 0)
            }
            Err(ChanFault::NoMemory) => call_result(NO_MEMORY, 0),
            Err(fault) => call_result(REJECTED, BAD_DECL + u64::from(fault.code())),
        }
    }

    /// Returns what is known of the channel: for number 0 how many acts were done on it, for 1 how many items reader
    /// `reader` has to read, for 2 whether it is closed, for 3 how many readers it has. The request is rejected with
    /// code 4 if no channel is here, or no such reader or number. The code is 5 if an allocation fails; only number 1
    /// allocates.
    pub fn tell(&self, number: u64, reader: u64) -> CallResult
        ensures { TellsChannel number reader (view_in self.now) result }
    {
        match self {
            Channel::Absent => call_result(REJECTED, NOT_NOW),
            Channel::Unrecorded(chan) => tell_of(chan, number, reader),
            Channel::Recorded(chan) => tell_of(chan, number, reader),
        }
    }

    /// Writes the account of the channel, from record `from` on, to the front of `out`, as many records as fit. Returns
    /// code 0 with the number of all records. The code is 4 if no channel with a recorded log is here, and 5 if an
    /// allocation fails. Allocates and frees.
    pub fn read_account(&self, from: u64, out: &mut [Record]) -> CallResult
        ensures { TellsAccount from (recorded_in self.now) out.old out.new result }
    {
        match self {
            Channel::Recorded(chan) => match chan.account() {
                Ok(account) => {
                    account::copy_records(&account, from, out);
                    call_result(DONE, account::count(&account))
                }
                Err(_) => call_result(NO_MEMORY, 0),
            },
            _ => call_result(REJECTED, NOT_NOW),
        }
    }

    /// Takes the channel out of its place, if its log is not recorded.
    pub(crate) fn take_unrecorded(&mut self) -> Option<ChanBox<GhostLog>>
        ensures taken { result ≡ unrecorded_in self.old }
        ensures some { IfSome result (λ _. self.new ≡ Channel.Absent) }
        ensures none { unrecorded_in self.old ≡ None → self.new ≡ self.old }
    {
        match mem::replace(self, Channel::Absent) {
            Channel::Unrecorded(chan) => Some(chan),
            other => {
                *self = other;
                None
            }
        }
    }

    /// Takes the channel out of its place, if its log is recorded.
    pub(crate) fn take_recorded(&mut self) -> Option<ChanBox<FullLog>>
        ensures taken { result ≡ recorded_in self.old }
        ensures some { IfSome result (λ _. self.new ≡ Channel.Absent) }
        ensures none { recorded_in self.old ≡ None → self.new ≡ self.old }
    {
        match mem::replace(self, Channel::Absent) {
            Channel::Recorded(chan) => Some(chan),
            other => {
                *self = other;
                None
            }
        }
    }
}

/// Returns what is known of a channel, as `Channel::tell`.
fn tell_of<K: Log>(chan: &ChanBox<K>, number: u64, reader: u64) -> CallResult
    ensures { TellsChannel number reader (Some chan.now) result }
{
    match number {
        0 => call_result(DONE, chan.log_len() as u64),
        1 => tell_length(chan, reader),
        2 => call_result(DONE, u64::from(chan.closed())),
        3 => call_result(DONE, u64::from(chan.readers())),
        _ => call_result(REJECTED, NO_SUCH),
    }
}

/// Returns how many items a reader of a channel has to read.
fn tell_length<K: Log>(chan: &ChanBox<K>, reader: u64) -> CallResult
    ensures { TellsChannel 1 reader (Some chan.now) result }
{
    let Ok(reader) = u16::try_from(reader) else {
        return call_result(REJECTED, NO_SUCH);
    };
    let Ok(summary) = chan.summary() else {
        return call_result(NO_MEMORY, 0);
    };
    match summary.remaining.as_slice().get(reader as usize) {
        Some(items) => call_result(DONE, items.as_slice().len() as u64),
        None => call_result(REJECTED, NO_SUCH),
    }
}

/// Drops a value that any thread can have.
fn assert_send<T: Send + Drop>(_value: T) {}

/// Drops a channel, if one is there, and frees what it allocated. That this compiles shows that it is `Send`.
pub fn drop_channel(channel: Channel) {
    assert_send(channel);
}
