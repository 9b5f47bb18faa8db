// Channels that are given to a transaction, and released.
ghost use Rattle.std.specs.Prelude.{◌≡◌, ◌<◌, ◌+◌, ◌++◌, ◌∷◌, List, [], All, true, length, nat_lt, take, ◌-◌};
ghost use Rattle.std.specs.Prelude.{IfErr, IfSome, OnOk, OnErr, IfNone};
ghost use Rattle.txc_base.specs.declared.op.Op.{Op as Ops};
ghost use Rattle.txc_base.specs.Op.{chan_of};
ghost use Rattle.txc_txn.specs.declared.open_savepoint.OpenSavepoint.{OpenSavepoint as Points};
ghost use Rattle.txc_txn.specs.declared.trace.Trace.{Trace as Traces};
ghost use Rattle.txc_txn.specs.Maps.{Map, put_at};
ghost use Rattle.txc_txn.specs.OpenTransaction.{IsMarkedSince};
ghost use Rattle.txc_txn.specs.Plain.{chan_in};
ghost use Rattle.yalwythen_channel.specs.Opened.{IsOpenAt, IsSavedAt};
ghost use Rattle.yalwythen_channel.specs.Opening.{is_open};
ghost use Rattle.yalwythen_channel.specs.Requests.{HasEnlisted, HasGivenBack, is_late};
ghost use Rattle.yalwythen_channel.specs.Txn.{Enlists, Releases};

use crate::call_result::{CallResult, DONE, NO_MEMORY, NOT_NOW, REJECTED, call_result};
use crate::chan_box::ChanBox;
use crate::channel::Channel;
use crate::channels::Channels;
use crate::limits::MAX_ENLISTED;
use crate::state::State;
use crate::txn::Txn;
use txc_chan::Log;

impl<K: Log> Channels<K> {
    /// Returns whether a channel can be added.
    fn can_enlist(&self) -> bool
        ensures few { result ≡ nat_lt (length self.now.kinds) 65536 }
        ensures as_many { length self.now.held ≡ length self.now.kinds }
    {
        // Only for the proof: the read of a field shows the invariant of the type.
        let _plain = &self.plain;
        self.kinds.len() < MAX_ENLISTED
    }

    /// Adds a channel, which gets the next number. Returns the channel if an allocation fails; nothing is changed then.
    fn enlist(&mut self, chan: ChanBox<K>) -> Result<(), ChanBox<K>>
        ensures held { OnOk result (self.new.held ≡ self.old.held ++ chan ∷ []) }
        ensures kinds { OnOk result (self.new.kinds ≡ self.old.kinds ++ chan.logged.decl.kind ∷ []) }
        ensures marked { OnOk result ((began : Map) → IsMarkedSince [] self.old.txn began (chan_in self.old.held)
            → IsMarkedSince [] self.new.txn (put_at began (length self.old.kinds) chan.logged)
            (chan_in self.new.held)) }
        ensures goes_on { OnOk result ((began : Map) (ops : List Ops)
            → All (λ op. chan_of op < length self.old.kinds) ops → IsOpenAt began ops self.old
            → IsOpenAt (put_at began (length self.old.kinds) chan.logged) ops self.new) }
        ensures saved { OnOk result ((savepoint : Points) (at : Map) (trace : Traces)
            → IsSavedAt savepoint at trace self.old
            → IsSavedAt savepoint (put_at at (length self.old.kinds) chan.logged) trace self.new) }
        ensures rest { (self.new.txn ≡ self.old.txn) × (self.new.savepoints ≡ self.old.savepoints) }
        ensures err { IfErr result (λ back. back ≡ chan) }
        ensures unchanged { OnErr result (self.new ≡ self.old) }
    {
        if self.kinds.reserve(1).is_err() {
            return Err(chan);
        }
        let kind = chan.kind();
        self.plain.push(chan)?;
        self.kinds.push_reserved(kind);
        Ok(())
    }

    /// Returns whether the channel with this number is the last one, and no transaction has touched a channel.
    fn can_release(&self, number: u64) -> bool
        ensures is { result ≡ true → (number + 1 ≡ length self.now.kinds) × (self.now.txn.touched.items ≡ []) }
        ensures can { number + 1 ≡ length self.now.kinds → self.now.txn.touched.items ≡ [] → result ≡ true }
        ensures as_many { length self.now.held ≡ length self.now.kinds }
    {
        let _plain = &self.plain;
        let count = self.kinds.len();
        count > 0 && number == count as u64 - 1 && self.txn.touched.is_empty()
    }

    /// Removes the last channel and returns it.
    fn release(&mut self) -> Option<ChanBox<K>>
        requires untouched { self.old.txn.touched.items ≡ [] }
        ensures some { IfSome result (λ chan. self.old.held ≡ self.new.held ++ chan ∷ []) }
        ensures none { IfNone result (self.old.held ≡ []) }
        ensures as_many { length self.new.kinds ≡ length self.new.held }
        ensures kinds { self.new.kinds ≡ take (length self.old.kinds - 1) self.old.kinds }
        ensures rest { (self.new.txn ≡ self.old.txn) × (self.new.savepoints ≡ self.old.savepoints) }
    {
        let _kind = self.kinds.pop();
        self.plain.pop()
    }
}

impl<K: Log> State<K> {
    /// Returns whether a channel with this stamp is too late for the open transaction: its log is recorded, and its
    /// stamp is not earlier than that of the transaction.
    fn is_late(&self, stamp: u64) -> bool
        ensures { result ≡ is_late K.shelves stamp self.now }
    {
        K::shelves() && self.is_open() && self.channels.txn.tag.stamp <= stamp
    }

    /// Adds a channel. Returns code 0 with its number. Otherwise the channel is returned too, and nothing is changed.
    fn enlist(&mut self, chan: ChanBox<K>) -> (CallResult, Option<ChanBox<K>>)
        ensures { HasEnlisted K.shelves chan self.old self.new result.0 result.1 }
    {
        let stamp = chan.stamp();
        if self.is_late(stamp) || !self.channels.can_enlist() {
            return (call_result(REJECTED, NOT_NOW), Some(chan));
        }
        let number = self.channels.len();
        match self.channels.enlist(chan) {
            Ok(()) => {
                self.clock = self.clock.max(stamp);
                (call_result(DONE, number as u64), None)
            }
            Err(back) => (call_result(NO_MEMORY, 0), Some(back)),
        }
    }

    /// Removes the last channel, which must have this number, and returns it with code 0. The request is rejected while
    /// a transaction is open, or if the last channel has another number; nothing is changed then.
    fn release(&mut self, number: u64) -> (CallResult, Option<ChanBox<K>>)
        ensures { HasGivenBack number self.old self.new result.0 result.1 }
    {
        if self.is_open() || !self.channels.can_release(number) {
            return (call_result(REJECTED, NOT_NOW), None);
        }
        match self.channels.release() {
            Some(chan) => (call_result(DONE, 0), Some(chan)),
            None => unreachable!(),
        }
    }
}

impl Txn {
    /// Moves the channel from its place into this transaction, which may be open. Returns code 0 with the number that
    /// the channel gets, the next one. The request is rejected with code 4 if the place has no channel whose log is
    /// recorded like those of this transaction, if a recorded channel's stamp is not earlier than that of the open
    /// transaction, or if there are 65,536 channels. The code is 5 if an allocation fails. Unless the code is 0,
    /// nothing is changed. Allocates.
    pub fn enlist(&mut self, channel: &mut Channel) -> CallResult
        ensures { Enlists self.old self.new channel.old channel.new result }
    {
        match self {
            Txn::Unrecorded(state) => {
                let Some(chan) = channel.take_unrecorded() else {
                    return call_result(REJECTED, NOT_NOW);
                };
                let (response, back) = state.enlist(chan);
                if let Some(chan) = back {
                    *channel = Channel::Unrecorded(chan);
                }
                response
            }
            Txn::Recorded(state) => {
                let Some(chan) = channel.take_recorded() else {
                    return call_result(REJECTED, NOT_NOW);
                };
                let (response, back) = state.enlist(chan);
                if let Some(chan) = back {
                    *channel = Channel::Recorded(chan);
                }
                response
            }
        }
    }

    /// Moves the last channel of this transaction, which must have this number, to an empty place. Returns code 0. The
    /// request is rejected with code 4 while a transaction is open, if the last channel has another number, or if a
    /// channel is in the place. Unless the code is 0, nothing is changed. Does not allocate.
    pub fn release(&mut self, number: u64, channel: &mut Channel) -> CallResult
        ensures { Releases number self.old self.new channel.old channel.new result }
    {
        if !channel.is_absent() {
            return call_result(REJECTED, NOT_NOW);
        }
        match self {
            Txn::Unrecorded(state) => {
                let (response, released) = state.release(number);
                if let Some(chan) = released {
                    *channel = Channel::Unrecorded(chan);
                }
                response
            }
            Txn::Recorded(state) => {
                let (response, released) = state.release(number);
                if let Some(chan) = released {
                    *channel = Channel::Recorded(chan);
                }
                response
            }
        }
    }
}
