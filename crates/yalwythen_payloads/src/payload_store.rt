// The payloads of one thread.
ghost use Rattle.std.specs.Prelude.{◌≡◌, ◌+◌, ℕ, [], IfOk, IfErr, IfSome, IfNone, OnErr, None, Some, length, map};
ghost use Rattle.yalwythen_payloads.specs.Payloads.{AreRising, ChangesOnly, at};

use std::alloc::{AllocFailed, Global};
use std::collections::BTreeMap;
use std::collections::btree_map::IntoValues;
use std::marker::Model;
use txc_base::Item;

/// Values under keys, for one thread. Keys are counted up from 0, and no key is used twice.
#[derive(Drop)]
pub struct PayloadStore<T> {
    next: u64,
    held: BTreeMap<u64, T>,
}

impl<T> Model for PayloadStore<T> {
    ghost use Rattle.std.specs.Prelude.{◌≡◌, ◌≤◌, ℕ, None};
    ghost use Rattle.yalwythen_payloads.specs.Payloads.{AreRising, PayloadsView, at};

    ghost Value = { PayloadsView T };

    ghost view = { λ payload_store. record { next = payload_store.next; entries = payload_store.held.entries } };

    ghost invariant = { λ payload_store. AreRising payload_store.held.entries
        × ((key : ℕ) → payload_store.next ≤ key → at payload_store.held.entries key ≡ None) };
}

impl<T: Drop> PayloadStore<T> {
    /// Creates an empty store.
    pub fn new(alloc: Global) -> PayloadStore<T>
        ensures none { result.entries ≡ [] }
        ensures first { result.next ≡ 0 }
    {
        PayloadStore {
            next: 0,
            held: BTreeMap::new(alloc),
        }
    }

    /// Stores a value and returns its key: keys count up from 0, and no value was ever stored under it before. Returns
    /// the value, and leaves the store unchanged, if allocation fails or if `u64::MAX` values were stored before.
    pub fn put(&mut self, value: T) -> Result<u64, AllocFailed<T>>
        ensures key { IfOk result (λ key. key ≡ self.old.next) }
        ensures next { IfOk result (λ key. self.new.next ≡ key + 1) }
        ensures unused { IfOk result (λ key. at self.old.entries key ≡ None) }
        ensures put { IfOk result (λ key. ChangesOnly self.old.entries self.new.entries key (Some value)) }
        ensures longer { IfOk result (λ _. length self.new.entries ≡ length self.old.entries + 1) }
        ensures back { IfErr result (λ refused. refused.value ≡ value) }
        ensures same { OnErr result (self.new ≡ self.old) }
    {
        let key = self.next;
        if key == u64::MAX {
            return Err(AllocFailed { value });
        }
        match self.held.insert(key, value) {
            Ok(_none) => {
                self.next = key + 1;
                Ok(key)
            }
            Err(refused) => {
                let (_key, value) = refused.value;
                Err(AllocFailed { value })
            }
        }
    }

    /// Removes and returns the value under this key. Returns `None`, and leaves the store unchanged, if there is none,
    /// for example because it was taken before.
    pub fn take(&mut self, key: u64) -> Option<T>
        ensures taken { result ≡ at self.old.entries key }
        ensures gone { ChangesOnly self.old.entries self.new.entries key None }
        ensures next { self.new.next ≡ self.old.next }
        ensures shorter { IfSome result (λ _. length self.new.entries + 1 ≡ length self.old.entries) }
        ensures same { IfNone result (self.new ≡ self.old) }
    {
        self.held.remove(&key)
    }

    /// Removes and returns the value whose key is the body of this item, usually an item read from a channel. Returns
    /// `None`, and leaves the store unchanged, if there is none, for example because it was opened before.
    pub fn open(&mut self, item: &Item) -> Option<T>
        ensures opened { result ≡ at self.old.entries item.now.body }
        ensures gone { ChangesOnly self.old.entries self.new.entries item.now.body None }
        ensures next { self.new.next ≡ self.old.next }
        ensures shorter { IfSome result (λ _. length self.new.entries + 1 ≡ length self.old.entries) }
        ensures same { IfNone result (self.new ≡ self.old) }
    {
        self.take(item.body)
    }

    /// Returns the number of stored values.
    pub fn len(&self) -> usize
        ensures { result ≡ length self.now.entries }
    {
        self.held.len()
    }

    /// Returns the stored values, in the order in which they were put.
    pub fn into_values(self) -> IntoValues<u64, T>
        ensures values { result ≡ map (λ entry. entry.1) self.entries }
        ensures rising { AreRising self.entries }
    {
        let PayloadStore { next: _, held } = self;
        held.into_values()
    }
}
