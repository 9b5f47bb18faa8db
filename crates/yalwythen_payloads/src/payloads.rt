// The payloads of all threads.
ghost use Rattle.std.specs.Prelude.{◌≡◌, IfErr};

use crate::payload_store::PayloadStore;
use std::alloc::{AllocFailed, Global};
use std::collections::btree_map::IntoValues;
use std::sync::{Mutex, Wait};
use txc_base::Item;

/// Values under keys, shared by all threads by reference: a `PayloadStore` under one lock. Each method does under the
/// lock what the method of the same name does to a `PayloadStore`.
#[derive(Drop)]
pub struct Payloads<T: Drop> {
    payload_store: Mutex<PayloadStore<T>>,
}

impl<T: Drop> Payloads<T> {
    /// Creates an empty set of payloads.
    pub fn new(alloc: Global) -> Payloads<T> {
        Payloads {
            payload_store: Mutex::new(PayloadStore::new(alloc)),
        }
    }

    /// Stores a value and returns its key, which no other value ever has. Returns the value, and stores nothing, if
    /// allocation fails or if `u64::MAX` values were stored before.
    pub fn put<R: Wait>(&self, rt: &R, value: T) -> Result<u64, AllocFailed<T>>
        ensures back { IfErr result (λ refused. refused.value ≡ value) }
    {
        self.payload_store.lock(rt).put(value)
    }

    /// Removes and returns the value with this key. Returns `None` if there is none, for example because it was taken
    /// before.
    pub fn take<R: Wait>(&self, rt: &R, key: u64) -> Option<T> {
        self.payload_store.lock(rt).take(key)
    }

    /// Removes and returns the value whose key is the body of this item, usually an item read from a channel. A value
    /// is returned only once. Returns `None` if no value has that key, for example because it was opened before or
    /// because the key is one of other payloads.
    pub fn open<R: Wait>(&self, rt: &R, item: &Item) -> Option<T> {
        self.payload_store.lock(rt).open(item)
    }

    /// Returns the number of stored values. Other threads can change it at any time.
    pub fn len<R: Wait>(&self, rt: &R) -> usize {
        self.payload_store.lock(rt).len()
    }

    /// Returns the values that were not taken, in the order in which they were put.
    pub fn into_values(self) -> IntoValues<u64, T> {
        let Payloads { payload_store } = self;
        payload_store.into_inner().into_values()
    }
}
