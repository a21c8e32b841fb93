//! A store.

ghost use Rattle.std.specs.Prelude.{◌≡◌, ◌≤◌, List, [], ◌∷◌, ◌++◌, length, min, option_copied, IfOk, OnOk, OnErr};
ghost use Rattle.gs_store.specs.Named.{most_named};
ghost use Rattle.gs_store.specs.Room.{HasRoom};

use crate::limits::MOST_NAMED;
use circular_buffer::HeapCircularBuffer;
use gs_bytes::OutOfMemory;
use std::alloc::Global;

/// The room that the first item makes.
const LEAST_ROOM: usize = 16;

/// How many items were put, and the last of them, the oldest first.
#[derive(Drop)]
pub struct Store<T> {
    count: u64,
    kept: HeapCircularBuffer<T>,
    ghost whole: { length kept.items ≡ min count most_named },
    ghost within: { kept.capacity ≤ most_named },
}

impl<T: Drop> Store<T> {
    ghost use Rattle.gs_store.specs.Standing.{IsStoreOf};
    ghost use Rattle.gs_store.specs.Named.{named};

    /// A store in which nothing was put.
    pub fn new(alloc: Global) -> Result<Store<T>, OutOfMemory>
        ensures { IfOk result (λ store. IsStoreOf store []) }
    {
        Ok(Store {
            count: 0,
            kept: HeapCircularBuffer::with_capacity(alloc, 0)?,
        })
    }

    /// Puts an item behind all others. After an error the store is as before.
    ///
    /// `OutOfMemory` is answered too where the count, of 64 bits, is at its end.
    pub fn put(&mut self, item: T) -> Result<(), OutOfMemory>
        ensures put { OnOk result ((all : List T) → IsStoreOf self.old all → IsStoreOf self.new (all ++ item ∷ [])) }
        ensures refused { OnErr result ((all : List T) → IsStoreOf self.old all → IsStoreOf self.new all) }
    {
        let Some(count) = self.count.checked_add(1) else {
            return Err(OutOfMemory);
        };
        make_room(&mut self.kept)?;
        self.kept.push_back(item);
        self.count = count;
        Ok(())
    }

    /// How many items were put.
    pub fn count(&self) -> u64
        ensures { (all : List T) → IsStoreOf self.now all → result ≡ length all }
    {
        self.count
    }

    /// The item of that number, from 1, where it can still be named.
    pub fn get(&self, number: u64) -> Option<&T>
        ensures { (all : List T) → IsStoreOf self.now all → option_copied result ≡ named all number }
    {
        let forgotten = self.count - self.kept.len() as u64;
        if number <= forgotten {
            return None;
        }
        let place = number - forgotten - 1;
        if place >= self.kept.len() as u64 {
            return None;
        }
        self.kept.get(place as usize)
    }
}

/// Makes room for one item more, unless as many items are kept as can be named.
fn make_room<T>(kept: &mut HeapCircularBuffer<T>) -> Result<(), OutOfMemory>
    requires { kept.old.capacity ≤ most_named }
    ensures items { kept.new.items ≡ kept.old.items }
    ensures within { kept.new.capacity ≤ most_named }
    ensures room { OnOk result (HasRoom kept.new) }
{
    let room = kept.capacity();
    if kept.len() == room && room < MOST_NAMED {
        kept.resize((2 * room).clamp(LEAST_ROOM, MOST_NAMED))?;
    }
    Ok(())
}
