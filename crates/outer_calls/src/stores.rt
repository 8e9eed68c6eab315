//! Calls of `bt_base` that make a store over the system's files, make a store in memory, add texts to a store in memory, and make its
//! fetches fail.
ghost use Rattle.std.specs.Prelude.{◌≡◌, ◌≢◌, ℕ, List, [], ◌∷◌, ◌++◌, None, Some, OnOk, OnErr};
ghost use Rattle.bt_base.specs.Memory.{held_text, failing_of, fetches_of, faults_of, asked_of};

use bt_base::{HostStore, MemStore};
use std::alloc::{AllocError, Global};
use std::rt::Files;

/// Creates a store over the system's files. Its fault count is 0, and nothing has been fetched from it.
pub fn file_store<R: Files>(rt: &R) -> HostStore<'_, R>
    ensures faults { result.faults ≡ 0 }
    ensures asked { result.asked.names ≡ [] }
{
    HostStore::over(rt)
}

/// Creates an empty store. No fetch is chosen to fail.
pub fn empty_store(alloc: Global) -> MemStore
    ensures empty { (n : List ℕ) → held_text result n ≡ None }
    ensures fetches { fetches_of result ≡ 0 }
    ensures failing { failing_of result ≡ [] }
    ensures faults { faults_of result ≡ 0 }
    ensures asked { asked_of result ≡ [] }
{
    MemStore::new(alloc)
}

/// Stores `bytes` under `name`, and replaces any earlier text with this name. If memory runs out, no text changes.
pub fn add_text(store: &mut MemStore, name: &str, bytes: &[u8]) -> Result<(), AllocError>
    ensures holds { OnOk result (held_text store.new name.now ≡ Some bytes.now) }
    ensures others { (n : List ℕ) → n ≢ name.now → held_text store.new n ≡ held_text store.old n }
    ensures unchanged { OnErr result
        ((n : List ℕ) → held_text store.new n ≡ held_text store.old n) }
    ensures failing { failing_of store.new ≡ failing_of store.old }
    ensures fetches { fetches_of store.new ≡ fetches_of store.old }
    ensures faults { faults_of store.new ≡ faults_of store.old }
    ensures asked { asked_of store.new ≡ asked_of store.old }
{
    store.add(name, bytes)
}

/// Makes fetch number `call` fail. The first fetch has number 1. Fetches that were chosen before still fail, too. If memory runs out,
/// nothing changes.
pub fn fail_fetch(store: &mut MemStore, call: u32) -> Result<(), AllocError>
    ensures ok { OnOk result (failing_of store.new ≡ failing_of store.old ++ call ∷ []) }
    ensures err { OnErr result (failing_of store.new ≡ failing_of store.old) }
    ensures texts { (n : List ℕ) → held_text store.new n ≡ held_text store.old n }
    ensures fetches { fetches_of store.new ≡ fetches_of store.old }
    ensures faults { faults_of store.new ≡ faults_of store.old }
    ensures asked { asked_of store.new ≡ asked_of store.old }
{
    store.fail_at(call)
}
