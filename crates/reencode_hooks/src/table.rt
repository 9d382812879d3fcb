//! A map from indices to indices: a vector in the order of the keys.
ghost use Rattle.std.specs.Prelude.{◌≡◌, ◌↔◌, ◌<◌, length, IsTrue, OnOk, OnErr};
ghost use Rattle.std.specs.FinMap as map;
ghost use Rattle.reencode_hooks.specs.Renamings.{entries_of};
ghost use Rattle.reencode_hooks.specs.Tables.{key_at, IsPlaceOf, IsStrictlySorted};

use std::alloc::Global;
use std::marker::Model;
use wasm_leb::NoMemory;

/// The entries of one space. Contracts see them as a finite map.
#[derive(Drop)]
pub struct Table {
    // in the order of the keys
    pairs: Vec<(u32, u32)>,
}

impl Model for Table {
    ghost use Rattle.reencode_hooks.specs.Renamings.{Entries, entries_code, entries_of};
    ghost use Rattle.reencode_hooks.specs.Tables.{IsStrictlySorted};

    ghost Value = { Entries };

    ghost coded = { entries_code };

    ghost view = { λ t. entries_of t.pairs.items };

    ghost invariant = { λ t. IsStrictlySorted t.pairs.items };
}

impl Table {
    pub fn new(alloc: Global) -> Table
        ensures { result ≡ map.empty }
    {
        Table {
            pairs: Vec::new(alloc),
        }
    }

    // The entry of a key.
    #[inline(always)]
    pub fn get(&self, key: u32) -> Option<u32>
        ensures { result ≡ map.get self.now key }
    {
        if self.pairs.is_empty() {
            return None;
        }
        look_up(&self.pairs, key)
    }

    // Sets an entry, in place of an older one, and changes nothing where memory runs out.
    pub fn set(&mut self, key: u32, value: u32) -> Result<(), NoMemory>
        ensures ok { OnOk result (self.new ≡ map.insert self.old key value) }
        ensures err { OnErr result (self.new ≡ self.old) }
    {
        put(&mut self.pairs, key, value)
    }
}

// Sets an entry in its place.
fn put(pairs: &mut Vec<(u32, u32)>, key: u32, value: u32) -> Result<(), NoMemory>
    requires { IsStrictlySorted pairs.old.items }
    ensures sorted { IsStrictlySorted pairs.new.items }
    ensures ok { OnOk result
        (entries_of pairs.new.items ≡ map.insert (entries_of pairs.old.items) key value) }
    ensures err { OnErr result (pairs.new.items ≡ pairs.old.items) }
{
    let at = place_of(pairs, key);
    if stands_at(pairs, at, key) {
        pairs[at] = (key, value);
        return Ok(());
    }
    match pairs.insert(at, (key, value)) {
        Ok(()) => Ok(()),
        Err(_) => Err(NoMemory),
    }
}

// Whether the pair at a place has the key.
#[inline(always)]
fn stands_at(pairs: &[(u32, u32)], at: usize, key: u32) -> bool
    ensures { IsTrue result ↔ ((at < length pairs.now) × (key_at pairs.now at ≡ key)) }
{
    at < pairs.len() && pairs[at].0 == key
}

// The value of a key. Where the keys are all numbers from 0 on, its place is the key.
fn look_up(pairs: &[(u32, u32)], key: u32) -> Option<u32>
    requires { IsStrictlySorted pairs.now }
    ensures { result ≡ map.get (entries_of pairs.now) key }
{
    let at = key as usize;
    if stands_at(pairs, at, key) {
        return Some(pairs[at].1);
    }
    let at = place_of(pairs, key);
    if stands_at(pairs, at, key) {
        return Some(pairs[at].1);
    }
    None
}

// How many keys are smaller.
fn place_of(pairs: &[(u32, u32)], key: u32) -> usize
    requires { IsStrictlySorted pairs.now }
    ensures { IsPlaceOf pairs.now key result }
{
    let mut from = 0;
    let mut to = pairs.len();
    while from < to {
        let middle = from + (to - from) / 2;
        if pairs[middle].0 < key {
            from = middle + 1;
        } else {
            to = middle;
        }
    }
    from
}
