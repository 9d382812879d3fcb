//! Numbers, in few bytes or in little time.
ghost use Rattle.std.specs.Prelude.{◌≡◌, ◌<◌, ◌++◌, ◌∷◌, [], true, IfSome, OnOk, OnErr};
ghost use Rattle.std.specs.List.{All};
ghost use Rattle.wasm_reach.specs.Packed.{numbers};

use std::alloc::Global;
use std::marker::Model;
use wasm_leb::{NoMemory, front_u32, write_u32};

/// Numbers: packed, in their shortest spelling, they take no more bytes than the indices of a module take there, else four bytes
/// each and less time. Contracts see the list of them.
#[derive(Drop)]
pub(crate) struct IndexList {
    is_packed: bool,
    bytes: Vec<u8>,
    words: Vec<u32>,
}

impl Model for IndexList {
    ghost use Rattle.std.specs.Prelude.{◌≡◌, ◌++◌, [], ℕ, List, true};
    ghost use Rattle.wasm_reach.specs.Packed.{ArePacked, numbers};

    ghost Value = { List ℕ };

    ghost view = { λ n. numbers n.bytes.items ++ n.words.items };

    ghost invariant = { λ n. ArePacked n.bytes.items (numbers n.bytes.items) × (n.is_packed ≡ true → n.words.items ≡ []) };
}

impl IndexList {
    /// No number, packed or not. It takes no memory.
    pub fn new(alloc: Global, is_packed: bool) -> IndexList
        ensures { result ≡ [] }
    {
        IndexList {
            is_packed,
            bytes: Vec::new(alloc),
            words: Vec::new(alloc),
        }
    }

    /// Throws all numbers away, and keeps their memory.
    pub fn clear(&mut self)
        ensures { self.new ≡ [] }
    {
        self.bytes.clear();
        self.words.clear();
    }

    /// Adds a number, and changes nothing where memory runs out.
    pub fn push(&mut self, number: u32) -> Result<(), NoMemory>
        ensures ok { OnOk result (self.new ≡ self.old ++ number ∷ []) }
        ensures err { OnErr result (self.new ≡ self.old) }
    {
        if self.is_packed {
            return write_u32(&mut self.bytes, number);
        }
        match self.words.push(number) {
            Ok(()) => Ok(()),
            Err(_) => Err(NoMemory),
        }
    }

    /// Adds the numbers to a list, where all are packed and below a bound.
    pub fn add_below(&self, list: &mut Vec<u32>, bound: u32) -> Result<(), NoMemory>
        ensures below { OnOk result (All (λ i. i < bound) self.now) }
        ensures added { OnOk result (list.new.items ≡ list.old.items ++ self.now) }
    {
        if self.words.is_empty() {
            return add_numbers(&self.bytes, list, bound);
        }
        Err(NoMemory)
    }

    /// The numbers, where none is packed and all are below a bound.
    pub fn words_below(&self, bound: u32) -> Option<&[u32]>
        ensures below { IfSome result (λ _. All (λ i. i < bound) self.now) }
        ensures are { IfSome result (λ words. words.now ≡ self.now) }
    {
        if self.bytes.is_empty() && are_below(&self.words, bound) {
            return Some(&self.words);
        }
        None
    }
}

/// Whether all numbers are below a bound.
fn are_below(numbers: &[u32], bound: u32) -> bool
    ensures { result ≡ true → All (λ i. i < bound) numbers.now }
{
    for number in numbers {
        if *number >= bound {
            return false;
        }
    }
    true
}

/// Adds the numbers that some bytes spell to a list, where all are below a bound.
fn add_numbers(bytes: &[u8], list: &mut Vec<u32>, bound: u32) -> Result<(), NoMemory>
    ensures below { OnOk result (All (λ i. i < bound) (numbers bytes.now)) }
    ensures added { OnOk result (list.new.items ≡ list.old.items ++ numbers bytes.now) }
{
    let mut rest = bytes;
    'numbers: while !rest.is_empty() {
        let Some((number, behind)) = front_u32(rest) else {
            return Err(NoMemory);
        };
        if number >= bound {
            return Err(NoMemory);
        }
        match list.push(number) {
            Ok(()) => {}
            Err(_) => return Err(NoMemory),
        }
        rest = behind;
    }
    Ok(())
}
