// Which blocks of a file were written.
ghost use Rattle.std.specs.Prelude.{◌≡◌, ◌≤◌, ◌+◌, ◌-◌, ◌++◌, filter, nat_lt, nat_le, OnOk};
ghost use Rattle.std.specs.Prelude.{IfOk};
ghost use Rattle.fuse_rows.specs.Blocks as blocks;
ghost use Rattle.fuse_rows.specs.Blocks.{numbers_from, blocks_for};

use crate::limits::BLOCK_SIZE;
use fuse_wire::Memory;
use std::alloc::Global;
use std::marker::Model;

/// The numbers of written blocks, in rising order. Contracts see a list.
#[derive(Drop)]
pub struct BlockSet {
    numbers: Vec<u64>,
}

impl Model for BlockSet {
    ghost use Rattle.std.specs.Prelude.{List, ℕ};

    ghost Value = { List ℕ };

    ghost view = { λ a. a.numbers.items };
}

impl BlockSet {
    ghost use Rattle.std.specs.Prelude.{◌≡◌, ◌≤◌, IfOk, [], length};
    ghost use Rattle.fuse_rows.specs.Blocks.{with_range, below_size, count_between};

    /// No blocks. No memory is taken.
    pub fn new(alloc: Global) -> BlockSet
        ensures { result ≡ [] }
    {
        BlockSet {
            numbers: Vec::new(alloc),
        }
    }

    /// The same blocks.
    pub fn to_copy(&self, alloc: Global) -> Result<BlockSet, Memory>
        ensures { IfOk result (λ copy. copy ≡ self.now) }
    {
        let numbers = Vec::from_slice(alloc, self.numbers.as_slice())?;
        Ok(BlockSet { numbers })
    }

    /// The same blocks, and those from one on, below another.
    pub fn with(&self, alloc: Global, from: u64, to: u64) -> Result<BlockSet, Memory>
        ensures { IfOk result (λ all. all ≡ with_range from to self.now) }
    {
        let mut numbers = Vec::from_slice(alloc, self.numbers.as_slice())?;
        keep_below(&mut numbers, from);
        push_numbers(&mut numbers, from, to)?;
        let mut others = Vec::from_slice(alloc, self.numbers.as_slice())?;
        keep_from(&mut others, to);
        numbers.extend_from_slice(others.as_slice())?;
        Ok(BlockSet { numbers })
    }

    /// Takes away those at and above this size.
    pub fn cut(&mut self, size: u64)
        ensures { self.new ≡ below_size size self.old }
    {
        keep_below(&mut self.numbers, blocks_of(size));
    }

    /// How many there are from one on, below another.
    pub fn count(&self, from: u64, to: u64) -> u64
        ensures { result ≡ count_between from to self.now }
    {
        count_in(self.numbers.as_slice(), from, to) as u64
    }
}

/// The blocks that a size takes, written or not.
pub fn blocks_of(size: u64) -> u64
    ensures { result ≡ blocks_for size }
{
    let unit = u64::from(BLOCK_SIZE);
    size / unit + u64::from(size % unit != 0)
}

/// The first block that bytes from this place on touch.
pub fn first_touched(offset: u64) -> u64
    ensures { result ≡ blocks.first_touched offset }
{
    offset / u64::from(BLOCK_SIZE)
}

/// The block after the last one that so many bytes from this place on touch. `Memory` where they
/// end at no place.
pub fn touched_end(offset: u64, len: usize) -> Result<u64, Memory>
    ensures { IfOk result (λ end. end ≡ blocks.touched_end offset len) }
{
    if len == 0 {
        return Ok(first_touched(offset));
    }
    match offset.checked_add(len as u64 - 1) {
        Some(last) => Ok(last / u64::from(BLOCK_SIZE) + 1),
        None => Err(Memory),
    }
}

fn keep_below(numbers: &mut Vec<u64>, end: u64)
    ensures { numbers.new.items ≡ filter (λ b. nat_lt b end) numbers.old.items }
{
    numbers.retain(|block| *block < end);
}

fn keep_from(numbers: &mut Vec<u64>, end: u64)
    ensures { numbers.new.items ≡ filter (λ b. nat_le end b) numbers.old.items }
{
    numbers.retain(|block| *block >= end);
}

// The numbers from one on, below another.
fn push_numbers(numbers: &mut Vec<u64>, from: u64, to: u64) -> Result<(), Memory>
    ensures { OnOk result (numbers.new.items ≡ numbers.old.items ++ numbers_from from (to - from)) }
{
    let mut next = from;
    while next < to {
        numbers.push(next)?;
        next += 1;
    }
    Ok(())
}

fn count_in(numbers: &[u64], from: u64, to: u64) -> usize
    ensures count { result ≡ blocks.count_between from to numbers.now }
{
    numbers
        .iter()
        .filter(|block| **block >= from && **block < to)
        .count()
}
