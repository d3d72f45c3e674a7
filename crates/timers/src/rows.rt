//! Numbers in rows of eight, below a tree of the least of each row.
ghost use Rattle.std.specs.Prelude.{◌≡◌, ◌*◌, ◌^◌, ◌<◌, ◌≤◌, length, replicate, slice_index, slice_set, EachIndex};
ghost use Rattle.std.specs.Prelude.{SomeIndex, IfOk, IfSome, IfNone};
ghost use Rattle.timers.specs.Rows.{IsLeast, row_of};

use crate::tree::Tree;
use std::alloc::{AllocError, Global};
use std::marker::Model;

/// How many numbers a row has: 64 bytes, as many as a line of the processor's cache.
const ROW: usize = 8;

/// At least one number. Row k has those from `ROW * k` on; the last row may have fewer than the others.
#[derive(Drop)]
pub(crate) struct Rows {
    numbers: Vec<u64>,
    // the least number of each row
    tree: Tree,
}

impl Model for Rows {
    ghost use Rattle.std.specs.Prelude.{ℕ, List};
    ghost use Rattle.timers.specs.Rows.{AreRows};

    ghost Value = { List ℕ };

    ghost view = { λ r. r.numbers.items };

    ghost invariant = { λ r. AreRows r.numbers.items r.tree };
}

impl Rows {
    /// So many numbers, all of them this one.
    pub(crate) fn new(alloc: Global, count: usize, number: u64) -> Result<Rows, AllocError>
        requires least { 1 ≤ count }
        requires most { 2 * count < 2 ^ 64 }
        ensures { IfOk result (λ rows. rows ≡ replicate count number) }
    {
        let numbers = Vec::from_elem(alloc, number, count)?;
        let tree = Tree::new(alloc, count.div_ceil(ROW), number)?;
        Ok(Rows { numbers, tree })
    }

    /// How many numbers there are.
    pub(crate) fn count(&self) -> usize
        ensures { result ≡ length self.now }
    {
        self.numbers.len()
    }

    pub(crate) fn get(&self, place: usize) -> u64
        requires { place < length self.now }
        ensures { result ≡ slice_index self.now place }
    {
        self.numbers[place]
    }

    pub(crate) fn set(&mut self, place: usize, number: u64)
        requires { place < length self.old }
        ensures { self.new ≡ slice_set self.old place number }
    {
        if self.numbers[place] == number {
            return;
        }
        self.numbers[place] = number;
        let row = place / ROW;
        let least = least_of(row_at(self.numbers.as_slice(), row));
        self.tree.set(row, least);
    }

    /// The place of a least number; `None` exactly where no number is below the limit.
    pub(crate) fn least_below(&self, limit: u64) -> Option<usize>
        ensures none { IfNone result (EachIndex self.now (λ k. limit ≤ slice_index self.now k)) }
        ensures within { IfSome result (λ place. place < length self.now) }
        ensures below { IfSome result (λ place. slice_index self.now place < limit) }
        ensures least { IfSome result (λ place. EachIndex self.now (λ k. slice_index self.now place ≤ slice_index self.now k)) }
    {
        let row = self.tree.least_below(limit)?;
        let least = self.tree.get(row);
        Some(ROW * row + first_of(row_at(self.numbers.as_slice(), row), least))
    }
}

/// The numbers of a row.
fn row_at(numbers: &[u64], row: usize) -> &[u64]
    requires { ROW * row < length numbers.now }
    ensures { result.now ≡ row_of numbers.now row }
{
    let rest = &numbers[ROW * row..];
    &rest[..rest.len().min(ROW)]
}

/// The least of some numbers.
fn least_of(numbers: &[u64]) -> u64
    requires { 1 ≤ length numbers.now }
    ensures { IsLeast numbers.now result }
{
    let mut least = numbers[0];
    for &number in numbers {
        least = least.min(number);
    }
    least
}

/// The first place of a number that is among these.
fn first_of(numbers: &[u64], number: u64) -> usize
    requires { SomeIndex numbers.now (λ i. slice_index numbers.now i ≡ number) }
    ensures within { result < length numbers.now }
    ensures number { slice_index numbers.now result ≡ number }
{
    let mut place = 0;
    while numbers[place] != number {
        place += 1;
    }
    place
}
