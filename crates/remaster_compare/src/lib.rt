// Two files, or two lists of samples, beside each other.
#![tactic(auto)]

ghost use Rattle.std.specs.Prelude.{◌≡◌, ◌+◌, ◌-◌, ◌*◌, ◌≤◌, length};
ghost use Rattle.remaster_compare.specs.Same.{same_byte, same_sample, count_of, counted, are_same};
ghost use Rattle.remaster_compare.specs.Kept.{compared_from, is_header_kept, block_at, is_kept};

use block::BlockHeader;
use format::{Coding, Header};
use std::fmt;

// Of so many, how many are the same.
#[derive(Clone, Copy)]
pub struct Count {
    pub same: usize,
    pub all: usize,
}

impl Count {
    // Whether each of all is the same.
    pub fn are_same(self) -> bool
        ensures { result ≡ are_same self }
    {
        self.same == self.all
    }
}

impl fmt::Display for Count {
    fn fmt<W: fmt::Write>(&self, f: &mut fmt::Formatter<W>) -> fmt::Result {
        write!(f, "{} of {}", self.same, self.all)
    }
}

// A place that one of the two lacks is not the same.
#[tactic(auto, unfolding(crate::specs::Same::same_at))]
fn is_same_byte(old: &[u8], new: &[u8], i: usize) -> bool
    ensures { result ≡ same_byte old.now new.now i }
{
    i < old.len() && i < new.len() && old[i] == new[i]
}

#[tactic(auto, using(sample::proofs::Equals::equal_bits), unfolding(crate::specs::Same::same_at))]
fn is_same_sample(a: &[i32], b: &[i32], i: usize) -> bool
    ensures { result ≡ same_sample a.now b.now i }
{
    i < a.len() && i < b.len() && a[i] == b[i]
}

// How many bytes from `start` on, before `end`, are the same in both. A loop here and in `count_samples`: by `filter`
// and `count` it takes two and a half times as long.
#[tactic(auto, using(crate::proofs::Counts::count_next, crate::proofs::Counts::count_most))]
fn count_bytes(old: &[u8], new: &[u8], start: usize, end: usize) -> usize
    ensures { result ≡ count_of (same_byte old.now new.now) start (end - start) }
{
    let mut same: usize = 0;
    for i in start..end {
        if is_same_byte(old, new, i) {
            same += 1;
        }
    }
    same
}

// Counts the bytes from `start` on, before `end`, that are the same in both.
pub fn same_bytes(old: &[u8], new: &[u8], start: usize, end: usize) -> Count
    ensures { result ≡ counted (same_byte old.now new.now) start end }
{
    Count {
        same: count_bytes(old, new, start, end),
        all: end.saturating_sub(start),
    }
}

// How many of the first n samples are the same in both.
#[tactic(auto, using(crate::proofs::Counts::count_turn, crate::proofs::Counts::count_most))]
fn count_samples(a: &[i32], b: &[i32], n: usize) -> usize
    ensures { result ≡ count_of (same_sample a.now b.now) 0 n }
{
    let mut same: usize = 0;
    for i in 0..n {
        if is_same_sample(a, b, i) {
            same += 1;
        }
    }
    same
}

// Counts the first n samples that are the same in both.
pub fn same_samples(a: &[i32], b: &[i32], n: usize) -> Count
    ensures { result ≡ counted (same_sample a.now b.now) 0 n }
{
    let same = count_samples(a, b, n);
    Count { same, all: n }
}

// Whether a block's header is kept, and where the block ends.
#[derive(Clone, Copy)]
struct Block {
    is_kept: bool,
    end: usize,
}

// Where the bytes of a header begin that are compared beside the mark: the base of differences is not.
fn compared_from(coding: Coding) -> usize
    ensures { result ≡ compared_from coding }
{
    match coding {
        Coding::Differences(_) => 8,
        Coding::Raw(_) | Coding::Beyond => 4,
    }
}

// Whether the header of the block that begins there is kept, but for the base of differences.
#[tactic(auto, using(crate::proofs::Headers::from_most), unfolding(crate::specs::Kept::is_header_kept))]
fn is_header_kept(old: &[u8], new: &[u8], at: usize, coding: Coding) -> bool
    requires { at + 16 ≤ length old.now }
    ensures { result ≡ is_header_kept coding old.now new.now at }
{
    let mark = same_bytes(old, new, at, at + 4);
    let rest = same_bytes(old, new, at + compared_from(coding), at + 16);
    mark.are_same() && rest.are_same()
}

// The block that begins there; where no whole one does, it ends there too.
#[tactic(auto, using(crate::proofs::Headers::one_block))]
fn block_at(old: &[u8], new: &[u8], at: usize, depth: u16) -> Block
    ensures { result ≡ block_at depth old.now new.now at }
{
    let none = Block {
        is_kept: false,
        end: at,
    };
    let left = old.len().saturating_sub(at);
    if left < 16 {
        return none;
    }
    let b = BlockHeader::read(&old[at..]);
    let coding = block::coding(depth, b.bits);
    let size = 16 + 64 * block::width(coding) as usize;
    if left < size {
        return none;
    }
    Block {
        is_kept: is_header_kept(old, new, at, coding),
        end: at + size,
    }
}

// How many blocks a file of that header has: a group has one per channel.
pub fn block_count(h: Header) -> usize
    ensures { result ≡ h.groups * h.channels }
{
    h.groups as usize * h.channels as usize
}

// Counts the headers that are kept, of so many blocks of the old file, which follow each other from `start` on.
#[tactic(auto, using(crate::proofs::Headers::blocks))]
pub fn same_headers(old: &[u8], new: &[u8], depth: u16, start: usize, all: usize) -> Count
    ensures { result ≡ counted (is_kept depth old.now new.now start) 0 all }
{
    let mut same: usize = 0;
    let mut at = start;
    for i in 0..all {
        let b = block_at(old, new, at, depth);
        if b.is_kept {
            same += 1;
        }
        at = b.end;
    }
    Count { same, all }
}
