// What is granted, lent, read and printed: the numbers of specs/Sizes, which the proofs compare.

// Bytes that are printed at most.
pub const OUT: usize = 65536;

// Bytes that are read at most: a line of 22, and one more than a program may have.
pub const INPUT: usize = 22 + 32768 + 1;

// Steps, shapes, entries, text bytes and calls.
pub const GRANTS: [u64; 5] = [1000000, 1024, 1024, 16384, 64];

// The work slices.
pub const TOKENS: usize = 8193;

pub const CODE: usize = 16384;

pub const WORDS: usize = 262416 + 5 * 1024 + 69 * 1024;

pub const TEXTS: usize = 16384;
