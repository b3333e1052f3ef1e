// What is lent and granted for a run.
#![tactic(auto)]

ghost use Rattle.std.specs.Prelude.{◌≡◌, true, length, replicate};
ghost use Rattle.meaning.specs.Call.{in_range};
ghost use Rattle.machine.specs.Layout.{words_needed};
ghost use Rattle.lending.specs.Lending.{grants_of, enough_to_read, enough};

use machine::{granted, layout};

const FIXED_WORDS: u64 = layout::FIXED_WORDS as u64;

// Whether each count is in its range.
pub fn in_range(grants: &[u64; 5]) -> bool
    ensures { result ≡ in_range (grants_of grants.now) }
{
    if 4294967295 < grants[granted::STEPS] {
        return false;
    }
    if 65535 < grants[granted::SHAPES] {
        return false;
    }
    if 65535 < grants[granted::ENTRIES] {
        return false;
    }
    if 65535 < grants[granted::TEXT] {
        return false;
    }
    if grants[granted::CALLS] < 1 {
        return false;
    }
    grants[granted::CALLS] <= 64
}

// Whether the counts are in their ranges, and slices of these lengths long enough for a program to be read.
pub fn can_read(grants: &[u64; 5], tokens: usize, code: usize) -> bool
    ensures { result ≡ enough_to_read grants.now tokens code }
{
    if !in_range(grants) {
        return false;
    }
    if tokens < 8193 {
        return false;
    }
    16384 <= code
}

// How many words a run needs.
fn words_needed(grants: &[u64; 5]) -> u64
    requires { in_range (grants_of grants.now) ≡ true }
    ensures { result ≡ words_needed grants.now }
{
    FIXED_WORDS
        + 5 * grants[granted::SHAPES]
        + (5 + grants[granted::CALLS]) * grants[granted::ENTRIES]
}

// Whether the counts are in their ranges, and work slices of these lengths as long as they need to be.
pub fn is_enough(grants: &[u64; 5], tokens: usize, code: usize, words: usize, texts: usize) -> bool
    ensures { result ≡ enough grants.now tokens code words texts }
{
    if !can_read(grants, tokens, code) {
        return false;
    }
    if (words as u64) < words_needed(grants) {
        return false;
    }
    grants[granted::TEXT] <= texts as u64
}

// Zeros in all four work slices.
pub fn clear(tokens: &mut [u64], code: &mut [u64], words: &mut [u64], texts: &mut [u8])
    ensures tokens_after { tokens.new ≡ replicate (length tokens.old) 0 }
    ensures code_after { code.new ≡ replicate (length code.old) 0 }
    ensures words_after { words.new ≡ replicate (length words.old) 0 }
    ensures texts_after { texts.new ≡ replicate (length texts.old) 0 }
{
    slices::clear_words(tokens);
    slices::clear_words(code);
    slices::clear_words(words);
    slices::clear_bytes(texts);
}
