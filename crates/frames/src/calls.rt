// Calls of procedures: what belongs to the call under way stands in counters, that of a call that waits in four words of its own.
ghost use Rattle.std.specs.Prelude.{◌+◌, ◌≤◌, ◌≡◌, length};
ghost use Rattle.machine.specs.Layout.{fixed_words, stack_words, call_place};
ghost use Rattle.machine.specs.Act.{Does, Gives};
ghost use Rattle.machine.specs.Procedures.{keep, recall, first_word, frame_from, open_frame, resume};

use machine::{Fault, counters, frame_words, kinds, layout};
use stores::arguments;

// The first of the d-th call's words.
pub fn place_of(d: usize) -> usize
    ensures { result ≡ call_place d }
{
    layout::FIRST_CALL + layout::CALL_WORDS * (d % layout::CALLS)
}

// ---- the caller waits, and goes on
// Keeps what belongs to the call under way.
pub fn keep(words: &mut [u64])
    requires { fixed_words ≤ length words.old }
    ensures { Gives words.old keep tt words.new }
{
    let at = place_of(words[counters::CALLS] as usize);
    words[at + frame_words::FRAME] = words[counters::FRAME];
    words[at + frame_words::DECLARED] = words[counters::DECLARED];
    words[at + frame_words::RUNNING] = words[counters::RUNNING];
    words[at + frame_words::LOOP_UNIT] = words[counters::LOOP_UNIT];
}

// The c-th call is under way again.
fn recall(words: &mut [u64], c: usize)
    requires { fixed_words ≤ length words.old }
    ensures { Gives words.old (recall c) tt words.new }
{
    let at = place_of(c);
    words[counters::FRAME] = words[at + frame_words::FRAME];
    words[counters::DECLARED] = words[at + frame_words::DECLARED];
    words[counters::RUNNING] = words[at + frame_words::RUNNING];
    words[counters::LOOP_UNIT] = words[at + frame_words::LOOP_UNIT];
}

// The call under way returns, and its caller goes on.
pub fn resume(words: &mut [u64], base: u64)
    requires { fixed_words ≤ length words.old }
    ensures { Gives words.old (resume base) tt words.new }
{
    let c = arithmetic::lowered_word(words[counters::CALLS], 1);
    words[counters::CALLS] = c;
    recall(words, c as usize);
    arguments::drop_to(words, base);
}

// ---- frames
// The k-th word of a frame with m parameters, when its call begins.
fn first_word(m: usize, k: usize) -> u64
    ensures { result ≡ first_word m k }
{
    if k < m {
        return kinds::NOTHING + frame_words::ORDER * ((k % frame_words::NUMBERS) as u64);
    }
    0
}

// Its n words, from top on.
fn put_frame(words: &mut [u64], top: usize, m: usize, n: usize)
    requires fixed_words_in_bounds { fixed_words ≤ length words.old }
    requires n_bound { top + n ≤ stack_words }
    ensures { Gives words.old (frame_from top m 0 n) tt words.new }
{
    for k in 0..n {
        words[layout::FIRST_ARGUMENT + top + k] = first_word(m, k);
    }
}

// A frame of n words from top on, with m parameters; fails at a place if the stack is full.
pub fn open_frame(words: &mut [u64], top: usize, m: usize, n: usize, p: u64) -> Result<(), Fault>
    requires { fixed_words ≤ length words.old }
    ensures { Does words.old (open_frame top m n p) result words.new }
{
    if layout::STACK_WORDS < top {
        return Err(Fault::Misuse(p));
    }
    if layout::STACK_WORDS - top < n {
        return Err(Fault::Misuse(p));
    }
    put_frame(words, top, m, n);
    words[counters::FRAME] = top as u64;
    words[counters::DECLARED] = m as u64;
    words[counters::ARGUMENTS] = (top + n) as u64;
    Ok(())
}
