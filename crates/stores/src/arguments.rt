// The arguments of calls under way.
ghost use Rattle.std.specs.Prelude.{◌+◌, ◌≤◌, ◌≡◌, length, get_or};
ghost use Rattle.machine.specs.Layout.{arguments_held, fixed_words, argument_place};
ghost use Rattle.machine.specs.Act.{Does, Gives};
ghost use Rattle.machine.specs.Stack.{argument_at, push, drop_to};

use machine::{Fault, counters, layout};

// How many arguments are held.
pub fn arguments_held(words: &[u64]) -> u64
    requires { fixed_words ≤ length words.now }
    ensures { result ≡ get_or words.now arguments_held 0 }
{
    words[counters::ARGUMENTS]
}

// Where the i-th word above base stands.
pub fn place_above(base: usize, i: usize) -> usize
    ensures { result ≡ argument_place (base + i) }
{
    layout::FIRST_ARGUMENT
        + (base % layout::STACK_WORDS + i % layout::STACK_WORDS) % layout::STACK_WORDS
}

// The k-th argument.
pub fn argument(words: &[u64], k: usize) -> u64
    requires { fixed_words ≤ length words.now }
    ensures { result ≡ argument_at words.now k }
{
    words[layout::FIRST_ARGUMENT + k % layout::STACK_WORDS]
}

// Holds one more argument; fails at a place if there is no room.
pub fn push(words: &mut [u64], w: u64, p: u64) -> Result<(), Fault>
    requires { fixed_words ≤ length words.old }
    ensures { Does words.old (push w p) result words.new }
{
    let k = words[counters::ARGUMENTS];
    if layout::MOST_ARGUMENTS <= k {
        return Err(Fault::Misuse(p));
    }
    words[layout::FIRST_ARGUMENT + k as usize % layout::STACK_WORDS] = w;
    words[counters::ARGUMENTS] = k + 1;
    Ok(())
}

// Drops the arguments from the one numbered base on.
pub fn drop_to(words: &mut [u64], base: u64)
    requires { fixed_words ≤ length words.old }
    ensures { Gives words.old (drop_to base) tt words.new }
{
    words[counters::ARGUMENTS] = base;
}
