// Counters of what a run uses.
ghost use Rattle.std.specs.Prelude.{◌<◌, ◌≤◌, length};
ghost use Rattle.machine.specs.declared.Value.TheVariants.{Table};
ghost use Rattle.machine.specs.Layout.{fixed_words};
ghost use Rattle.machine.specs.Act.{Pays, Gives, Does, spend, count, new_table};
ghost use Rattle.machine.specs.Fault.{number_of, place_of};

use machine::{Fault, counters, granted};

// Adds an amount to a counter, if it then stays within the grant.
pub fn spend(words: &mut [u64], counter: usize, granted: u64, amount: u64) -> bool
    requires { counter < length words.old }
    ensures { Pays words.old counter granted amount result words.new }
{
    let used = words[counter];
    if granted < used {
        return false;
    }
    if granted - used < amount {
        return false;
    }
    words[counter] = used + amount;
    true
}

// Adds one to a counter, if it then stays within the grant.
pub fn spend_one(words: &mut [u64], counter: usize, granted: u64) -> bool
    requires { counter < length words.old }
    ensures { Pays words.old counter granted 1 result words.new }
{
    let used = words[counter];
    if granted <= used {
        return false;
    }
    words[counter] = used + 1;
    true
}

// Adds an amount to a counter, or fails so.
pub fn pay(
    words: &mut [u64],
    counter: usize,
    granted: u64,
    amount: u64,
    fault: Fault,
) -> Result<(), Fault>
    requires { counter < length words.old }
    ensures { Does words.old (spend counter granted amount (number_of fault) (place_of fault)) result words.new }
{
    if spend(words, counter, granted, amount) {
        return Ok(());
    }
    Err(fault)
}

// Adds one to a counter, or fails so.
pub fn pay_one(words: &mut [u64], counter: usize, granted: u64, fault: Fault) -> Result<(), Fault>
    requires { counter < length words.old }
    ensures { Does words.old (spend counter granted 1 (number_of fault) (place_of fault)) result words.new }
{
    if spend_one(words, counter, granted) {
        return Ok(());
    }
    Err(fault)
}

// Counts a step, or fails at a place.
pub fn take_step(words: &mut [u64], grants: &[u64; 5], p: u64) -> Result<(), Fault>
    requires { fixed_words ≤ length words.old }
    ensures { Does words.old (count grants.now p) result words.new }
{
    let limit = grants[granted::STEPS];
    pay_one(words, counters::STEPS, limit, Fault::NoStepLeft(p))
}

// The number of a new table.
pub fn new_table(words: &mut [u64]) -> u32
    requires { fixed_words ≤ length words.old }
    ensures { Gives words.old new_table (Table result) words.new }
{
    let t = words[counters::TABLES] % 4294967296;
    words[counters::TABLES] = t + 1;
    t as u32
}
