// New shapes that wait for their group while a group is made anew: its components first, then the group.
ghost use Rattle.std.specs.Prelude.{◌≤◌, length};
ghost use Rattle.machine.specs.Layout.{fixed_words, Room};
ghost use Rattle.machine.specs.Act.{Does, Gives};
ghost use Rattle.machine.specs.Groups.{await, group_waiting, remake_left};

use crate::making;
use machine::{Fault, counters, layout};
use stores::{shapes, words};

// A new shape waits.
pub fn await_shape(words: &mut [u64], j: u64)
    requires { fixed_words ≤ length words.old }
    ensures { Gives words.old (await j) tt words.new }
{
    let k = words[counters::WAITING] % 65536;
    words::put_word(words, shapes::place_of(k as u32) + 4, j);
    words[counters::WAITING] = k + 1;
}

// A group of those that wait from the m-th on, by its shape's number.
pub fn gather(words: &mut [u64], grants: &[u64; 5], p: u64, m: u32) -> Result<u32, Fault>
    requires { Room grants.now words.old }
    ensures { Does words.old (group_waiting grants.now p m) result words.new }
{
    let n = words[counters::WAITING].saturating_sub(m as u64);
    let at = shapes::place_of(m) + 4;
    let j = making::make_group(words, grants, p, layout::SHAPE_WORDS, 1, at, n)?;
    words[counters::WAITING] = m as u64;
    Ok(j)
}

// A group whose components were all made anew is left: its own group waits.
pub fn leave_group(words: &mut [u64], grants: &[u64; 5], p: u64, d: u32) -> Result<(), Fault>
    requires { Room grants.now words.old }
    ensures { Does words.old (remake_left grants.now p d) result words.new }
{
    let m = walks::waiting_at(words, d);
    let j = gather(words, grants, p, m)?;
    await_shape(words, j as u64);
    Ok(())
}
