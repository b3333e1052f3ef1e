// The scene cleared: the shapes that variables hold are destroyed with all in them, call by call from main on.
ghost use Rattle.std.specs.Prelude.{◌-◌, get_or};
ghost use Rattle.machine.specs.Words.{unpacked};
ghost use Rattle.machine.specs.Layout.{calls_used, Room};
ghost use Rattle.machine.specs.Act.{Does};
ghost use Rattle.machine.specs.Variables.{destroy_in, clear_from, clear_calls, clear_scene};

use frames::{calls, variables};
use machine::{Fault, counters, frame_words, kinds};

// The shape that a word's value is.
fn destroy_in(words: &mut [u64], grants: &[u64; 5], p: u64, w: u64) -> Result<(), Fault>
    requires { Room grants.now words.old }
    ensures { Does words.old (destroy_in grants.now p (unpacked w)) result words.new }
{
    if w % 8 != kinds::SHAPE {
        return Ok(());
    }
    crate::destroy_living(words, grants, p, values::number_of(w))
}

// The variables in the frame f, of n declarations in their order.
fn clear_frame(
    words: &mut [u64],
    grants: &[u64; 5],
    p: u64,
    f: usize,
    n: usize,
) -> Result<(), Fault>
    requires { Room grants.now words.old }
    ensures { Does words.old (clear_from grants.now p f 0 n) result words.new }
{
    for k in 0..n {
        let w = variables::holding_of(words, f, k);
        destroy_in(words, grants, p, w)?;
    }
    Ok(())
}

// Those of all calls that wait, from main on.
fn clear_calls(words: &mut [u64], grants: &[u64; 5], p: u64) -> Result<(), Fault>
    requires { Room grants.now words.old }
    ensures { Does words.old (clear_calls grants.now p 1 (get_or words.old calls_used 0 - 1)) result words.new }
{
    let calls = words[counters::CALLS] as usize;
    for d in 1..calls {
        let at = calls::place_of(d);
        let f = words[at + frame_words::FRAME] as usize;
        let n = words[at + frame_words::DECLARED] as usize;
        clear_frame(words, grants, p, f, n)?;
    }
    Ok(())
}

// Those of all calls.
pub fn clear_scene(words: &mut [u64], grants: &[u64; 5], p: u64) -> Result<(), Fault>
    requires { Room grants.now words.old }
    ensures { Does words.old (clear_scene grants.now p) result words.new }
{
    clear_calls(words, grants, p)?;
    let f = variables::frame(words);
    let n = variables::declared_count(words);
    clear_frame(words, grants, p, f, n)
}
