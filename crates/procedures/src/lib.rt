// A call of a procedure of the program begins.
#![tactic(auto)]

ghost use Rattle.machine.specs.Act.{Does};
ghost use Rattle.machine.specs.Procedures.{assign_from, begin};
ghost use Rattle.machine.specs.Layout.{Room};
ghost use Rattle.procedures.specs.Begun.{Callable};

use machine::{Fault, counters, granted};

// Assigns the n parameters the arguments from the one numbered base on.
fn assign_parameters(
    words: &mut [u64],
    grants: &[u64; 5],
    base: usize,
    n: usize,
    p: u64,
) -> Result<(), Fault>
    requires { Room grants.now words.old }
    ensures { Does words.old (assign_from grants.now base 0 n p) result words.new }
{
    for k in 0..n {
        let w = words[stores::arguments::place_above(base, k)];
        effects::assign(words, grants, k, w, p)?;
    }
    Ok(())
}

// All that a call of the procedure asks whose name has the slot callee, in its order. Its arguments are on the stack from base up to top.
pub fn begin(
    words: &mut [u64],
    code: &[u64],
    grants: &[u64; 5],
    callee: usize,
    top: usize,
    p: u64,
    base: usize,
) -> Result<(), Fault>
    requires { Callable grants.now words.old callee }
    ensures { Does words.old (begin grants.now code.now callee top p base) result words.new }
{
    let d = stores::words::word_at(code, code::table_place(callee));
    if d == 0 {
        return Err(Fault::Misuse(p));
    }
    let m = code::parameters_of(d);
    if arithmetic::lowered(top, base) != m {
        return Err(Fault::Misuse(p));
    }
    let n = code::frame_of(d);
    if n == 0 {
        return Err(Fault::DeclaredTwice(p));
    }
    frames::calls::keep(words);
    let limit = grants[granted::CALLS];
    stores::counters::pay_one(words, counters::CALLS, limit, Fault::NoCallLeft(p))?;
    frames::calls::open_frame(words, top, m, n, p)?;
    words[counters::RUNNING] = callee as u64 + 1;
    words[counters::LOOP_UNIT] = 0;
    assign_parameters(words, grants, base, m, p)
}
