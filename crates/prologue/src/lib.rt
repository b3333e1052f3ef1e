// Main's prologue and epilogue: the words cleared, its frame with the width and the height, and its return, with the scene that it leaves measured.
#![tactic(auto)]

ghost use Rattle.std.specs.Prelude.{◌≤◌, length};
ghost use Rattle.machine.specs.Layout.{fixed_words, Room};
ghost use Rattle.machine.specs.Act.{Does};
ghost use Rattle.prologue.specs.Prologue.{main_begins, main_ends, Blank};

use machine::{Fault, Value, counters, granted, layout};

// Zeros in the words before the stack and in those of entries. What the others hold before a run does not count.
pub fn clear_first(words: &mut [u64], grants: &[u64; 5])
    requires { Room grants.now words.old }
    ensures { Blank grants.now words.new }
{
    let a = stores::shapes::place_of(grants[granted::SHAPES] as u32);
    let b = stores::components::place_of(grants, 0);
    slices::clear_words(&mut words[..layout::FIRST_ARGUMENT]);
    slices::clear_words(&mut words[a..b]);
}

// Main begins, by how many words its variables take: its parameters hold the width and the height; 60 if they have one name. Main is the first call.
pub fn enter(
    words: &mut [u64],
    grants: &[u64; 5],
    n: usize,
    width: i32,
    height: i32,
) -> Result<(), Fault>
    requires { fixed_words ≤ length words.old }
    ensures { Does words.old (main_begins grants.now n width height) result words.new }
{
    if n == 0 {
        return Err(Fault::DeclaredTwice(0));
    }
    let limit = grants[granted::CALLS];
    stores::counters::pay_one(words, counters::CALLS, limit, Fault::NoCallLeft(0))?;
    frames::calls::open_frame(words, 0, 2, n, 0)?;
    frames::variables::set_variable(words, 0, values::pack(Value::Integer(width)));
    frames::variables::set_variable(words, 1, values::pack(Value::Integer(height)));
    Ok(())
}

// Main returns: its call is given back, and the scene that it leaves is measured. 79 if the steps run out.
pub fn leave<'a>(
    program: &'a [u8],
    texts: &'a [u8],
    words: &mut [u64],
    grants: &[u64; 5],
) -> Result<(), Fault>
    requires { Room grants.now words.old }
    ensures { Does words.old (main_ends program.now texts.now grants.now) result words.new }
{
    words[counters::CALLS] = 0;
    scene::measure_scene(program, texts, words, grants)
}
