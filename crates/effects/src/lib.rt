// What a statement does once its parts are evaluated.
#![tactic(auto)]

ghost use Rattle.std.specs.Prelude.{ℕ, ◌≤◌, ◌≡◌, List, length, set};
ghost use Rattle.machine.specs.Opcodes.{tag_in, tag_assign};
ghost use Rattle.machine.specs.Words.{kind_in, kind_shape};
ghost use Rattle.machine.specs.Layout.{loop_unit, fixed_words, Room};
ghost use Rattle.machine.specs.Loops.{inner_unit};
ghost use Rattle.machine.specs.Act.{Does, Gives};
ghost use Rattle.machine.specs.Effects.{declaring, assigning, finishing, saying};
ghost use Rattle.effects.specs.Looped.{opening, Enters};

use machine::{Fault, Flow, counters, kinds, tags};

// ---- declarations
pub fn declare(words: &mut [u64], slot: usize, p: u64) -> Result<Flow, Fault>
    requires { fixed_words ≤ length words.old }
    ensures { Does words.old (declaring slot p) result words.new }
{
    frames::variables::declare(words, slot, p)?;
    Ok(Flow::Onward)
}

// ---- assignments
// A word that is no shape put into a variable; 50 if it is not declared. Only the contract speaks of the grants.
pub fn put_word(
    words: &mut [u64],
    grants: &[u64; 5],
    slot: usize,
    k: u64,
    p: u64,
) -> Result<Flow, Fault>
    requires fixed_words_in_bounds { fixed_words ≤ length words.old }
    requires fact { kind_in k ≡ kind_shape → ⊥ }
    ensures { Does words.old (assigning grants.now p slot k) result words.new }
{
    if !frames::variables::is_declared(words, slot) {
        return Err(Fault::Undeclared(p));
    }
    frames::variables::set_variable(words, slot, k);
    Ok(Flow::Onward)
}

// A copy of a shape, by its word, put into a variable; 50 if it is not declared, 30 if the shape is destroyed.
fn put_copy(
    words: &mut [u64],
    grants: &[u64; 5],
    slot: usize,
    k: u64,
    p: u64,
) -> Result<Flow, Fault>
    requires room { Room grants.now words.old }
    requires k_value { kind_in k ≡ kind_shape }
    ensures { Does words.old (assigning grants.now p slot k) result words.new }
{
    if !frames::variables::is_declared(words, slot) {
        return Err(Fault::Undeclared(p));
    }
    if frames::variables::is_dead(words, k) {
        return Err(Fault::Destroyed(p));
    }
    let v = groups::making::copy_shape(words, grants, p, values::number_of(k))?;
    frames::variables::set_variable(words, slot, values::pack(v));
    Ok(Flow::Onward)
}

// A word put into a variable, a shape as a copy.
pub fn assign(
    words: &mut [u64],
    grants: &[u64; 5],
    slot: usize,
    k: u64,
    p: u64,
) -> Result<Flow, Fault>
    requires { Room grants.now words.old }
    ensures { Does words.old (assigning grants.now p slot k) result words.new }
{
    if values::kind_of(k) == kinds::SHAPE {
        return put_copy(words, grants, slot, k, p);
    }
    put_word(words, grants, slot, k, p)
}

// ---- statements of one expression
// What the statement whose word is w does with a value, by its word, if it assigns nothing.
pub fn pass_on(w: u64, k: u64) -> Flow
    requires { tag_in w ≡ tag_assign → ⊥ }
    ensures { (ws g : List ℕ) (p : ℕ) → Gives ws (finishing g w k p) result ws }
{
    if code::tag_of(w) == tags::RETURN {
        return Flow::Returned(values::unpack(k));
    }
    Flow::Onward
}

// What any such statement does. It asks for shapes itself, as `assign` does: where their copies are made in one place only, words pay for them too.
pub fn finish(words: &mut [u64], grants: &[u64; 5], w: u64, k: u64, p: u64) -> Result<Flow, Fault>
    requires { Room grants.now words.old }
    ensures { Does words.old (finishing grants.now w k p) result words.new }
{
    if code::tag_of(w) == tags::ASSIGN {
        let slot = code::extra_of(w);
        if values::kind_of(k) == kinds::SHAPE {
            return put_copy(words, grants, slot, k, p);
        }
        return put_word(words, grants, slot, k, p);
    }
    Ok(pass_on(w, k))
}

// ---- tests
// What a value says to a test, by its word; 20 if it is no truth.
pub fn outcome_of(k: u64, p: u64) -> Result<bool, Fault>
    ensures { (ws : List ℕ) → Does ws (saying k p) result ws }
{
    if values::kind_of(k) != kinds::TRUTH {
        return Err(Fault::Misuse(p));
    }
    Ok(values::truth_of(k))
}

// ---- loops over groups
// What a loop asks of shape i: 30 if it is destroyed, 20 if it is no group; then its variable is declared.
pub fn open_loop(words: &mut [u64], slot: usize, i: u32, p: u64) -> Result<(), Fault>
    requires { fixed_words ≤ length words.old }
    ensures { Does words.old (opening slot i p) result words.new }
{
    if stores::shapes::is_destroyed(words, i) {
        return Err(Fault::Destroyed(p));
    }
    if !stores::shapes::is_group(words, i) {
        return Err(Fault::Misuse(p));
    }
    frames::variables::declare_once(words, slot);
    Ok(())
}

// What a loop adds to the words of its way that is inside one that adds u.
fn inner_unit(u: u64) -> u64
    ensures { result ≡ inner_unit u }
{
    if u == 0 {
        return 1;
    }
    u % 9223372036854775808 * 2
}

// A loop begins; what the one around it adds is given.
pub fn enter_loop(words: &mut [u64]) -> u64
    requires { fixed_words ≤ length words.old }
    ensures { Enters words.old result words.new }
{
    let unit = words[counters::LOOP_UNIT];
    words[counters::LOOP_UNIT] = inner_unit(unit);
    unit
}

// A loop is over, and the one around it adds so much.
pub fn leave_loop(words: &mut [u64], unit: u64)
    requires { fixed_words ≤ length words.old }
    ensures { words.new ≡ set words.old loop_unit unit }
{
    words[counters::LOOP_UNIT] = unit;
}
