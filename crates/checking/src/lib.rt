// Checking: whether a program is well formed.
#![tactic(auto)]

ghost use Rattle.std.specs.Prelude.{◌≡◌};
ghost use Rattle.checking.specs.Checking.{Checked, Lent, read_answer};
ghost use Rattle.answers.specs.Answers.{meant};

use answers::Answer;

// Reads the program and says whether it is well formed. The grants are steps, shapes, entries, text bytes and calls, of which it takes nothing: it asks
// whether they are in their ranges. `tokens` must hold 8,193 words and `code` 16,384; both hold zeros afterwards, and keep what they had after 71.
pub fn check(program: &[u8], grants: &[u64; 5], tokens: &mut [u64], code: &mut [u64]) -> Answer
    ensures { Checked program.now grants.now tokens.old code.old result tokens.new code.new }
{
    if !lending::can_read(grants, tokens.len(), code.len()) {
        return Answer::Number(71, 0, 0, 0);
    }
    let r = read_answer(program, tokens, code);
    slices::clear_words(tokens);
    slices::clear_words(code);
    r
}

// The answer of a program that is lent enough.
fn read_answer(program: &[u8], tokens: &mut [u64], code: &mut [u64]) -> Answer
    requires { Lent tokens.old code.old }
    ensures { meant result ≡ read_answer program.now }
{
    if 32768 < program.len() {
        return Answer::Number(73, 0, 0, 0);
    }
    match reader::read(program, tokens, code) {
        Ok(_) => Answer::Picture(0, 0),
        Err(m) => Answer::Number(m.number, m.place as u64, 0, 0),
    }
}
