// What an operation hands back, and the words in which C and Rust are told of it.
#![tactic(auto)]

ghost use Rattle.std.specs.Prelude.{◌≡◌, set};
ghost use Rattle.answers.specs.Answers.{meant, Told};

use slices::put;

// A picture with its length and steps (from checking: well formed, both 0); or a number with its place, the steps counted, and after 80 the
// length that the picture needs, else 0.
#[derive(Clone, Copy)]
pub enum Answer {
    Picture(u64, u64),
    Number(u64, u64, u64, u64),
}

// Writes an answer's four words, and returns its number.
pub fn write_answer(r: Answer, answer: &mut [u64]) -> u64
    ensures { Told (meant r) answer.old answer.new result }
{
    match r {
        Answer::Picture(l, n) => {
            write_four(answer, 0, 0, n, l);
            0
        }
        Answer::Number(m, p, n, l) => {
            write_four(answer, m, p, n, l);
            m
        }
    }
}

// Writes four words, as far as the slice reaches.
fn write_four(answer: &mut [u64], m: u64, p: u64, n: u64, l: u64)
    ensures { answer.new ≡ set (set (set (set answer.old 0 m) 1 p) 2 n) 3 l }
{
    put(answer, 0, m);
    put(answer, 1, p);
    put(answer, 2, n);
    put(answer, 3, l);
}
