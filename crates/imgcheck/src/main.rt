// Says whether the program on standard input is well formed, and where it is not.
#![tactic(auto)]

ghost use Rattle.std.specs.Prelude.{◌≤◌, ◌≡◌, length};
ghost use Rattle.answers.specs.Answers.{meant};
ghost use Rattle.checking.specs.Checking.{read_answer};
ghost use Rattle.console.specs.Prints.{Prints};
ghost use Rattle.imgcheck.specs.Sizes.{input_bytes, out_bytes};
ghost use Rattle.imgcheck.specs.Reports.{report_of, Reported};

use answers::Answer;

// What is read and printed at most: the numbers of specs/Sizes, which the proofs compare.
const INPUT: usize = 32768 + 1;

const OUT: usize = 512;

// Checking with work slices of its own. Nothing is granted but one call, the fewest in range, since checking takes nothing.
fn answer(program: &[u8]) -> Answer
    ensures { meant result ≡ read_answer program.now }
{
    let mut tokens = [0u64; 8193];
    let mut code = [0u64; 16384];
    let grants = [0u64, 0, 0, 0, 1];
    checking::check(program, &grants, &mut tokens, &mut code)
}

// Writes all that is printed about a program, and how many bytes that is.
fn checked_report(program: &[u8], out: &mut [u8]) -> usize
    ensures { Reported program.now out.old out.new result }
{
    let r = answer(program);
    report::write_report(out, program, r)
}

// The report on every input of which n bytes were read, in the front of `out`. Says how many bytes it has.
fn report_read(bytes: &[u8], n: usize, out: &mut [u8]) -> usize
    requires { (length bytes.now ≡ input_bytes) × (n ≤ input_bytes) × (length out.old ≡ out_bytes) }
    ensures { Prints report_of bytes.now n out.new result }
{
    checked_report(&bytes[..n], out)
}

fn main(rt: HostRuntime) {
    let mut bytes = [0u8; INPUT];
    let n = console::read_full(&rt, &mut bytes);
    let mut out = [0u8; OUT];
    let size = report_read(&bytes, n, &mut out);
    console::print(&rt, &out[..size]);
    if n == INPUT {
        console::skip_rest(&rt);
    }
}
