// Writes the text of the program on standard input: the one way to write it.
#![tactic(auto)]

ghost use Rattle.std.specs.Prelude.{◌≤◌, ◌≡◌, length};
ghost use Rattle.sheet.specs.Shown.{Front};
ghost use Rattle.console.specs.Prints.{Prints};
ghost use Rattle.imgtext.specs.Printed.{input_bytes, out_bytes, printed};

// What is read and printed at most: the numbers of specs/Printed, which the proofs compare.
const INPUT: usize = 32768 + 1;

const OUT: usize = 32768;

// The text or the line of an error, in the front of `out`. Nothing is granted but one call, the fewest in range, since nothing is taken.
fn write_program(program: &[u8], out: &mut [u8]) -> usize
    requires { length out.old ≡ out_bytes }
    ensures { Front (printed program.now) out.new result }
{
    let mut tokens = [0u64; 8193];
    let mut code = [0u64; 16384];
    let grants = [0u64, 0, 0, 0, 1];
    let answer = formatting::format(program, &grants, &mut tokens, &mut code, out);
    sheet::put_answer(answer, out)
}

// What is printed for every input of which n bytes were read, in the front of `out`. Says how many bytes it has.
fn write_read(bytes: &[u8], n: usize, out: &mut [u8]) -> usize
    requires { (length bytes.now ≡ input_bytes) × (n ≤ input_bytes) × (length out.old ≡ out_bytes) }
    ensures { Prints printed bytes.now n out.new result }
{
    write_program(&bytes[..n], out)
}

fn main(rt: HostRuntime) {
    let mut bytes = [0u8; INPUT];
    let n = console::read_full(&rt, &mut bytes);
    let mut out = [0u8; OUT];
    let size = write_read(&bytes, n, &mut out);
    console::print(&rt, &out[..size]);
    if n == INPUT {
        console::skip_rest(&rt);
    }
}
