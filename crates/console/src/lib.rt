// Standard input and output of the programs.
#![tactic(auto)]

ghost use Rattle.std.specs.Prelude.{◌≤◌, length};

use std::io::Read;

// Prints a text, and says on standard error if that cannot be done.
pub fn print(rt: &(impl Print + Eprint), text: &[u8]) {
    if rt.write_all(text).is_err() {
        let _ = rt.eprint("standard output cannot be written\n");
    }
}

// Reads until the slice is full, the input ends or a read fails, and says how many bytes came: the library's `read_exact` does not say that.
pub fn read_full(rt: &impl Input, bytes: &mut [u8]) -> usize
    ensures { result ≤ length bytes.new }
{
    let mut reader = rt.reader();
    let mut done = 0;
    while done < bytes.len() {
        let count = reader.read(&mut bytes[done..]).unwrap_or(0);
        if count == 0 {
            break;
        }
        done += count;
    }
    done
}

// Whether a read brought anything.
fn skip_some(rt: &impl Input) -> bool {
    let mut bytes = [0u8; 65536];
    read_full(rt, &mut bytes) > 0
}

// Reads what is left of the input and forgets it, so that whoever writes it can write it all. It stops after 65,536 reads, 4 GiB at most, since the
// input may have no end.
pub fn skip_rest(rt: &impl Input) {
    for _ in 0..65536 {
        if !skip_some(rt) {
            return;
        }
    }
}
