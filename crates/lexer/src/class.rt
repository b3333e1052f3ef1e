// Bytes of a program, and their classes.
ghost use Rattle.std.specs.Prelude.{◌≡◌, ◌+◌, get_or, drop};
ghost use Rattle.meaning.specs.Basics.{span};
ghost use Rattle.meaning.specs.Byte.{class_of};
ghost use Rattle.lexer.specs.Lexing.{class_table, from_class};

use crate::table::DIGIT;

// The byte at a place, 0 past the end.
pub fn byte_at(program: &[u8], i: usize) -> u8
    ensures { result ≡ get_or program.now i 0 }
{
    program.get(i).copied().unwrap_or(0)
}

// The class of a byte.
pub fn class_of(classes: &[u8; 256], b: u8) -> u8
    requires { classes.now ≡ class_table }
    ensures { result ≡ class_of b }
{
    let i = b as usize;
    classes[i]
}

// The class of the byte at a place, 0 past the end.
pub fn class_at(classes: &[u8; 256], program: &[u8], i: usize) -> u8
    requires { classes.now ≡ class_table }
    ensures { result ≡ class_of (get_or program.now i 0) }
{
    class_of(classes, byte_at(program, i))
}

// The end of the bytes from a place on that are digits and, where the least class is 2, letters.
pub fn run_end(classes: &[u8; 256], program: &[u8], from: usize, least: u8) -> usize
    requires { classes.now ≡ class_table }
    ensures { result ≡ from + span (from_class least) (drop from program.now) }
{
    for i in from..program.len() {
        let c = class_of(classes, program[i]);
        if c < least || DIGIT < c {
            return i;
        }
    }
    from.max(program.len())
}
