// The token that begins at a place, as its word.
ghost use Rattle.std.specs.Prelude.{◌≡◌, ◌+◌, ◌≤◌, ◌<◌, length, drop};
ghost use Rattle.meaning.specs.Token.{front, found_name, found_digits, found_string, found_sign, is_double};
ghost use Rattle.lexer.specs.Lexing.{class_table, front_word};

use crate::class::{byte_at, class_at, class_of, run_end};
use crate::table::{DIGIT, LETTER, QUOTE, SIGN};
use tokens::{kind, spelling, word_kind, word_of};

// A name or a reserved word.
fn name_at(classes: &[u8; 256], program: &[u8], at: usize) -> u64
    requires classes_value { classes.now ≡ class_table }
    requires at_in_bounds { (at < length program.now) × (length program.now ≤ 32768) }
    ensures { Some result ≡ front_word at (found_name (drop at program.now)) }
{
    let e = run_end(classes, program, at, LETTER);
    let k = word_kind(spelling(program, at, e));
    word_of(k, at, e - at)
}

// Digits.
fn digits_at(classes: &[u8; 256], program: &[u8], at: usize) -> u64
    requires classes_value { classes.now ≡ class_table }
    requires at_in_bounds { (at < length program.now) × (length program.now ≤ 32768) }
    ensures { Some result ≡ front_word at (found_digits (drop at program.now)) }
{
    let e = run_end(classes, program, at, DIGIT);
    word_of(kind::DIGITS, at, e - at)
}

// A string, whose quote stands at the place.
fn string_at(classes: &[u8; 256], program: &[u8], at: usize) -> Option<u64>
    requires classes_value { classes.now ≡ class_table }
    requires at_in_bounds { (at < length program.now) × (length program.now ≤ 32768) }
    ensures { result ≡ front_word at (found_string (drop (at + 1) program.now)) }
{
    let c = class_at(classes, program, at + 1);
    if c != LETTER {
        return None;
    }
    let e = run_end(classes, program, at + 1, LETTER);
    let q = class_at(classes, program, e);
    if q != QUOTE {
        return None;
    }
    Some(word_of(kind::STRING, at, e + 1 - at))
}

// Whether two bytes are one sign: ++ >> << == or !=.
fn is_double(b: u8, c: u8) -> bool
    ensures { result ≡ is_double b c }
{
    match b {
        b'!' => c == b'=',
        b'+' => c == b'+',
        b'<' => c == b'<',
        b'=' => c == b'=',
        b'>' => c == b'>',
        _ => false,
    }
}

// A sign, by its first byte and the byte behind it.
fn sign_at(b: u8, c: u8, at: usize) -> Option<u64>
    requires { (b < 128) × (at < 65536) }
    ensures { result ≡ front_word at (found_sign b c) }
{
    if is_double(b, c) {
        return Some(word_of(b + 128, at, 2));
    }
    if b == b'!' {
        return None;
    }
    Some(word_of(b, at, 1))
}

// By the class of the first byte.
pub fn token_at(classes: &[u8; 256], program: &[u8], at: usize) -> Option<u64>
    requires classes_value { classes.now ≡ class_table }
    requires at_in_bounds { (at < length program.now) × (length program.now ≤ 32768) }
    ensures { result ≡ front_word at (front (drop at program.now)) }
{
    let b = program[at];
    let c = class_of(classes, b);
    match c {
        LETTER => Some(name_at(classes, program, at)),
        DIGIT => Some(digits_at(classes, program, at)),
        QUOTE => string_at(classes, program, at),
        SIGN => sign_at(b, byte_at(program, at + 1), at),
        _ => None,
    }
}
