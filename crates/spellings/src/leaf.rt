// Names, constants and signs: what is written of one word.
ghost use Rattle.std.specs.Prelude.{◌≡◌, cond, ◌++◌, ◌<◌, eqb};
ghost use Rattle.std.specs.Int.{w32};
ghost use Rattle.std.proofs.Common.{to_z};
ghost use Rattle.meaning.specs.Basics.{bytes};
ghost use Rattle.meaning.specs.Byte.{is_name_part};
ghost use Rattle.meaning.specs.Picture.{decimal};
ghost use Rattle.machine.specs.Opcodes.{number_in, place_in, extra_in};
ghost use Rattle.writing.specs.Placed.{WroteAt};
ghost use Rattle.spellings.specs.Spelling.{part, name_text, leaf_text, sign_text, encloses};

use machine::tags;
use writing::{write_bytes_at, write_decimal_at};

// Some bytes of the program from a place on.
fn write_part(program: &[u8], start: usize, size: usize, out: &mut [u8], at: usize) -> usize
    requires { (start < 65536) × (size < 65536) }
    ensures { WroteAt at (part program.now start size) out.old out.new result }
{
    let text = tokens::spelling(program, start, start + size);
    write_bytes_at(out, at, text)
}

// A name, by its slot.
pub fn write_name(program: &[u8], tokens: &[u64], slot: usize, out: &mut [u8], at: usize) -> usize
    ensures { WroteAt at (name_text program.now tokens.now slot) out.old out.new result }
{
    let w = stores::words::word_at(tokens, slot);
    write_part(program, tokens::place_of(w), tokens::token_size(w), out, at)
}

// ---- constants, by their word
fn write_number(w: u64, out: &mut [u8], at: usize) -> usize
    ensures { WroteAt at (decimal (to_z w32 (number_in w))) out.old out.new result }
{
    let z = arithmetic::signed_of(code::number_of(w) as u32);
    write_decimal_at(out, at, z as i64)
}

fn write_string(program: &[u8], w: u64, out: &mut [u8], at: usize) -> usize
    ensures { WroteAt at (bytes "\"" ++ part program.now (place_in w) (extra_in w) ++ bytes "\"")
        out.old out.new result }
{
    let start = code::place_of(w) as usize;
    let size = code::extra_of(w);
    let inside = write_bytes_at(out, at, b"\"");
    let end = write_part(program, start, size, out, inside);
    write_bytes_at(out, end, b"\"")
}

fn write_truth(w: u64, out: &mut [u8], at: usize) -> usize
    ensures { WroteAt at (cond (eqb (number_in w) 0) (bytes "false") (bytes "true")) out.old out.new result }
{
    if code::number_of(w) == 0 {
        return write_bytes_at(out, at, b"false");
    }
    write_bytes_at(out, at, b"true")
}

// A constant or a name.
pub fn write_leaf(program: &[u8], tokens: &[u64], w: u64, out: &mut [u8], at: usize) -> usize
    ensures { WroteAt at (leaf_text program.now tokens.now w) out.old out.new result }
{
    match code::tag_of(w) {
        tags::NUMBER => write_number(w, out, at),
        tags::STRING => write_string(program, w, out, at),
        tags::NONE => write_bytes_at(out, at, b"none"),
        tags::TRUTH => write_truth(w, out, at),
        _ => write_name(program, tokens, code::index_of(w), out, at),
    }
}

// ---- what stands between two parts and around them
// The sign of an entry or an operator.
pub fn write_sign(tag: u64, out: &mut [u8], at: usize) -> usize
    ensures { WroteAt at (sign_text tag) out.old out.new result }
{
    match tag {
        tags::ENTRY => write_bytes_at(out, at, b"."),
        tags::CONCATENATE => write_bytes_at(out, at, b"++"),
        tags::ADD => write_bytes_at(out, at, b"+"),
        tags::SUBTRACT => write_bytes_at(out, at, b"-"),
        tags::MULTIPLY => write_bytes_at(out, at, b"*"),
        tags::DIVIDE => write_bytes_at(out, at, b"/"),
        tags::REMAINDER => write_bytes_at(out, at, b"%"),
        tags::SHIFT_RIGHT => write_bytes_at(out, at, b">>"),
        tags::SHIFT_LEFT => write_bytes_at(out, at, b"<<"),
        tags::EQUAL => write_bytes_at(out, at, b"=="),
        tags::UNEQUAL => write_bytes_at(out, at, b"!="),
        tags::GREATER => write_bytes_at(out, at, b">"),
        _ => write_bytes_at(out, at, b"<"),
    }
}

// Whether a part with a tag needs parentheses inside an entry or an operator with another.
pub fn encloses(outer: u64, inner: u64) -> bool
    ensures { result ≡ encloses outer inner }
{
    if tags::FIRST_OPERATOR <= inner {
        return true;
    }
    if outer != tags::ENTRY {
        return false;
    }
    inner == tags::ENTRY
}

// Whether a byte is a letter or a digit.
#[tactic(auto, unfolding(meaning::specs::Byte::is_name_part, meaning::specs::Byte::is_letter, meaning::specs::Byte::is_digit))]
pub fn is_name_part(b: u8) -> bool
    ensures { result ≡ is_name_part b }
{
    b.is_ascii_alphanumeric()
}
