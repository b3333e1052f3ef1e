// Token words, each read as 0 behind the last.
ghost use Rattle.std.specs.Prelude.{◌≡◌};
ghost use Rattle.expressions.specs.Words.{kind_at, place_at, payload_at, home_at, procedure_at, callee_at, part_at, signed_at, operator_tag};

use crate::kinds;
use machine::tags;
pub use slices::word_at;

pub fn kind_at(tokens: &[u64], i: usize) -> u64
    ensures { result ≡ kind_at tokens.now i }
{
    word_at(tokens, i) % 256
}

pub fn place_at(tokens: &[u64], i: usize) -> u64
    ensures { result ≡ place_at tokens.now i }
{
    word_at(tokens, i) / 256 % 65536
}

// Of digits their value.
pub fn payload_at(tokens: &[u64], i: usize) -> u64
    ensures { result ≡ payload_at tokens.now i }
{
    word_at(tokens, i) / 16777216
}

// The first token that is spelled like token i.
pub fn home_at(tokens: &[u64], i: usize) -> u64
    ensures { result ≡ home_at tokens.now i }
{
    payload_at(tokens, i) / 65536 % 65536
}

// The number of the procedure that token i names.
pub fn procedure_at(tokens: &[u64], i: usize) -> u64
    ensures { result ≡ procedure_at tokens.now i }
{
    payload_at(tokens, i) / 4294967296
}

// The same with the name's home, as a call has it.
pub fn callee_at(tokens: &[u64], i: usize) -> u64
    ensures { result ≡ callee_at tokens.now i }
{
    let x = payload_at(tokens, i);
    x / 4294967296 + 16 * (x / 65536 % 65536)
}

// Whether digits stand directly behind the minus that is token i.
pub fn is_signed(tokens: &[u64], i: usize) -> bool
    requires { kind_at tokens.now i ≡ 45 }
    ensures { result ≡ signed_at tokens.now i }
{
    kind_at(tokens, i + 1) == kinds::DIGITS && place_at(tokens, i + 1) == place_at(tokens, i) + 1
}

// Where the text of the string that token i is stands in the program, and how long it is, of the first token with that string.
pub fn part_at(tokens: &[u64], i: usize) -> u64
    ensures { result ≡ part_at tokens.now i }
{
    let home = home_at(tokens, i) as usize;
    let size = payload_at(tokens, i) % 65536;
    if size < 2 {
        return place_at(tokens, home) + 1;
    }
    place_at(tokens, home) + 1 + 65536 * (size - 2)
}

// The tag of an operator; none for any other kind of token.
pub fn operator_tag(kind: u64) -> Option<u64>
    ensures { result ≡ operator_tag kind }
{
    let tag = match kind {
        kinds::TWO_PLUS => tags::CONCATENATE,
        kinds::PLUS => tags::ADD,
        kinds::MINUS => tags::SUBTRACT,
        kinds::TIMES => tags::MULTIPLY,
        kinds::OVER => tags::DIVIDE,
        kinds::PERCENT => tags::REMAINDER,
        kinds::SHIFT_RIGHT => tags::SHIFT_RIGHT,
        kinds::SHIFT_LEFT => tags::SHIFT_LEFT,
        kinds::EQUAL => tags::EQUAL,
        kinds::UNEQUAL => tags::UNEQUAL,
        kinds::GREATER => tags::GREATER,
        kinds::LESS => tags::LESS,
        _ => return None,
    };
    Some(tag)
}
