// Procedures, each at its def among the tokens.
ghost use Rattle.std.specs.Prelude.{◌≡◌, ◌++◌, ◌<◌, length, take, drop};
ghost use Rattle.meaning.specs.Basics.{bytes};
ghost use Rattle.canonical.specs.Text.{comma_separated};
ghost use Rattle.machine.specs.Opcodes.{table_place, start_in, parameters_in};
ghost use Rattle.writing.specs.Placed.{WroteAt};
ghost use Rattle.phrases.specs.Raw.{source, word_at, spelling};
ghost use Rattle.formatter.specs.Raw.{parameter_names, procedure_by, procedure_text, enough_fuel, raw_text};

use crate::statement::write_statements;
use spellings::{write_name, write_names};
use stores::words::word_at;
use tokens::kind;
use writing::write_bytes_at;

// More than there are words of code in a program, so enough for every expression and statement.
const ENOUGH_FUEL: usize = 8193;

// ---- parameters
// So many words of the code from a place on, as far as it reaches.
fn slots_at(code: &[u64], start: usize, count: usize) -> &[u64]
    requires { (start < 65536) × (count < 65536) }
    ensures { result.now ≡ take count (drop start code.now) }
{
    let end = (start + count).min(code.len());
    let first = start.min(end);
    &code[first..end]
}

// ---- procedures
// What stands before the body of the procedure of a name's slot, whose word in the table is d.
fn write_head(
    program: &[u8],
    tokens: &[u64],
    code: &[u64],
    slot: usize,
    d: u64,
    out: &mut [u8],
    at: usize,
) -> usize
    ensures { WroteAt at (bytes "def " ++ spelling (source program.now tokens.now code.now) slot ++ bytes "("
        ++ comma_separated (parameter_names (source program.now tokens.now code.now) (start_in d) (parameters_in d)) ++ bytes "){\n")
        out.old out.new result }
{
    let slots = slots_at(code, code::start_of(d), code::parameters_of(d));
    let name = write_bytes_at(out, at, b"def ");
    let open = write_name(program, tokens, slot, out, name);
    let inside = write_bytes_at(out, open, b"(");
    let end = write_names(program, tokens, slots, out, inside);
    write_bytes_at(out, end, b"){\n")
}

// The procedure of a name's slot.
fn write_procedure(
    program: &[u8],
    tokens: &[u64],
    code: &[u64],
    slot: usize,
    out: &mut [u8],
    at: usize,
) -> usize
    ensures { WroteAt at (procedure_by enough_fuel (source program.now tokens.now code.now) slot
        (word_at (source program.now tokens.now code.now) (table_place slot))) out.old out.new result }
{
    let d = word_at(code, code::table_place(slot));
    let a = code::start_of(d) + code::parameters_of(d);
    let n = code::body_of(d);
    let inside = write_head(program, tokens, code, slot, d, out, at);
    let end = write_statements(
        program,
        tokens,
        code,
        ENOUGH_FUEL,
        a,
        a + n,
        n + 1,
        out,
        inside,
    );
    write_bytes_at(out, end, b"}\n")
}

// What token i begins: a procedure, if it is a def, or nothing.
fn write_begun(
    program: &[u8],
    tokens: &[u64],
    code: &[u64],
    i: usize,
    out: &mut [u8],
    at: usize,
) -> usize
    requires { i < length tokens.now }
    ensures { WroteAt at (procedure_text enough_fuel (source program.now tokens.now code.now) i)
        out.old out.new result }
{
    if tokens::kind_of(word_at(tokens, i)) != kind::DEF {
        return at;
    }
    let slot = expressions::token::home_at(tokens, i + 1) as usize;
    write_procedure(program, tokens, code, slot, out, at)
}

// Writes the text of a program from its code, from the front of `out` on. Returns the text's whole length, also where it does not fit.
pub fn write_text(program: &[u8], tokens: &[u64], code: &[u64], out: &mut [u8]) -> usize
    ensures { WroteAt 0 (raw_text (source program.now tokens.now code.now)) out.old out.new result }
{
    let mut at = 0;
    for i in 0..tokens.len() {
        at = write_begun(program, tokens, code, i, out, at);
    }
    at
}
