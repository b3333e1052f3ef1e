// Names with commas between.
ghost use Rattle.std.specs.Prelude.{cond, [], ◌++◌, map};
ghost use Rattle.meaning.specs.Basics.{bytes};
ghost use Rattle.canonical.specs.Text.{comma_separated};
ghost use Rattle.writing.specs.Placed.{WroteAt};
ghost use Rattle.spellings.specs.Spelling.{name_text};

use crate::leaf::write_name;
use writing::write_bytes_at;

// A name by its slot, behind a comma unless it is the first.
fn write_listed(
    program: &[u8],
    tokens: &[u64],
    slot: usize,
    follows: bool,
    out: &mut [u8],
    at: usize,
) -> usize
    ensures { WroteAt at (cond follows (bytes ",") [] ++ name_text program.now tokens.now slot)
        out.old out.new result }
{
    if follows {
        let next = write_bytes_at(out, at, b",");
        return write_name(program, tokens, slot, out, next);
    }
    write_name(program, tokens, slot, out, at)
}

// The names of slots, with a comma between each two.
pub fn write_names(
    program: &[u8],
    tokens: &[u64],
    slots: &[u64],
    out: &mut [u8],
    at: usize,
) -> usize
    ensures { WroteAt at (comma_separated (map (name_text program.now tokens.now) slots.now))
        out.old out.new result }
{
    let mut next = at;
    for (i, slot) in slots.iter().enumerate() {
        next = write_listed(program, tokens, *slot as usize, 0 < i, out, next);
    }
    next
}
