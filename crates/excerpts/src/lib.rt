// The line of a place, and a mark under the place.
#![tactic(auto)]

ghost use Rattle.std.specs.Prelude.{◌≤◌, ◌≡◌, length, drop};
ghost use Rattle.meaning.specs.Basics.{span};
ghost use Rattle.writing.specs.Placed.{WroteAt};
ghost use Rattle.excerpts.specs.Excerpts.{glyph_of, glyphs_of, in_line, optional, shown_line, mark_line, Around, excerpt_of};

// A byte as it is shown, or what stands under it in the mark's line.
fn glyph(b: u8, marking: bool) -> u8
    ensures { result ≡ glyph_of marking b }
{
    if b == b'\t' {
        return b'\t';
    }
    if marking {
        return b' ';
    }
    if b < 32 {
        return b'?';
    }
    if 126 < b {
        return b'?';
    }
    b
}

fn write_glyphs_at(out: &mut [u8], at: usize, bytes: &[u8], marking: bool) -> usize
    ensures { WroteAt at (glyphs_of marking bytes.now) out.old out.new result }
{
    let mut next = at;
    for b in bytes {
        let one = [glyph(*b, marking)];
        next = writing::write_bytes_at(out, next, &one);
    }
    next
}

fn write_if_at(out: &mut [u8], at: usize, bytes: &[u8], wanted: bool) -> usize
    ensures { WroteAt at (optional wanted bytes.now) out.old out.new result }
{
    if wanted {
        return writing::write_bytes_at(out, at, bytes);
    }
    at
}

// A part of a line; dots stand for what is left out of it.
fn write_shown_at(out: &mut [u8], at: usize, part: &[u8], shortened: bool, continued: bool) -> usize
    ensures { WroteAt at (shown_line shortened continued part.now) out.old out.new result }
{
    let a = write_if_at(out, at, b"...", shortened);
    let b = write_glyphs_at(out, a, part, false);
    let c = write_if_at(out, b, b"...", continued);
    writing::write_bytes_at(out, c, b"\n")
}

// The line under it, with the mark behind what stands before the place.
fn write_mark_at(out: &mut [u8], at: usize, part: &[u8], shortened: bool) -> usize
    ensures { WroteAt at (mark_line shortened part.now) out.old out.new result }
{
    let a = write_if_at(out, at, b"   ", shortened);
    let b = write_glyphs_at(out, a, part, true);
    writing::write_bytes_at(out, b, b"^\n")
}

// How many bytes the line has from the place on.
fn line_rest(program: &[u8], place: usize) -> usize
    requires { place ≤ length program.now }
    ensures { result ≡ span in_line (drop place program.now) }
{
    for i in place..program.len() {
        if program[i] == b'\n' {
            return i - place;
        }
    }
    program.len() - place
}

// At most 60 bytes of the line before the place are shown, and at most 20 from the place on.
pub fn write_excerpt_at(
    out: &mut [u8],
    at: usize,
    program: &[u8],
    place: usize,
    behind: usize,
) -> usize
    requires { Around program.now place behind }
    ensures { WroteAt at (excerpt_of program.now place behind) out.old out.new result }
{
    let rest = line_rest(program, place);
    let start = place - behind.min(60);
    let end = place + rest.min(20);
    let next = write_shown_at(out, at, &program[start..end], 60 < behind, 20 < rest);
    write_mark_at(out, next, &program[start..place], 60 < behind)
}
