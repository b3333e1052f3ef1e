// What is printed for an input.
ghost use Rattle.std.specs.Prelude.{◌≤◌, ◌≡◌, length};
ghost use Rattle.sheet.specs.Shown.{Front};
ghost use Rattle.console.specs.Prints.{Prints};
ghost use Rattle.imgdraw.specs.Sizes.{input_bytes, out_bytes};
ghost use Rattle.imgdraw.specs.Printed.{call_of, drawn_text, printed_of, printed};

use crate::size::{CODE, GRANTS, TEXTS, TOKENS, WORDS};

// Draws with the counts that every drawing is granted, and work slices that are long enough for them.
fn draw_program(program: &[u8], width: i32, height: i32, out: &mut [u8]) -> usize
    requires { 64 ≤ length out.old }
    ensures { Front (drawn_text (call_of program.now width height out.old)) out.new result }
{
    let grants = GRANTS;
    let mut tokens = [0u64; TOKENS];
    let mut code = [0u64; CODE];
    let mut words = [0u64; WORDS];
    let mut texts = [0u8; TEXTS];
    let answer = drawing::draw(
        program,
        width,
        height,
        &grants,
        &mut tokens,
        &mut code,
        &mut words,
        &mut texts,
        out,
    );
    sheet::put_answer(answer, out)
}

// Puts the picture or the line of an error into the front of `out`, and says how many bytes that is.
fn draw_sheet(input: &[u8], out: &mut [u8]) -> usize
    requires { 64 ≤ length out.old }
    ensures { Front (printed_of input.now out.old) out.new result }
{
    let s = sheet::read_sheet(input);
    match s {
        None => sheet::write_error(out, 72, 0),
        Some(sheet) => draw_program(&input[sheet.line_length..], sheet.width, sheet.height, out),
    }
}

// The text of every input of which n bytes were read, in the front of `out`. Says how many bytes it has.
pub fn draw_read(bytes: &[u8], n: usize, out: &mut [u8]) -> usize
    requires { (length bytes.now ≡ input_bytes) × (n ≤ input_bytes) × (length out.old ≡ out_bytes) }
    ensures { Prints printed bytes.now n out.new result }
{
    draw_sheet(&bytes[..n], out)
}
