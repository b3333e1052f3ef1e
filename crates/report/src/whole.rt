// All that is said about a program that was checked.
ghost use Rattle.answers.specs.Answers.{meant};
ghost use Rattle.writing.specs.Placed.{WroteAt};
ghost use Rattle.excerpts.specs.Excerpts.{Around, optional, excerpt_of};
ghost use Rattle.report.specs.Reports.{Said, Failed, has_line};

use crate::heading::write_heading_at;
use crate::place::locate;
use crate::sentence::write_sentence_at;
use answers::Answer;
use excerpts::write_excerpt_at;

// The line of the place, unless the number is about the whole program.
fn write_line_at(
    out: &mut [u8],
    at: usize,
    program: &[u8],
    number: u64,
    place: usize,
    behind: usize,
) -> usize
    requires { Around program.now place behind }
    ensures { WroteAt at (optional (has_line number) (excerpt_of program.now place behind)) out.old out.new result }
{
    if number == 73 {
        return at;
    }
    write_excerpt_at(out, at, program, place, behind)
}

fn write_failure(out: &mut [u8], program: &[u8], number: u64, place: u64) -> usize
    ensures { Failed program.now number place out.old out.new result }
{
    let at = place as usize;
    let spot = at.min(program.len());
    let p = locate(program, spot);
    let column = p.column;
    let a = write_heading_at(out, 0, number, place, p);
    let b = write_line_at(out, a, program, number, spot, column - 1);
    write_sentence_at(out, b, number, at == program.len())
}

// Writes what an answer of checking says about a program, and how many bytes that is.
pub fn write_report(out: &mut [u8], program: &[u8], r: Answer) -> usize
    ensures { Said program.now (meant r) out.old out.new result }
{
    match r {
        Answer::Picture(_, _) => writing::write_bytes(out, b"well formed\n"),
        Answer::Number(number, place, _, _) => write_failure(out, program, number, place),
    }
}
