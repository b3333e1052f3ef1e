// What is shown of an answer.
ghost use Rattle.std.specs.Prelude.{◌≤◌, length};
ghost use Rattle.answers.specs.Answers.{meant};
ghost use Rattle.sheet.specs.Shown.{shown_text, Front};

use crate::failure::write_error;
use answers::Answer;

// The text of an answer, in the front of `out`: a picture or a text stands there already, and the line of an error is put there. Says how many bytes it has.
pub fn put_answer(answer: Answer, out: &mut [u8]) -> usize
    requires { 64 ≤ length out.old }
    ensures { Front (shown_text (meant answer) out.old) out.new result }
{
    match answer {
        Answer::Picture(n, _) => (n as usize).min(out.len()),
        Answer::Number(number, place, _, _) => write_error(out, number, place),
    }
}
