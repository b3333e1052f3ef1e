// The picture that a completed run comes to.
#![tactic(auto)]

ghost use Rattle.answers.specs.Answers.{meant};
ghost use Rattle.rendering.specs.Rendering.{Drawn, Scene};

use answers::Answer;

// The picture of the scene that a run left, or 80 with the length that it needs.
pub fn draw_scene<'a>(
    program: &'a [u8],
    width: i32,
    height: i32,
    grants: &[u64; 5],
    words: &mut [u64],
    texts: &'a [u8],
    out: &mut [u8],
) -> Answer
    requires { Scene program.now width height grants.now words.old texts.now }
    ensures { Drawn program.now width height grants.now out.old (meant result) out.new }
{
    let steps = stores::words::word_at(words, 0);
    let length = showing::picture_length(words, width, height);
    if out.len() < length {
        return Answer::Number(80, 0, steps, length as u64);
    }
    showing::write_picture(program, texts, words, grants, width, height, out);
    Answer::Picture(length as u64, steps)
}
