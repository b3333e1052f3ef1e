// The line of a shape.
ghost use Rattle.std.specs.Prelude.{◌≡◌, ◌<◌, length};
ghost use Rattle.meaning.specs.Picture.{line_of};
ghost use Rattle.machine.specs.Act.{raw};
ghost use Rattle.writing.specs.Placed.{WroteAt};
ghost use Rattle.scene.specs.Scene.{figure_for};

// What the line of a shape shows.
fn shape_of(f: machine::Figure) -> picture::Shape
    requires { f.kind < 256 }
    ensures { result ≡ record { kind = f.kind; a = f.a; b = f.b; c = f.c; d = f.d } }
{
    picture::Shape {
        kind: f.kind as u8,
        a: f.a,
        b: f.b,
        c: f.c,
        d: f.d,
    }
}

// How many bytes the line of a shape has.
pub fn line_length_of<'a>(program: &'a [u8], texts: &'a [u8], words: &[u64], i: u32) -> usize
    ensures { result ≡ length (line_of (figure_for program.now (raw texts.now words.now) i)) }
{
    let f = stores::shapes::figure_at(words, i);
    let text = texts::text_of(program, texts, f.text);
    picture::line_length(shape_of(f), text)
}

// The line of a shape, from a place on; the place behind it.
pub fn write_line_of<'a>(
    program: &'a [u8],
    texts: &'a [u8],
    words: &[u64],
    i: u32,
    out: &mut [u8],
    at: usize,
) -> usize
    ensures { WroteAt at (line_of (figure_for program.now (raw texts.now words.now) i))
        out.old out.new result }
{
    let f = stores::shapes::figure_at(words, i);
    let text = texts::text_of(program, texts, f.text);
    picture::write_line_at(out, at, shape_of(f), text)
}
