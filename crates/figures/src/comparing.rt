// Figures compared.
ghost use Rattle.std.specs.Prelude.{◌≡◌};
ghost use Rattle.machine.specs.Shapes.{figure_at};
ghost use Rattle.machine.specs.Operate.{same_figure};
ghost use Rattle.figures.specs.Comparing.{same_pair, same_numbers};

use machine::Figure;

fn same_pair(x: i32, y: i32, z: i32, w: i32) -> bool
    ensures { result ≡ same_pair x y z w }
{
    arithmetic::same(x, z) && arithmetic::same(y, w)
}

fn same_numbers(f: Figure, g: Figure) -> bool
    ensures { result ≡ same_numbers f g }
{
    same_pair(f.a, f.b, g.a, g.b) && same_pair(f.c, f.d, g.c, g.d)
}

// No derived equality: texts are compared by their bytes.
fn same_figure<'a>(program: &'a [u8], texts: &'a [u8], f: Figure, g: Figure) -> bool
    ensures { result ≡ same_figure program.now texts.now f g }
{
    f.kind == g.kind && same_numbers(f, g) && texts::same_text(program, texts, f.text, g.text)
}

pub fn same_shape<'a>(program: &'a [u8], texts: &'a [u8], words: &[u64], i: u32, j: u32) -> bool
    ensures { result ≡ same_figure program.now texts.now (figure_at words.now i) (figure_at words.now j) }
{
    let f = stores::shapes::figure_at(words, i);
    let g = stores::shapes::figure_at(words, j);
    same_figure(program, texts, f, g)
}
