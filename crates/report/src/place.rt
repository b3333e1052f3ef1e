// The line and the column of a place.
ghost use Rattle.std.specs.Prelude.{◌≤◌, ◌≡◌, length};
ghost use Rattle.report.specs.Positions.{Small, after_byte, position_of};

// Both count from 1, and a column is a byte.
#[derive(Clone, Copy)]
pub struct Position {
    pub line: usize,
    pub column: usize,
}

// Where the byte behind one at p stands.
fn after(p: Position, b: u8) -> Position
    requires { Small p }
    ensures { result ≡ after_byte p b }
{
    if b == b'\n' {
        return Position {
            line: p.line + 1,
            column: 1,
        };
    }
    Position {
        line: p.line,
        column: p.column + 1,
    }
}

pub fn locate(program: &[u8], place: usize) -> Position
    requires { place ≤ length program.now }
    ensures { result ≡ position_of program.now place }
{
    let mut p = Position { line: 1, column: 1 };
    for b in &program[..place] {
        p = after(p, *b);
    }
    p
}
