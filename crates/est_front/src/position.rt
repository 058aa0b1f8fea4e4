// The line and the column of a place of a source.

ghost use Rattle.std.specs.Prelude.{◌≡◌, ◌-◌, ◌<◌, ◌^◌, length};
ghost use Rattle.est_front.specs.Positions.{position};

/// The line and the column of a byte place, from 1; a column counts bytes.
#[derive(Clone, Copy)]
pub struct Position {
    pub line: u32,
    pub column: u32,
}

/// The position of a byte place of a source.
pub fn position_of(source: &[u8], place: u32) -> Position
    requires { length source.now < 2 ^ 32 - 1 }
    ensures line { result.line ≡ (position source.now place).line }
    ensures column { result.column ≡ (position source.now place).column }
{
    let mut line = 1;
    let mut column = 1;
    let end = source.len().min(place as usize);
    for byte in &source[..end] {
        if *byte == b'\n' {
            line += 1;
            column = 1;
        } else {
            column += 1;
        }
    }
    Position { line, column }
}
