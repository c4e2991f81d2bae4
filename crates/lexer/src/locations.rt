// Lines and columns: where the bytes of a source stand.
ghost use Rattle.std.specs.Prelude.{◌≡◌};
ghost use Rattle.lexer.specs.Locations.{location_of};

use crate::Location;

// The byte that ends a line.
const NEWLINE: u8 = 10;

// Where the byte at an offset stands, or the byte past the end where the source is shorter.
pub fn location_at(source: &[u8], offset: usize) -> Location
    ensures { result ≡ location_of source.now offset }
{
    let mut line = 1;
    let mut column = 1;
    for b in &source[..offset.min(source.len())] {
        column += 1;
        if *b == NEWLINE {
            line += 1;
            column = 1;
        }
    }
    Location { line, column }
}
