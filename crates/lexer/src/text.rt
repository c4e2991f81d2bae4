// The bytes of a token, as the token table says where they stand.
ghost use Rattle.std.specs.Prelude.{◌≡◌};
ghost use Rattle.lexer.specs.internal.TokenRows.{item_at};

use crate::table;

// The bytes of the token in a row: those of them that the source has, whatever the table says, and none past the whole rows.
pub fn text_at<'a>(source: &'a [u8], tokens: &[u32], at: usize) -> &'a [u8]
    ensures { result.now ≡ (item_at source.now tokens.now at).text }
{
    let start = (table::start_at(tokens, at) as usize).min(source.len());
    let len = (table::size_at(tokens, at) as usize).min(source.len() - start);
    &source[start..start + len]
}
