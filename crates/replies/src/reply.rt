// The text that the desk program prints for a script. Both tables are made here, so that their sizes are part of what is proved.
ghost use Rattle.std.specs.Prelude.{◌≡◌, length};
ghost use Rattle.nurl.specs.Texts.{overwritten};
ghost use Rattle.replies.specs.Desk.{desk_result, desk_text};

use answer::Answer;
use lexer::{Reason, Refusal};

// The most bytes that a script may have; one more and it is refused 1.
const SCRIPT_LIMIT: usize = 65535;

// Room for the longest text: 20 bytes for each row, and 64 for the first line (`reply_fits`).
pub const TEXT_ROOM: usize = 80064;

// 5,000 token rows.
const TOKENS: usize = 5000 * lexer::WIDTH;

// 4,000 tree rows.
const TREE: usize = 4000 * tree::WIDTH;

// The answer for a script.
#[tactic(auto, unfolding(crate::specs::Desk::desk_result))]
fn answer(script: &[u8], tokens: &mut [u32], rows: &mut [u32]) -> Answer
    ensures answer { result ≡ (desk_result script.now tokens.old rows.old).answer }
    ensures tree { rows.new ≡ (desk_result script.now tokens.old rows.old).rows }
{
    if SCRIPT_LIMIT < script.len() {
        return Refusal::new(Reason::LongSource, 0).into();
    }
    nurl::read(script, b"", tokens, rows)
}

// Writes what is to be printed for a script, and answers how many bytes that is.
pub fn write_reply(script: &[u8], output: &mut [u8; TEXT_ROOM]) -> usize
    ensures size { result ≡ length (desk_text script.now) }
    ensures output { output.new ≡ overwritten (desk_text script.now) output.old }
{
    let mut tokens = [0; TOKENS];
    let mut rows = [0; TREE];
    let found = answer(script, &mut tokens, &mut rows);
    let text = nurl::write_answer(found, &rows, output);
    nurl::bytes_written(text, TEXT_ROOM)
}
