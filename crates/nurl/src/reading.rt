// From bytes to rows: document 01's refusals in their order, or acceptance, and what both tables hold afterwards.
ghost use Rattle.std.specs.Prelude.{◌≡◌, ◌+◌, ◌≤◌, length, replicate};
ghost use Rattle.lexer.specs.Editions.{edition17};
ghost use Rattle.lexer.specs.executable.Scans.{cleanly, scan};
ghost use Rattle.lexer.specs.Table.{source_limit};
ghost use Rattle.lexer.specs.internal.TokenRows.{rows_of};
ghost use Rattle.typenames.specs.NameList.{name_limit};
ghost use Rattle.typenames.specs.internal.Prepared.{slots};
ghost use Rattle.grammar.specs.Languages.{language17};
ghost use Rattle.answer.specs.executable.Answers.{answer17, answer_values};
ghost use Rattle.answer.specs.Results.{level_limit, values, Result};
ghost use Rattle.answer.specs.Demands.{Demands};
ghost use Rattle.nurl.specs.internal.Results.{tree_result, answered};

use answer::Answer;
use lexer::{Edition, Reason, Refusal};
use parser::Place;
use typenames::{PREPARED_LIMIT, Scope};

// The most levels that rows may be nested: "where that row would be at level 201" it is too deep.
const LEVEL_LIMIT: usize = 200;

// Room for the longest list of names, prepared. No slot is set yet: a slot that is set for no name would cost time at every question.
fn names_buffer() -> [u8; PREPARED_LIMIT]
    ensures size { slots + name_limit ≡ length result }
    ensures unset { result ≡ replicate (slots + name_limit) 0 }
{
    [0; PREPARED_LIMIT]
}

// Refusals 6 to 8, or the place after the last token and the last row, for the tokens of a source in a table that holds nothing else.
fn read_tokens(
    source: &[u8],
    names: &[u8],
    tokens: &[u32],
    rows: &mut [u32],
) -> Result<Place, Refusal>
    requires source_len_bound { length source.now ≤ source_limit }
    requires names_len_bound { length names.now ≤ name_limit }
    requires source_value { scan edition17 source.now ≡ cleanly (rows_of tokens.now) }
    ensures answer { answered result
        ≡ (tree_result source.now names.now tokens.now rows.old).answer }
    ensures table { rows.new
        ≡ (tree_result source.now names.now tokens.now rows.old).rows }
{
    let mut buffer = names_buffer();
    let size = typenames::SLOTS + names.len();
    typenames::prepare(source, names, tokens, &mut buffer[..size]);
    let reached = parser::read_program(
        source,
        &buffer[..size],
        tokens,
        rows,
        Scope::Program,
        LEVEL_LIMIT,
    )?;
    if tree::room(rows) < reached.row {
        tree::clear(rows);
        return Err(Refusal {
            reason: Reason::FewTreeRows,
            place: reached.row,
        });
    }
    Ok(reached)
}

// The refusals in their order, or the place after the last token and the last row.
fn read_source(
    source: &[u8],
    names: &[u8],
    tokens: &mut [u32],
    rows: &mut [u32],
) -> Result<Place, Refusal>
    ensures { ◌≡◌ {A = Result} (record { answer = answered result; tokens = tokens.new; rows = rows.new })
        (answer17 source.now names.now tokens.old rows.old) }
{
    if lexer::SOURCE_LIMIT < source.len() {
        return Err(Refusal {
            reason: Reason::LongSource,
            place: 0,
        });
    }
    typenames::check_names(names)?;
    let count = lexer::tokenize(Edition::V17, source, tokens)?;
    let end = count * lexer::WIDTH;
    read_tokens(source, names, &tokens[..end], rows)
}

// Reads a source with a list of extra type names into two lent tables. Any bytes, any list and any tables get an answer. What is promised
// is said twice: by the demands, which are relations, and by one computed answer. They are the same (`answer_meets`, `answer_only`).
pub fn read(source: &[u8], names: &[u8], tokens: &mut [u32], rows: &mut [u32]) -> Answer
    ensures answer { ◌≡◌ {A = Result} (record { answer = result; tokens = tokens.new; rows = rows.new })
        (answer17 source.now names.now tokens.old rows.old) }
    ensures demands { Demands language17 source.now names.now level_limit
        tokens.old rows.old
        (record { answer = result; tokens = tokens.new; rows = rows.new }) }
    ensures values { values result
        ≡ answer_values source.now names.now tokens.old rows.old }
{
    match read_source(source, names, tokens, rows) {
        Ok(place) => Answer::Accepted(place.token, place.row),
        Err(refusal) => Answer::from(refusal),
    }
}
