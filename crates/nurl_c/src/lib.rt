// The C interface of the library: `nurl_read` in include/nurl.h. It calls `nurl::nurl_read` and promises the same.
#![tactic(auto)]

ghost use Rattle.std.specs.Prelude.{◌≡◌};
ghost use Rattle.answer.specs.executable.Answers.{answer17, answer_values};

// Reads as `nurl::read` does; the answer becomes three numbers, which include/nurl.h explains.
#[unsafe(no_mangle)]
pub extern "C" fn nurl_read(
    source: &[u8],
    names: &[u8],
    tokens: &mut [u32],
    rows: &mut [u32],
    answer: &mut [u32; 3],
)
    ensures answer { answer.new
        ≡ answer_values source.now names.now tokens.old rows.old }
    ensures tokens { tokens.new
        ≡ (answer17 source.now names.now tokens.old rows.old).tokens }
    ensures rows { rows.new
        ≡ (answer17 source.now names.now tokens.old rows.old).rows }
{
    nurl::nurl_read(source, names, tokens, rows, answer);
}
