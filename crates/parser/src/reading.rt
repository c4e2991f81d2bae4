// What every reader goes over.
ghost use Rattle.parser.specs.internal.Steps.{Tokens};

use typenames::Scope;

// A source, the prepared list of its extra type names, its tokens, and which of its names are in force.
//
// The rows, the place and the levels left are parameters of each reader and no fields. The rows are what a reader changes: were they a field,
// each clause would have to say that all others stay. The place is new at each call, and the levels at each row. Where a place stands
// (`Stands`) is asked of the place and the tokens together, and so is the alternative that begins there, so that no field of `Place` can say
// it: a place with tokens of its own would have to say everywhere that they are the reading's. That the place which a reader answers stands
// (`Arrives`) follows from what it reads. Where it is promised all the same, the check finds by it what the next call asks.
#[derive(Clone, Copy)]
pub(crate) struct Reading<'a> {
    pub(crate) source: &'a [u8],
    pub(crate) prepared: &'a [u8],
    pub(crate) tokens: &'a [u32],
    pub(crate) scope: Scope,
    ghost tokens_good: { Tokens tokens.now },
}
