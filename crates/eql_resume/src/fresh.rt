//! What a book keeps before any match.
ghost use Rattle.std.specs.Prelude.{◌≡◌, IfOk, map};
ghost use Rattle.eql_book.specs.Laws.{fresh_cut as fresh_book_cut, fresh_state};

use eql_values::{BookCut, Memory, Numbereds, Pipe, PipeState, PipeStates, Pipes};
use std::alloc::Global;

// The states of pipes before any match.
fn fresh_states(alloc: Global, pipes: &[Pipe]) -> Result<PipeStates, Memory>
    ensures { IfOk result (λ states. states ≡ map fresh_state pipes.now) }
{
    let mut states = Vec::new(alloc);
    for pipe in pipes {
        states.push(match pipe {
            Pipe::Head(_) => PipeState::Head { passed: 0 },
            Pipe::Tail(_) => PipeState::Tail {
                kept: Numbereds::of(Vec::new(alloc)),
            },
        })?;
    }
    Ok(PipeStates::of(states))
}

/// What a book with these pipes keeps before any match.
pub(crate) fn fresh_book(alloc: Global, pipes: &Pipes) -> Result<BookCut, Memory>
    ensures { IfOk result (λ book. book ≡ fresh_book_cut pipes.now) }
{
    Ok(BookCut {
        found: 0,
        listed: 0,
        pipes: fresh_states(alloc, pipes.items())?,
    })
}
