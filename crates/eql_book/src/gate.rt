//! The pipes of a book, each with what it has seen.
ghost use Rattle.std.specs.Prelude.{◌≡◌, ◌∷◌, [], IfOk};
ghost use Rattle.std.specs.Prelude.{option_to_list};
ghost use Rattle.std.specs.List.{AllZip};
ghost use Rattle.eql_laws.specs.Resuming.{let_through, state_from, emitted_from};
ghost use Rattle.eql_book.specs.Books.{FitsPipe};
ghost use Rattle.eql_book.specs.Gates.{pipe_of, seen_by, pipes_of, seen_of, Saw};

use crate::head::Head;
use crate::tail::Tail;
use eql_values::{Numbered, Pipe, PipeState};
use std::alloc::{AllocError, Global};

/// A pipe with what it has seen.
#[derive(Drop)]
pub(crate) enum Gate {
    /// It lets the first matches through.
    Head(Head),
    /// It keeps the last matches.
    Tail(Tail),
}

impl Gate {
    /// The pipe with this state, which is of its kind and within its count.
    pub(crate) fn new(alloc: Global, pipe: Pipe, state: PipeState) -> Result<Gate, AllocError>
        requires { FitsPipe pipe state }
        ensures pipe { IfOk result (λ gate. pipe_of gate ≡ pipe) }
        ensures seen { IfOk result (λ gate. seen_by gate ≡ state) }
    {
        match (pipe, state) {
            (Pipe::Head(count), PipeState::Head { passed }) => {
                Ok(Gate::Head(Head { count, passed }))
            }
            (Pipe::Tail(count), PipeState::Tail { kept }) => {
                let tail = Tail::new(alloc, count, kept)?;
                Ok(Gate::Tail(tail))
            }
            _ => unreachable!(),
        }
    }

    /// What the pipe has seen.
    pub(crate) fn state(&self, alloc: Global) -> Result<PipeState, AllocError>
        ensures { IfOk result (λ state. state ≡ seen_by self.now) }
    {
        match self {
            Gate::Head(head) => Ok(PipeState::Head {
                passed: head.passed,
            }),
            Gate::Tail(tail) => {
                let kept = tail.copied(alloc)?;
                Ok(PipeState::Tail { kept })
            }
        }
    }

    /// Gives a match to the pipe, which lets it through or not.
    fn pass(&mut self, found: Numbered) -> Result<Option<Numbered>, AllocError>
        ensures pipe { pipe_of self.new ≡ pipe_of self.old }
        ensures seen { IfOk result (λ _.
            seen_by self.new ≡ state_from (pipe_of self.old) (seen_by self.old) (found ∷ [])) }
        ensures through { IfOk result (λ out. option_to_list out
            ≡ let_through (pipe_of self.old) (seen_by self.old) (found ∷ [])) }
    {
        match self {
            Gate::Head(head) => {
                if head.lets_through() {
                    return Ok(Some(found));
                }
                Ok(None)
            }
            Gate::Tail(tail) => {
                tail.keep(found)?;
                Ok(None)
            }
        }
    }
}

/// Gives a match to the first pipe, and each pipe what the one before lets through. Returns it
/// where all let it through.
pub(crate) fn admit(gates: &mut [Gate], found: Numbered) -> Result<Option<Numbered>, AllocError>
    ensures pipes { pipes_of gates.new ≡ pipes_of gates.old }
    ensures saw { IfOk result (λ _. Saw gates.old (found ∷ []) gates.new) }
    ensures through { IfOk result (λ out. option_to_list out
        ≡ emitted_from (pipes_of gates.old) (seen_of gates.old) (found ∷ [])) }
{
    let mut passing = found;
    for gate in gates.iter_mut() {
        match gate.pass(passing)? {
            Some(through) => passing = through,
            None => return Ok(None),
        }
    }
    Ok(Some(passing))
}

/// The pipes with these states, each of its pipe's kind and within its count.
pub(crate) fn gates_of(
    alloc: Global,
    pipes: &Vec<Pipe>,
    states: Vec<PipeState>,
) -> Result<Vec<Gate>, AllocError>
    requires { AllZip FitsPipe pipes.now.items states.items }
    ensures pipes { IfOk result (λ gates. pipes_of gates.items ≡ pipes.now.items) }
    ensures seen { IfOk result (λ gates. seen_of gates.items ≡ states.items) }
{
    let mut gates = Vec::new(alloc);
    for state in states {
        let pipe = pipes[gates.len()];
        gates.push(Gate::new(alloc, pipe, state)?)?;
    }
    Ok(gates)
}

/// What each pipe has seen.
pub(crate) fn states_of(alloc: Global, gates: &Vec<Gate>) -> Result<Vec<PipeState>, AllocError>
    ensures { IfOk result (λ states. states.items ≡ seen_of gates.now.items) }
{
    let mut states = Vec::new(alloc);
    for gate in gates {
        states.push(gate.state(alloc)?)?;
    }
    Ok(states)
}
