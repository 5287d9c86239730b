//! Laws of one step of the machine of a key, and of the look-back in the words of the rules.
ghost use Rattle.eql_laws.specs.Steps.{StepMovesSlots, StartIsOpening, StepMakesChain, ChainReads};

/// One more event takes the pending sequences on as slots are moved.
#[tactic(auto, using(crate::proofs::Stepping::holder_step))]
pub fn slot_step()
    ensures { StepMovesSlots }
{}

/// Before any event the pending sequences are those of the opening.
#[tactic(auto, using(crate::proofs::Stepping::holder_start))]
pub fn slot_start()
    ensures { StartIsOpening }
{}

/// The chain that an event makes is what comes to its stage.
#[tactic(auto, using(crate::proofs::Stepping::chain_step))]
pub fn chain_step()
    ensures { StepMakesChain }
{}

/// A chain of a later stage is there exactly when the rules say so in words.
pub fn chain_reads()
    ensures { ChainReads }
{}
