// The theorems of the engine, each the contract of a function that does nothing: by the definitions that the contracts of the calls are said in. No code stands on them.
#![tactic(auto)]

ghost use Rattle.agreement.specs.Agreement.{DesksAgree, EvidenceHolds, PairsAreOfTheHistory};
ghost use Rattle.agreement.specs.EveryState.{EvidenceIsRelates, ReadyByMissing, RefusalsKeep};
ghost use Rattle.agreement.specs.Frames.{FramesReadBack};
ghost use Rattle.agreement.specs.Growth.{ReceiveGrows};
ghost use Rattle.agreement.specs.Laws.{LawsOfDesks};
ghost use Rattle.agreement.specs.Pairs.{PairsAddUp};
ghost use Rattle.agreement.specs.Precedence.{ChainsWithin, StampsAreDirect};
ghost use Rattle.agreement.specs.Scenario.{Scenario, WrongReadings};
ghost use Rattle.agreement.specs.SharedWords.{WordsOnNames, WordsOnThings};
ghost use Rattle.agreement.specs.Silence.{SilentDesksLeave};
ghost use Rattle.agreement.specs.inner.OneDesk.{OneStateOneDesk};
ghost use Rattle.agreement.specs.inner.RowLaws.{LawsByRows};

/// What the writer writes reads back the same, and what the reader accepts is written back the same, in both editions.
#[tactic(auto, using(crate::proofs::Frames::frames))]
pub fn frames_read_back()
    ensures { FramesReadBack }
{}

/// The laws of every desk that came from New and the calls.
pub fn desks_keep_the_laws()
    ensures { LawsOfDesks }
{}

/// The laws that speak of rows of counts and of marks whose frames pass the reader, at every such desk.
pub fn desks_keep_the_laws_of_rows()
    ensures { LawsByRows }
{}

/// Desks and the plain machine agree over every sequence of steps, and so do the calls, whatever they did within their contracts.
#[tactic(auto, using(crate::proofs::Sequences::desks_agree))]
pub fn desks_agree_with_the_history()
    ensures { DesksAgree }
{}

/// The evidence behind a verdict of a desk holds in the history.
#[tactic(auto, using(crate::proofs::Sequences::evidence_is_true))]
pub fn evidence_holds_in_the_history()
    ensures { EvidenceHolds }
{}

/// Stamps are direct causal vectors, readiness and tracing are as the field defines them, over every sequence of steps.
#[tactic(auto, using(crate::proofs::Sequences::stamps_direct))]
pub fn stamps_are_direct()
    ensures { StampsAreDirect }
{}

/// A set of marks, any at all.
pub trait MarkSet {
    ghost use Rattle.frame.specs.Names.{MarkId};

    ghost holds: { MarkId → Type 0 };
}

/// In an uninterrupted set of marks one precedes another just if a chain of direct predecessors leads there within it.
#[tactic(auto, using(crate::proofs::Sequences::chains_within))]
pub fn chains_lead_through_sets<S: MarkSet>()
    ensures { ChainsWithin S.holds }
{}

/// A silent desk leaves the stamps, over every sequence of steps.
#[tactic(auto, using(crate::proofs::Sequences::silent_leave))]
pub fn silent_desks_leave_the_stamps()
    ensures { SilentDesksLeave }
{}

/// What Receive says of executed marks is their growth.
#[tactic(auto, using(crate::proofs::Growth::receive_grows))]
pub fn receive_says_its_growth()
    ensures { ReceiveGrows }
{}

/// A refusal changes neither the state nor a lent byte.
#[tactic(auto, using(crate::proofs::EveryState::refusals_keep))]
pub fn refusals_change_nothing()
    ensures { RefusalsKeep }
{}

/// A mark is ready just where none is missing.
#[tactic(auto, using(crate::proofs::EveryState::ready_by_missing))]
pub fn ready_where_none_is_missing()
    ensures { ReadyByMissing }
{}

/// The verdict of Evidence is Relate's.
#[tactic(auto, using(crate::proofs::EveryState::evidence_is_relates))]
pub fn evidence_has_the_verdict_of_relate()
    ensures { EvidenceIsRelates }
{}

/// Pairs of marks add up at every desk.
pub fn pairs_add_up()
    ensures { PairsAddUp }
{}

/// Each entry of a desk's tables counts pairs of the history.
pub fn tables_count_pairs_of_the_history()
    ensures { PairsAreOfTheHistory }
{}

/// Five marks of three desks by causal precedence, and that what wrong readings of the definitions claim does not hold of them.
#[tactic(auto, using(crate::proofs::Scenario::scenario, crate::proofs::Scenario::wrong_readings))]
pub fn scenario_is_as_defined()
    ensures defined { Scenario }
    ensures readings { WrongReadings }
{}

/// A thing that is named by a mark, any at all.
pub trait Named {
    ghost use Rattle.frame.specs.Names.{MarkId};

    ghost name_of: { Self → MarkId };
}

/// The words that desk and plain machine share are what they are meant to be, for names and for anything that has one.
#[tactic(auto, using(crate::proofs::SharedWords::words_on_names, crate::proofs::SharedWords::words_on_things))]
pub fn shared_words_are_pinned<Thing: Named>()
    ensures names { WordsOnNames }
    ensures things { WordsOnThings Thing.name_of }
{}

/// A desk is settled by its state, so a refusal leaves the very desk.
#[tactic(auto, using(crate::proofs::Laws::one_state))]
pub fn one_state_is_one_desk()
    ensures { OneStateOneDesk }
{}
