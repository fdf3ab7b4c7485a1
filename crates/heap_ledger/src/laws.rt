//! What the definitions of this crate give, for a heap that commits calls and knows the state before them.

ghost use Rattle.heap_ledger.specs.Laws.{AnswersMayBeCommitted, CallsAreDueUnlessBehind, CallsMadeAreFew, CommitsCountOneCall, CommitsMakeOneCall, CommittedAnswersAreSteps, CommittedGrowsAreSteps, CommittedReapsAreSteps, FirstCallsAreMade, GrowsMayBeCommitted, NextCallsKeepTheirLimits, ReapsMayBeCommitted, WhereNoneIsNextAllAreMade};

/// The next call of a thread may be committed with an answer that is allowed and tidy in the state before it.
pub fn answers_may_be_committed()
    ensures { AnswersMayBeCommitted }
{}

/// It may be committed with a slab that can be made, and an answer from that slab.
pub fn grows_may_be_committed()
    ensures { GrowsMayBeCommitted }
{}

/// A reap may be committed with the slabs of which no chunk lives, by cache and then by base.
pub fn reaps_may_be_committed()
    ensures { ReapsMayBeCommitted }
{}

/// A committed call is one step of the state.
pub fn committed_answers_are_steps()
    ensures { CommittedAnswersAreSteps }
{}

/// A call that was committed with a slab is a step from the state with that slab.
pub fn committed_grows_are_steps()
    ensures { CommittedGrowsAreSteps }
{}

/// A call that was committed with slabs that were given back is a step from the state without them.
pub fn committed_reaps_are_steps()
    ensures { CommittedReapsAreSteps }
{}

/// A commit makes one call of its thread.
pub fn commits_make_one_call()
    ensures { CommitsMakeOneCall }
{}

/// After a commit its thread made one call more, and every other thread as many as before.
pub fn commits_count_one_call()
    ensures { CommitsCountOneCall }
{}

/// The next call of a thread keeps the limits of the plan: it is one of the header's threads, its slots and caches are
/// there, and its frames are few.
pub fn next_calls_keep_their_limits()
    ensures { NextCallsKeepTheirLimits }
{}

/// What follows a plan so far made the first calls that each thread has in it.
pub fn first_calls_are_made()
    ensures { FirstCallsAreMade }
{}

/// Where no thread has a next call, all calls of the plan were made.
pub fn where_none_is_next_all_are_made()
    ensures { WhereNoneIsNextAllAreMade }
{}

/// No more calls were made than the plan has.
pub fn calls_made_are_few()
    ensures { CallsMadeAreFew }
{}

/// A call is not due for three causes alone: the plan has none of that number, the thread made another number of calls,
/// or an earlier phase has a call that was not made.
pub fn calls_are_due_unless_behind()
    ensures { CallsAreDueUnlessBehind }
{}
