//! What the definitions of this crate give, for a heap that keeps its free chunks where the magazine rules say.

ghost use Rattle.heap_accounts.specs.Laws.{AnswersChangePlaces, CallsAreOfTheKindAsked, GrowsChangePlaces, LegalHistoriesAreAtRest, NumbersTellAddresses, PerformedCallsAreOne, PlacedHistoriesAreOne, PlacedHistoriesGrow, PlacesHoldTheFreeChunks, PlansOfOneThreadDecide, ReapsChangePlaces};

/// A call is of the kind that it asks for.
pub fn calls_are_of_the_kind_asked()
    ensures { CallsAreOfTheKindAsked }
{}

/// A legal history leaves no chunk of a new slab in hand.
pub fn legal_histories_are_at_rest()
    ensures { LegalHistoriesAreAtRest }
{}

/// The places after a call and its answer are one step from those before.
pub fn answers_change_places()
    ensures { AnswersChangePlaces }
{}

/// Where a slab was made for the call, they are those before with the slab, whose first round is in hand.
pub fn grows_change_places()
    ensures { GrowsChangePlaces }
{}

/// After a reap each cache's magazines are empty, and its complete slabs are gone.
pub fn reaps_change_places()
    ensures { ReapsChangePlaces }
{}

/// A placed history stays placed by what a call adds by the magazine rules.
pub fn placed_histories_grow()
    ensures { PlacedHistoriesGrow }
{}

/// What a call adds is decided by the state and the places before it.
pub fn performed_calls_are_one()
    ensures { PerformedCallsAreOne }
{}

/// A legal, tidy and placed history is decided by its calls in their order.
pub fn placed_histories_are_one()
    ensures { PlacedHistoriesAreOne }
{}

/// One that answers a plan of one thread is decided by the plan.
pub fn plans_of_one_thread_decide()
    ensures { PlansOfOneThreadDecide }
{}

/// A chunk of a slab that stands after a legal history is the one of its number, and begins where it does.
pub fn numbers_tell_addresses()
    ensures { NumbersTellAddresses }
{}

/// The places of a legal, tidy and placed history are sound stocks of the slabs that stand, and hold exactly the rounds
/// of the free chunks.
pub fn places_hold_the_free_chunks()
    ensures { PlacesHoldTheFreeChunks }
{}
