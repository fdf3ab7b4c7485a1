//! When the book of live buffers tells what a history left: at its start, and as buffers are handed out and given
//! back. No other entry changes what lives or what was ever handed out.

ghost use Rattle.std.specs.Prelude.{◌≡◌, ℕ, Bool, Some, None, IsSome};
ghost use Rattle.std.specs.FinMap as map;
ghost use Rattle.script.specs.declared.operation.Op.TheVariants.{Free, CacheFree};
ghost use Rattle.plain_heap.specs.declared.held.Held.{Held};
ghost use Rattle.plain_heap.specs.Frees.{judgement};
ghost use Rattle.plain_heap.specs.Live.{HeldByAddress, TellsLive, live_at};
ghost use Rattle.plain_heap.specs.Replies.{free_answer_in, has_finding_at, refusal_by_cache, refusal_by_size};
ghost use Rattle.plain_heap.specs.Setting.{Setting};
ghost use Rattle.plain_heap.specs.State.{State, fate_of, give_back, hand_out, start_state};

/// An empty book tells that nothing was handed out.
pub fn an_empty_book_tells_the_start()
    ensures { TellsLive map.empty start_state }
{}

/// A book with one buffer more tells that it was handed out.
pub fn a_longer_book_tells_what_was_handed_out()
    ensures { (setting : Setting) (state : State) (buffers : HeldByAddress) (address : ℕ) (held : Held) (zero : Bool)
        → TellsLive buffers state
        → TellsLive (map.insert buffers address (Some held)) (hand_out setting state address held zero) }
{}

/// A book in which a live buffer lives no more tells that it was given back.
pub fn a_book_tells_what_was_given_back()
    ensures { (setting : Setting) (state : State) (buffers : HeldByAddress) (address : ℕ)
        → TellsLive buffers state → IsSome (live_at buffers address)
        → TellsLive (map.insert buffers address None) (give_back setting state address) }
{}

/// Such a book has what became of each address.
pub fn a_book_tells_the_fate_of_each_address()
    ensures { (state : State) (buffers : HeldByAddress) (address : ℕ)
        → TellsLive buffers state → map.get buffers address ≡ fate_of state address }
{}

/// By such a book frees are answered as legal histories answer them.
pub fn judgements_are_legal_answers()
    ensures by_size { (setting : Setting) (state : State) (buffers : HeldByAddress) (slot size word : ℕ)
        → TellsLive buffers state
        → judgement buffers (Free slot size) word (has_finding_at setting state word)
        ≡ free_answer_in setting state word (refusal_by_size size) }
    ensures by_cache { (setting : Setting) (state : State) (buffers : HeldByAddress) (slot cache word : ℕ)
        → TellsLive buffers state
        → judgement buffers (CacheFree slot cache) word (has_finding_at setting state word)
        ≡ free_answer_in setting state word (refusal_by_cache cache) }
{}
