//! Laws of the definitions: what keeping segments comes to. Each law is the clause of a function that does nothing, and
//! says nothing of what the segments carry.
ghost use Rattle.std.specs.Prelude.{◌≡◌, ◌↔◌, ◌≢◌, ◌+◌, ◌<◌, ◌≤◌, ℕ, List, Option, None, Some, option_map};
ghost use Rattle.std.specs.Bool.{Decides};
ghost use Rattle.std.specs.List.{All};
ghost use Rattle.system_tables.specs.declared.reassembly.segment.Key.{Key};
ghost use Rattle.system_tables.specs.declared.reassembly.table.TableLimits.{TableLimits};
ghost use Rattle.system_tables.specs.Reassembly.Arrival.{Arrival, same_key};
ghost use Rattle.system_tables.specs.Reassembly.Buffer.{Buffer, Whole, after, answer, buffer_of, data_of, due, first_carried, held, is_whole, kept, refusal, undone, without, without_due};
ghost use Rattle.system_tables.specs.Reassembly.Claims.{Agree, AllEndInTime, HaveTheSame, IsCoveredBySome, IsDue, IsMadeWhole, IsWholeWhereCovered, KeepTo, MayBeKept, NoneIsEmpty, NoneIsWhole, StaysWithDeadline};
ghost use Rattle.system_tables.specs.Reassembly.Mapped.{map_arrival, map_buffer, map_buffers};

/// Keys are the same exactly where their addresses and their data unit identifiers are.
pub fn keys_are_compared()
    ensures { (a b : Key) → Decides (same_key a b) (a ≡ b) }
{}

/// A buffer is whole exactly where each place of its unit's data is covered, and a place is covered exactly where one of
/// the kept segments has it: however many octets came.
pub fn whole_where_each_place_is_covered<C>()
    ensures covered { (arrivals : List (Arrival C)) (place : ℕ) → IsCoveredBySome arrivals place }
    ensures whole { (buffer : Buffer C) → IsWholeWhereCovered buffer }
{}

/// In whatever order the same segments came, and whichever of them were kept twice, a whole unit has the same octets,
/// where the segments agree on the places that they share.
pub fn order_changes_no_octet<C>()
    ensures octets { (read : Arrival C → ℕ → ℕ) (buffer other : Buffer C) → buffer.shape ≡ other.shape
        → HaveTheSame buffer.kept other.kept
        → Agree read buffer.kept → data_of read buffer ≡ data_of read other }
    ensures whole { (buffer other : Buffer C) → buffer.shape ≡ other.shape → HaveTheSame buffer.kept other.kept
        → is_whole buffer ≡ is_whole other }
{}

/// The numbers of the limits are never passed.
pub fn limits_are_never_passed<C>()
    ensures after { (limits : TableLimits) (now : ℕ) (arrival : Arrival C) (buffers : List (Buffer C))
        → KeepTo limits buffers → KeepTo limits (after limits now arrival buffers) }
    ensures without { (limits : TableLimits) (key : Key) (buffers : List (Buffer C))
        → KeepTo limits buffers → KeepTo limits (without key buffers) }
    ensures undone { (limits : TableLimits) (key : Key) (buffers : List (Buffer C))
        → KeepTo limits buffers → KeepTo limits (undone key buffers) }
{}

/// A segment that isn't refused has room, and is counted once: among the segments, and with its octets.
pub fn a_kept_segment_counts_once<C>()
    ensures room { (limits : TableLimits) (arrival : Arrival C) (buffers : List (Buffer C))
        → refusal limits arrival buffers ≡ None → MayBeKept limits arrival buffers }
    ensures held { (limits : TableLimits) (now : ℕ) (arrival : Arrival C) (buffers : List (Buffer C))
        → refusal limits arrival buffers ≡ None
        → held (after limits now arrival buffers) ≡ held buffers + arrival.size }
    ensures kept { (limits : TableLimits) (now : ℕ) (arrival : Arrival C) (buffers : List (Buffer C))
        → refusal limits arrival buffers ≡ None → kept (after limits now arrival buffers) ≡ kept buffers + 1 }
    ensures refused { (limits : TableLimits) (now : ℕ) (arrival : Arrival C) (buffers : List (Buffer C))
        → refusal limits arrival buffers ≢ None → after limits now arrival buffers ≡ buffers }
{}

/// A buffer's time ends when the hold time, or the lifetime of its first segment, is over from its opening on, whichever
/// is over first.
pub fn each_buffer_ends_in_time<C>()
    ensures after { (limits : TableLimits) (now : ℕ) (arrival : Arrival C) (buffers : List (Buffer C))
        → AllEndInTime limits buffers → AllEndInTime limits (after limits now arrival buffers) }
    ensures without { (limits : TableLimits) (key : Key) (buffers : List (Buffer C))
        → AllEndInTime limits buffers → AllEndInTime limits (without key buffers) }
    ensures undone { (limits : TableLimits) (key : Key) (buffers : List (Buffer C))
        → AllEndInTime limits buffers → AllEndInTime limits (undone key buffers) }
{}

/// A deadline never moves, whatever segments come.
pub fn deadlines_never_move<C>()
    ensures { (limits : TableLimits) (now : ℕ) (arrival : Arrival C) (buffers : List (Buffer C)) (key : Key)
        → StaysWithDeadline key buffers (after limits now arrival buffers) }
{}

/// Each buffer has a segment, whatever is kept and taken out.
pub fn no_buffer_is_empty<C>()
    ensures after { (limits : TableLimits) (now : ℕ) (arrival : Arrival C) (buffers : List (Buffer C))
        → NoneIsEmpty buffers → NoneIsEmpty (after limits now arrival buffers) }
    ensures without { (key : Key) (buffers : List (Buffer C)) → NoneIsEmpty buffers
        → NoneIsEmpty (without key buffers) }
    ensures undone { (key : Key) (buffers : List (Buffer C)) → NoneIsEmpty buffers → NoneIsEmpty (undone key buffers) }
{}

/// No buffer is whole but the one that the answer `Whole` speaks of, until it is taken out or its last segment is.
pub fn whole_only_where_an_answer_says_so<C>()
    ensures answered { (limits : TableLimits) (now : ℕ) (arrival : Arrival C) (buffers : List (Buffer C))
        → answer limits now arrival buffers ≡ Whole → IsMadeWhole limits now arrival buffers }
    ensures else_none { (limits : TableLimits) (now : ℕ) (arrival : Arrival C) (buffers : List (Buffer C))
        → NoneIsWhole buffers → answer limits now arrival buffers ≢ Whole
        → NoneIsWhole (after limits now arrival buffers) }
    ensures taken_out { (limits : TableLimits) (now : ℕ) (arrival : Arrival C) (buffers : List (Buffer C))
        → NoneIsWhole buffers → answer limits now arrival buffers ≡ Whole
        → NoneIsWhole (without arrival.key (after limits now arrival buffers)) }
    ensures undone { (limits : TableLimits) (now : ℕ) (arrival : Arrival C) (buffers : List (Buffer C))
        → NoneIsWhole buffers → answer limits now arrival buffers ≡ Whole
        → NoneIsWhole (undone arrival.key (after limits now arrival buffers)) }
    ensures expired { (ended : Option (Buffer C)) (buffers : List (Buffer C)) → NoneIsWhole buffers
        → NoneIsWhole (without_due ended buffers) }
{}

/// Taking the last segment of a buffer out again leaves the buffers as they were before it was kept.
pub fn undoing_gives_back<C>()
    ensures { (limits : TableLimits) (now : ℕ) (arrival : Arrival C) (buffers : List (Buffer C))
        → NoneIsEmpty buffers → refusal limits arrival buffers ≡ None
        → undone arrival.key (after limits now arrival buffers) ≡ buffers }
{}

/// The due buffer is there, its time has ended, and no other buffer has an earlier deadline; there is none exactly
/// where no buffer's time has ended. None becomes due by a segment that is kept, or by a buffer that is taken out.
pub fn the_due_buffer_is_the_soonest<C>()
    ensures due { (now : ℕ) (buffers : List (Buffer C)) (ended : Buffer C) → due now buffers ≡ Some ended
        → IsDue now buffers ended }
    ensures none { (now : ℕ) (buffers : List (Buffer C))
        → (due now buffers ≡ None) ↔ All (λ buffer. now < buffer.deadline) buffers }
    ensures kept { (limits : TableLimits) (now : ℕ) (arrival : Arrival C) (buffers : List (Buffer C)) → 1 ≤ limits.hold
        → 1 ≤ arrival.lifetime
        → due now buffers ≡ None → due now (after limits now arrival buffers) ≡ None }
    ensures taken_out { (now : ℕ) (key : Key) (buffers : List (Buffer C)) → due now buffers ≡ None
        → due now (without key buffers) ≡ None }
{}

/// What segments carry changes nothing of how they are kept, taken out and joined: a function over what they carry goes
/// through each of these. So buffers of labelled packets stand for those of the octets that the packets are.
pub fn what_is_carried_changes_nothing<C, D>()
    ensures answer { (f : C → D) (limits : TableLimits) (now : ℕ) (arrival : Arrival C) (buffers : List (Buffer C))
        → answer limits now (map_arrival f arrival) (map_buffers f buffers) ≡ answer limits now arrival buffers }
    ensures after { (f : C → D) (limits : TableLimits) (now : ℕ) (arrival : Arrival C) (buffers : List (Buffer C))
        → after limits now (map_arrival f arrival) (map_buffers f buffers) ≡ map_buffers f (after limits now arrival buffers) }
    ensures without { (f : C → D) (key : Key) (buffers : List (Buffer C))
        → without key (map_buffers f buffers) ≡ map_buffers f (without key buffers) }
    ensures undone { (f : C → D) (key : Key) (buffers : List (Buffer C))
        → undone key (map_buffers f buffers) ≡ map_buffers f (undone key buffers) }
    ensures due { (f : C → D) (now : ℕ) (buffers : List (Buffer C))
        → due now (map_buffers f buffers) ≡ option_map (map_buffer f) (due now buffers) }
    ensures without_due { (f : C → D) (ended : Option (Buffer C)) (buffers : List (Buffer C))
        → without_due (option_map (map_buffer f) ended) (map_buffers f buffers) ≡ map_buffers f (without_due ended buffers) }
    ensures buffer_of { (f : C → D) (key : Key) (buffers : List (Buffer C))
        → buffer_of key (map_buffers f buffers) ≡ option_map (map_buffer f) (buffer_of key buffers) }
    ensures held { (f : C → D) (buffers : List (Buffer C)) → held (map_buffers f buffers) ≡ held buffers }
    ensures kept { (f : C → D) (buffers : List (Buffer C)) → kept (map_buffers f buffers) ≡ kept buffers }
    ensures whole { (f : C → D) (buffer : Buffer C) → is_whole (map_buffer f buffer) ≡ is_whole buffer }
    ensures first_carried { (f : C → D) (buffer : Buffer C)
        → first_carried (map_buffer f buffer) ≡ option_map f (first_carried buffer) }
    ensures data { (f : C → D) (read : Arrival C → ℕ → ℕ) (read_mapped : Arrival D → ℕ → ℕ) (buffer : Buffer C)
        → ((arrival : Arrival C) (place : ℕ) → read_mapped (map_arrival f arrival) place ≡ read arrival place)
        → data_of read_mapped (map_buffer f buffer) ≡ data_of read buffer }
{}
