//! Laws of the definitions: what it comes to that each share has a table of its own. Each law is the clause of a function that
//! does nothing.
ghost use Rattle.std.specs.Prelude.{◌≡◌, ◌≢◌, ◌+◌, ◌<◌, ◌≤◌, ◌++◌, ◌∷◌, [], ℕ, List, None, Some, filter, length, slice_get};
ghost use Rattle.pdus.specs.ClnpViews.Extent.{Extent};
ghost use Rattle.pdus.specs.PduHeader.Grammar.{BeginsWith};
ghost use Rattle.pdus.specs.PduHeader.Value.{PduValue};
ghost use Rattle.system_tables.specs.Reassembly.Buffer.{Buffer, due, without};
ghost use Rattle.system_tables.specs.Reassembly.Claims.{KeepTo, NoneIsWhole};
ghost use Rattle.system_tables.specs.Reassembly.State.{TableState};
ghost use Rattle.system_tables.specs.declared.fair_reassembly.came.Came.{Came};
ghost use Rattle.system_tables.specs.declared.fair_reassembly.share.Share.{Share as ShareOf};
ghost use Rattle.system_tables.specs.FairReassembly.Behind.{StandBehind, Undergoes};
ghost use Rattle.system_tables.specs.FairReassembly.Claims.{OthersStay, budget_of_all, held_by_all};
ghost use Rattle.system_tables.specs.FairReassembly.Classes.{Shares, account_behind, accounts, accounts_of, and_then, class_buffers, class_of, comes, each_behind, ends, expire_all, frames_of, is_from, limits_at, rests};
ghost use Rattle.system_tables.specs.FairReassembly.Coming.{value_in};
ghost use Rattle.system_tables.specs.FairReassembly.Tables.{AreDistinct, ChangesTable, FairState, place_of, sources_of, with_table};

/// Another table at a place changes no other table.
pub fn other_tables_stay()
    ensures { (place : ℕ) (state : FairState) (new : TableState) → OthersStay place state (with_table place new state) }
{}

/// Where no two shares are of one source, each source that has a share has the table of its share.
pub fn each_share_has_its_table()
    ensures { (sources : List (List ℕ)) (i : ℕ) (source : List ℕ) → AreDistinct sources
        → slice_get sources i ≡ Some source
        → place_of sources source ≡ i + 1 }
{}

/// What is told of the frames of a class is what would be told if all other frames were taken out; so it is the same wherever
/// the frames of the class are, whatever comes beside them. The class of a source that has a share is that source alone.
pub fn nothing_comes_from_others()
    ensures alone { (s : Shares) (place : ℕ) (frames : List Came)
        → accounts_of s place frames ≡ accounts s (frames_of s place frames) }
    ensures same { (s : Shares) (place : ℕ) (frames others : List Came)
        → frames_of s place frames ≡ frames_of s place others
        → accounts_of s place frames ≡ accounts_of s place others }
    ensures source { (s : Shares) (i : ℕ) (share : ShareOf) (frames : List Came) → AreDistinct (sources_of s.shares)
        → slice_get s.shares i ≡ Some share
        → filter (λ account. is_from share.from account.came) (accounts s frames) ≡ accounts s (filter (is_from share.from) frames) }
{}

/// No table passes its numbers, and all tables together never hold more octets than their budgets are in sum.
pub fn budgets_are_kept()
    ensures each { (s : Shares) (place : ℕ) (frames : List Came)
        → KeepTo (limits_at s place) (class_buffers s place frames) }
    ensures sum { (s : Shares) (frames : List Came) → held_by_all s frames ≤ budget_of_all s }
{}

/// Behind whatever frames no buffer is whole.
pub fn no_buffer_stays_whole()
    ensures { (s : Shares) (place : ℕ) (frames : List Came) → NoneIsWhole (class_buffers s place frames) }
{}

/// The value at the front of a frame is read off the frame.
pub fn a_frame_has_one_value()
    ensures { (frame : List ℕ) (v : PduValue) (rest : List ℕ) → BeginsWith frame v rest → v ≡ value_in frame }
{}

/// Buffers whose time has ended are taken out one after the other, the due one first, until none is due.
pub fn buffers_end_until_none_is_due()
    ensures none { (now : ℕ) (buffers : List (Buffer Extent)) → due now buffers ≡ None
        → expire_all now buffers ≡ rests buffers }
    ensures next { (now : ℕ) (buffers : List (Buffer Extent)) (ended : Buffer Extent) → due now buffers ≡ Some ended
        → expire_all now buffers ≡ and_then (ends ended buffers) (expire_all now) }
    ensures fewer { (now : ℕ) (buffers : List (Buffer Extent)) (ended : Buffer Extent) → due now buffers ≡ Some ended
        → length (without ended.key buffers) < length buffers }
{}

/// What is told of frames stands behind what is told of those before them, which changes nothing of it.
pub fn what_is_told_goes_on()
    ensures { (s : Shares) (before later : List Came)
        → accounts s (before ++ later) ≡ accounts s before ++ each_behind (account_behind s) before later }
{}

/// A frame changes the buffers of its class, as what comes of it says, and those of no other class.
pub fn a_frame_changes_its_class()
    ensures own { (s : Shares) (place : ℕ) (before : List Came) (came : Came) → class_of s came ≡ Some place
        → class_buffers s place (before ++ came ∷ []) ≡ (comes (limits_at s place) came (class_buffers s place before)).buffers }
    ensures others { (s : Shares) (place : ℕ) (before : List Came) (came : Came) → class_of s came ≢ Some place
        → class_buffers s place (before ++ came ∷ []) ≡ class_buffers s place before }
{}

/// Tables that stand behind some frames stand behind one more where it comes over the table of its class alone, or over none
/// where it is no PDU.
pub fn tables_stand_behind_each_frame()
    ensures unread { (s : Shares) (before : List Came) (came : Came) (state : FairState) → class_of s came ≡ None
        → StandBehind s before state → StandBehind s (before ++ came ∷ []) state }
    ensures comes { (s : Shares) (place : ℕ) (before : List Came) (came : Came) (old new : FairState)
        → class_of s came ≡ Some place
        → StandBehind s before old → ChangesTable place old new (Undergoes (λ limits buffers. comes limits came buffers))
        → StandBehind s (before ++ came ∷ []) new }
{}
