//! Laws of the definitions. Each law is the clause of a function that does nothing.
ghost use Rattle.std.specs.Prelude.{◌≡◌, ◌++◌, ℕ, List, IfOk, Ok, length};
ghost use Rattle.clnp_program.specs.FairCommands.Claims.{IsAccepted};
ghost use Rattle.clnp_program.specs.FairCommands.Fair.{IsFair};
ghost use Rattle.clnp_program.specs.FairCommands.Grammar.{Capture, capture_of};
ghost use Rattle.clnp_program.specs.FairCommands.Output.{class_alone, end_line, lines_of_class, output_of};

/// Of any text that is accepted, the lines of a source with a share are those of a text that says the same but for the frames
/// of all other sources, which are taken out; and so are those of all sources without a share together.
pub fn a_share_is_apart()
    ensures { (text other : List ℕ) (capture alone : Capture) (place : ℕ) → capture_of text ≡ Ok capture
        → capture_of other ≡ Ok alone
        → alone ≡ class_alone place capture
        → output_of alone ≡ lines_of_class place capture ++ end_line (length alone.frames) }
{}

/// A source that has a share gets the lines that it would get alone, and no table holds more than its budget.
pub fn shares_are_fair()
    ensures { (text : List ℕ) → IfOk (capture_of text) IsFair }
{}

/// No source of an accepted text has two shares, all tables together hold at most 16,777,216 octets, and each frame has at most 70,000 octets and a moment below 2^32.
pub fn an_accepted_text_is_in_range()
    ensures { (text : List ℕ) (capture : Capture) → capture_of text ≡ Ok capture → IsAccepted capture }
{}
