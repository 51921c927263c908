//! Laws of the definitions: when an identifier is used again (ISO/IEC 8473, section 6.8). Each law is the clause of a
//! function that does nothing.
ghost use Rattle.std.specs.Prelude.{◌≡◌, ◌<◌, ◌≤◌, ◌+◌, ℕ, List, None, Some};
ghost use Rattle.clnp_machine.specs.Identifiers.{Identifiers, IsQuiet, drawn, last_use, next, not_drawn, opening, restarted};
ghost use Rattle.clnp_systems.specs.Apart.{AreApart, drawn_at};

/// An identifier that is drawn wasn't used in the `reuse` ticks before.
pub fn a_drawn_identifier_has_rested()
    ensures { (now : ℕ) (ids : Identifiers) → not_drawn now ids ≡ None → (used : ℕ)
        → last_use (next ids) ids.uses ≡ Some used
        → used + ids.reuse ≤ now }
{}

/// Nothing is drawn in the quiet time, which after a restart is `reuse` ticks long, so that the uses before it are then
/// long enough ago, too.
pub fn nothing_is_drawn_in_quiet_time()
    ensures quiet { (now : ℕ) (ids : Identifiers) → now < ids.quiet → not_drawn now ids ≡ Some (IsQuiet ids.quiet) }
    ensures restarted { (restart now : ℕ) (ids : Identifiers) → not_drawn now (restarted restart ids) ≡ None
        → restart + ids.reuse ≤ now }
{}

/// Two uses of one identifier, in whatever series of moments at which one was asked for, are at least `reuse` ticks
/// apart.
pub fn uses_of_an_identifier_are_apart()
    ensures kept { (now : ℕ) (ids : Identifiers) → AreApart ids.reuse ids.uses
        → AreApart ids.reuse (drawn now ids).uses }
    ensures always { (reuse quiet : ℕ) (moments : List ℕ)
        → AreApart reuse (drawn_at moments (opening reuse quiet)).uses }
{}
