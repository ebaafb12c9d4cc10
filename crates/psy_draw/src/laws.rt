//! What is told of a run by what its notes say, and by its summary alone.

ghost use Rattle.std.specs.Prelude.{◌≡◌, ◌&&◌, ◌==◌, ℕ, None, true, List, map};
ghost use Rattle.std.specs.List.{list_all};
ghost use Rattle.psy_log.specs.declared.note.Note.{Note};
ghost use Rattle.psy_log.specs.Forms.{says};
ghost use Rattle.psy_draw.specs.declared.listed.Listed.{Listed};
ghost use Rattle.psy_draw.specs.declared.outset.Outset.{Outset};
ghost use Rattle.psy_draw.specs.Firsts.{agree_on};
ghost use Rattle.psy_draw.specs.Gathering.{Counts, asks_variable, is_known};
ghost use Rattle.psy_draw.specs.Listing.{Lists, first_outside, first_unasked, first_unlisted};
ghost use Rattle.psy_draw.specs.Sayings.{AreListed, HasSummary};
ghost use Rattle.psy_draw.specs.Tables.{has_name};

/// A run's summary lists the names of the run: those that were asked for are looked up in it, and where no name of the run is missing the agents
/// of all stops are there.
pub fn by_summary()
    ensures unasked { (listed : Listed) (summary notes : List Note) (names : List (List ℕ)) → HasSummary notes summary → AreListed listed summary
        → first_outside (has_name listed) names ≡ first_unasked notes names }
    ensures known { (listed : Listed) (summary notes : List Note) → HasSummary notes summary → AreListed listed summary
        → first_unlisted notes ≡ None → list_all (is_known listed.agents) notes ≡ true }
{}

/// What is known of notes before their values are drawn is known by what they say: of notes that say the same the same is known, and where that is so
/// of two runs with a summary, what is known of one is known of the other.
pub fn by_sayings()
    ensures same { (names : List (List ℕ)) (from : ℕ) (some other : List Note) (outset : Outset) → map says some ≡ map says other
        → Counts names from some outset → Counts names from other outset }
    ensures agree { (names : List (List ℕ)) (from : ℕ) (summary notes : List Note) (some other : Outset)
        → Lists (asks_variable names) summary some.firsts.names → Lists (asks_variable names) summary other.firsts.names
        → Counts names from notes some → Counts names from notes other
        → (some.last == other.last && some.lanes == other.lanes && list_all (agree_on some.firsts other.firsts) summary) ≡ true }
    ensures agreed { (names : List (List ℕ)) (from : ℕ) (summary notes : List Note) (some other : Outset)
        → Lists (asks_variable names) summary some.firsts.names → Lists (asks_variable names) summary other.firsts.names
        → (some.last == other.last && some.lanes == other.lanes && list_all (agree_on some.firsts other.firsts) summary) ≡ true
        → Counts names from notes other → Counts names from notes some }
{}
