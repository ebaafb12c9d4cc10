//! What holds of what a program tells.
ghost use Rattle.std.specs.Prelude.{◌≡◌, ◌<◌, ◌++◌, ℕ, ℤ, List, None, length, true};
ghost use Rattle.std.specs.List.{list_all};
ghost use Rattle.psy_draw.specs.Dates.{last_date};
ghost use Rattle.psy_draw.specs.Gathering.{is_known, undated};
ghost use Rattle.psy_draw.specs.Homes.{home_at};
ghost use Rattle.psy_draw.specs.Listing.{first_unasked, first_unlisted};
ghost use Rattle.psy_draw.specs.Sayings.{HasSummary};
ghost use Rattle.psy_history.specs.Processors.{processor_at};
ghost use Rattle.psy_log.specs.declared.note.Note.{Note};
ghost use Rattle.psy_match.specs.Belonging.{foreign_in_run};
ghost use Rattle.psy_match.specs.Feeding.{AreFed};
ghost use Rattle.psy_match.specs.Homes.{homes_in, told};
ghost use Rattle.psy_meaning.specs.Units.{IsBare};
ghost use Rattle.psy_tree.specs.declared.unit.Unit.{Unit as Whole};
ghost use Rattle.psy_tree.specs.Parts.{agent_at};

/// The processor that is told beside an agent's name is its own, and none is told where that is processor 0.
pub fn own_processor()
    ensures { (unit : Whole) (agent : ℕ) → IsBare unit → agent < length unit.agents
        → home_at (homes_in unit) (agent_at unit agent).name ≡ told (processor_at unit agent) }
{}

/// Whether a run is of a program is told by its summary alone: where one run is, each run with the same summary is.
pub fn own_summary()
    ensures { (unit : Whole) (summary some other : List Note) → HasSummary some summary → HasSummary other summary → foreign_in_run unit some ≡ None
        → foreign_in_run unit other ≡ None }
{}

/// What the inputs of a program publish up to the end of its run is of dates of the run and of names that its summary lists. So behind the run's notes it
/// changes neither the summary, nor the last date, nor whether a name of the run or one that is asked for is listed; and no agent is stopped there.
pub fn fed_alike()
    ensures summary { (unit : Whole) (lists : List (List ℤ)) (notes more : List Note) → AreFed unit lists notes more → undated (notes ++ more) ≡ undated notes }
    ensures last { (unit : Whole) (lists : List (List ℤ)) (notes more : List Note) → AreFed unit lists notes more
        → last_date (notes ++ more) ≡ last_date notes }
    ensures unlisted { (unit : Whole) (lists : List (List ℤ)) (notes more : List Note) → foreign_in_run unit notes ≡ None → AreFed unit lists notes more
        → first_unlisted (notes ++ more) ≡ first_unlisted notes }
    ensures unasked { (unit : Whole) (lists : List (List ℤ)) (notes more : List Note) (names : List (List ℕ)) → AreFed unit lists notes more
        → first_unasked (notes ++ more) names ≡ first_unasked notes names }
    ensures known { (unit : Whole) (lists : List (List ℤ)) (notes more : List Note) (agents : List (List ℕ)) → AreFed unit lists notes more
        → list_all (is_known agents) more ≡ true }
{}
