//! The picture of a run in a file of any length.
ghost use Rattle.std.specs.Prelude.{◌≡◌, ◌≤◌, ◌++◌, [], List, None, true, min, map, string_bytes, IfErr, IfOk, OnOk};
ghost use Rattle.std.specs.List.{list_all};
ghost use Rattle.psy_base.specs.declared.limits.TheConstants.{UNTIL};
ghost use Rattle.psy_log.specs.declared.note.Note.{Note as Said};
ghost use Rattle.psy_passes.specs.NameChecks.{EndAs};
ghost use Rattle.psy_passes.specs.Runs.{tail_of};
ghost use Rattle.psy_draw.specs.Gathering.{Counts, Gathers, asks_stream, asks_variable, first_values, is_known};
ghost use Rattle.psy_draw.specs.Listing.{Lists, first_unasked};
ghost use Rattle.psy_draw.specs.Sayings.{AreListed, HasSummary};
ghost use Rattle.psy_draw.specs.Homes.{housed_of};
ghost use Rattle.psy_film.specs.Causes.{IsCause, IsLate};
ghost use Rattle.psy_film.specs.Films.{IsFilm, IsLogOf};
ghost use Rattle.psy_film.specs.Sources.{foreign_by};
ghost use Rattle.psy_match.specs.Silences.{AreStopped, Owning};

use crate::adding::known_with;
use crate::checking::check;
use crate::counting::Counting;
use crate::fault::FilmFault;
use crate::gathering::Gatherer;
use crate::passing::tail_of;
use crate::source::{Source, fed_by, homes_by, silencing_by};
use psy_base::Memory;
use psy_draw::laws::{by_sayings, by_summary};
use psy_draw::{Gathering, Listed, Outset, Stops, Window, first_date, first_unknown, picture_of};
use psy_log::Note;
use psy_match::Silencing;
use psy_match::laws::{fed_alike, own_summary};
use psy_notes::laws::one_front;
use psy_passes::{Nowhere, PassFault, notes_of, write_told};
use psy_reel::Reel;
use std::alloc::Global;

// The lines of a run's end and summary, and their notes.
#[derive(Clone, Copy)]
struct Ending<'a, 's> {
    tail: &'a [u8],
    summary: &'s [Note<'a>],
}

// What is drawn: the dates of a window, by the program and its inputs, and the lanes of these names.
#[derive(Clone, Copy)]
struct Asked<'s> {
    window: Window,
    source: Option<Source<'s>>,
    names: &'s [String],
}

// By what lanes are filled: the stops, what is known of the run alone, and the notes behind those of the run.
#[derive(Clone, Copy)]
struct Filling<'a, 's> {
    stops: Stops<'a, 's>,
    outset: &'s Outset<'a>,
    more: &'s [Note<'s>],
}

// The lanes, and from when on variables are silent.
#[derive(Drop)]
struct Filled<'a, 's> {
    gathering: Gathering<'a>,
    silencing: Silencing<'s>,
}

/// The picture of the run in the file with this name, as `psy_draw::timeline` draws it of all its notes, with that name as its title; by its program and
/// inputs, where they are given. The file is read four times, piece by piece, in memory that doesn't grow with its length: for its lines, for whether it is of
/// the program and for its names, for what must be known before values are drawn, and for the lanes.
pub fn film<R: Reel>(
    alloc: Global,
    reel: &mut R,
    name: &str,
    window: Window,
    source: Option<Source>,
    names: &[String],
) -> Result<Vec<u8>, FilmFault>
    ensures picture { IfOk result (λ svg. IsFilm (R.files reel.old) name.now window source.entry (map string_bytes names.now) svg.items) }
    ensures cause { IfErr result (λ fault. IsCause (R.files reel.old) name.now window source.entry (map string_bytes names.now)
        (R.faults reel.old) (R.faults reel.new) fault) }
    ensures read { OnOk result (R.faults reel.new ≡ R.faults reel.old) }
    ensures reel { (R.faults reel.old ≤ R.faults reel.new) × (R.files reel.new ≡ R.files reel.old) }
{
    let tail = match tail_of(alloc, reel, name) {
        Ok(tail) => tail,
        Err(fault) => return Err(FilmFault::Run(fault)),
    };
    if let Err(fault) = check(alloc, reel, name, tail.as_slice(), source) {
        return Err(fault);
    }
    filmed(
        alloc,
        reel,
        name,
        tail.as_slice(),
        Asked {
            window,
            source,
            names,
        },
    )
}

// The same of a log of the program, whose end and summary have these lines.
fn filmed<R: Reel>(
    alloc: Global,
    reel: &mut R,
    name: &str,
    tail: &[u8],
    asked: Asked,
) -> Result<Vec<u8>, FilmFault>
    requires { (notes : List Said) × IsLogOf (R.files reel.old) name.now tail.now notes × (foreign_by asked.source notes ≡ None) }
    ensures picture { IfOk result (λ svg. IsFilm (R.files reel.old) name.now asked.entry.window asked.entry.source (map string_bytes asked.entry.names.now)
        svg.items) }
    ensures cause { IfErr result (λ fault. IsCause (R.files reel.old) name.now asked.entry.window asked.entry.source (map string_bytes asked.entry.names.now)
        (R.faults reel.old) (R.faults reel.new) fault) }
    ensures read { OnOk result (R.faults reel.new ≡ R.faults reel.old) }
    ensures reel { (R.faults reel.old ≤ R.faults reel.new) × (R.files reel.new ≡ R.files reel.old) }
{
    by_summary();
    own_summary();
    let notes = notes_of(alloc, tail)?;
    let summary = notes.as_slice();
    let listed = Listed::of(alloc, summary)?;
    if let Some(place) = first_unknown(asked.names, &listed) {
        return Err(FilmFault::Unknown { place });
    }
    drawn(alloc, reel, name, Ending { tail, summary }, &listed, asked)
}

// The same, where the summary lists the names that were asked for.
fn drawn<'a, R: Reel>(
    alloc: Global,
    reel: &mut R,
    name: &str,
    ending: Ending<'a, '_>,
    listed: &Listed<'a>,
    asked: Asked,
) -> Result<Vec<u8>, FilmFault>
    requires log { (notes : List Said) × IsLogOf (R.files reel.old) name.now ending.tail.now notes }
    requires summary { EndAs ending.summary.now ending.tail.now }
    requires listed { AreListed listed.now ending.summary.now }
    requires known { (notes : List Said) → HasSummary notes ending.summary.now → first_unasked notes (map string_bytes asked.names.now) ≡ None }
    requires own { (notes : List Said) → HasSummary notes ending.summary.now → foreign_by asked.source notes ≡ None }
    ensures picture { IfOk result (λ svg. IsFilm (R.files reel.old) name.now asked.entry.window asked.entry.source (map string_bytes asked.entry.names.now)
        svg.items) }
    ensures cause { IfErr result (λ fault. IsCause (R.files reel.old) name.now asked.entry.window asked.entry.source (map string_bytes asked.entry.names.now)
        (R.faults reel.old) (R.faults reel.new) fault) }
    ensures read { OnOk result (R.faults reel.new ≡ R.faults reel.old) }
    ensures reel { (R.faults reel.old ≤ R.faults reel.new) × (R.files reel.new ≡ R.files reel.old) }
{
    by_summary();
    fed_alike();
    let outset = match counted(alloc, reel, name, ending, asked) {
        Ok(outset) => outset,
        Err(fault) => return Err(FilmFault::Run(fault)),
    };
    let more = fed_by(alloc, asked.source, outset.last)?;
    let known = known_with(
        alloc,
        ending.summary,
        asked.names,
        first_date(asked.window),
        &outset,
        more.as_slice(),
    )?;
    let Some(scale) = known.scale(asked.window) else {
        return Err(FilmFault::Empty);
    };
    let homes = homes_by(alloc, asked.source)?;
    let silencing = silencing_by(alloc, asked.source)?;
    let stops = Stops {
        agents: &listed.agents,
        homes: homes.as_slice(),
        names: asked.names,
        scale: &scale,
    };
    let by = Filling {
        stops,
        outset: &outset,
        more: more.as_slice(),
    };
    let filled = match gathered(alloc, reel, name, ending, by, known, silencing) {
        Ok(filled) => filled,
        Err(fault) => return Err(FilmFault::Run(fault)),
    };
    let Ok(silences) = filled.silencing.silences(alloc) else {
        return Err(FilmFault::Run(PassFault::Memory));
    };
    Ok(picture_of(
        alloc,
        name,
        ending.summary,
        silences.as_slice(),
        stops,
        filled.gathering,
    )?)
}

// What must be known of a log before its values are drawn.
fn counted<'a, R: Reel>(
    alloc: Global,
    reel: &mut R,
    name: &str,
    ending: Ending<'a, '_>,
    asked: Asked,
) -> Result<Outset<'a>, PassFault>
    requires { (notes : List Said) × IsLogOf (R.files reel.old) name.now ending.tail.now notes }
    ensures counts { IfOk result (λ outset. (notes : List Said) × IsLogOf (R.files reel.old) name.now ending.entry.tail.now notes
        × Counts (map string_bytes asked.entry.names.now) (min asked.entry.window.from UNTIL) notes outset) }
    ensures names { IfOk result (λ outset. Lists (asks_variable (map string_bytes asked.entry.names.now)) ending.entry.summary.now outset.firsts.names) }
    ensures late { IfErr result (λ fault. IsLate (R.files reel.old) (R.faults reel.old) (R.faults reel.new) fault) }
    ensures read { OnOk result (R.faults reel.new ≡ R.faults reel.old) }
    ensures reel { (R.faults reel.old ≤ R.faults reel.new) × (R.files reel.new ≡ R.files reel.old) }
{
    let counting = Counting {
        outset: Outset::of(alloc, ending.summary, asked.names)?,
        names: asked.names,
        from: first_date(asked.window),
    };
    match write_told(alloc, reel, name, ending.tail, counting, &mut Nowhere) {
        Ok(counting) => Ok(counting.outset),
        Err(fault) => Err(fault),
    }
}

// What is gathered of a log of which this is known, and of the notes behind it. A file of which something else is known now has changed.
fn gathered<'a, 's, R: Reel>(
    alloc: Global,
    reel: &mut R,
    name: &str,
    ending: Ending<'a, '_>,
    by: Filling<'a, 's>,
    known: Outset<'a>,
    silencing: Silencing<'s>,
) -> Result<Filled<'a, 's>, PassFault>
    requires counts { (notes : List Said) × IsLogOf (R.files reel.old) name.now ending.tail.now notes
        × Counts (map string_bytes by.stops.names.now) by.stops.scale.now.from notes by.outset.now }
    requires names { Lists (asks_variable (map string_bytes by.stops.names.now)) ending.summary.now by.outset.now.firsts.names }
    requires lists { Lists (asks_variable (map string_bytes by.stops.names.now)) ending.summary.now known.firsts.names }
    requires with_more { (notes : List Said) → Counts (map string_bytes by.stops.names.now) by.stops.scale.now.from notes by.outset.now
        → Counts (map string_bytes by.stops.names.now) by.stops.scale.now.from (notes ++ by.more.now) known }
    requires known { (notes : List Said) → IsLogOf (R.files reel.old) name.now ending.tail.now notes → list_all (is_known by.stops.agents.now) notes ≡ true }
    requires more { list_all (is_known by.stops.agents.now) by.more.now ≡ true }
    ensures gathers { IfOk result (λ filled. (notes : List Said) × IsLogOf (R.files reel.old) name.now ending.entry.tail.now notes
        × Counts (map string_bytes by.entry.stops.names.now) by.entry.stops.scale.now.from notes by.entry.outset.now
        × Gathers by.entry.stops.scale.now (map housed_of by.entry.stops.homes.now) (map string_bytes by.entry.stops.names.now)
        (first_values by.entry.stops.scale.now.from (notes ++ by.entry.more.now)) (notes ++ by.entry.more.now) filled.gathering
        × ((owning : List Owning) → AreStopped owning [] silencing.entry → AreStopped owning notes filled.silencing)) }
    ensures variables { IfOk result (λ filled. Lists (asks_variable (map string_bytes by.entry.stops.names.now)) ending.entry.summary.now
        filled.gathering.variables.names) }
    ensures streams { IfOk result (λ filled. Lists (asks_stream (map string_bytes by.entry.stops.names.now)) ending.entry.summary.now
        filled.gathering.streams.names) }
    ensures late { IfErr result (λ fault. IsLate (R.files reel.old) (R.faults reel.old) (R.faults reel.new) fault) }
    ensures read { OnOk result (R.faults reel.new ≡ R.faults reel.old) }
    ensures reel { (R.faults reel.old ≤ R.faults reel.new) × (R.files reel.new ≡ R.files reel.old) }
{
    one_front();
    by_sayings();
    let Ending { tail, summary } = ending;
    let Stops { names, scale, .. } = by.stops;
    let before = Gatherer {
        again: Outset::of(alloc, summary, names)?,
        gathering: Gathering::of(alloc, summary, known.firsts, names, scale)?,
        by: by.stops,
        from: scale.from,
        silencing,
    };
    let now = match write_told(alloc, reel, name, tail, before, &mut Nowhere) {
        Ok(now) => now,
        Err(fault) => return Err(fault),
    };
    if !by.outset.agrees(&now.again, summary) {
        return Err(PassFault::Changed);
    }
    let Gatherer {
        mut gathering,
        silencing,
        ..
    } = now;
    if let Err(Memory) = gathering.add_all(by.stops, by.more) {
        return Err(PassFault::Memory);
    }
    Ok(Filled {
        gathering,
        silencing,
    })
}
