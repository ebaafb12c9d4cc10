//! The picture of a run.

ghost use Rattle.std.specs.Prelude.{◌≡◌, ◌+◌, ◌++◌, ◌≤◌, ◌<◌, ℕ, true, List, ◌^◌, ◌-◌, IfOk, MatchOption, OnOk, vec_len, map, min, string_bytes, length};
ghost use Rattle.std.specs.List.{list_all};
ghost use Rattle.psy_log.specs.declared.note.Note.{Note};
ghost use Rattle.psy_draw.specs.Drawing.{column_count, stacked, tells_parts};
ghost use Rattle.psy_draw.specs.Sayings.{HasSummary};
ghost use Rattle.psy_draw.specs.Scales.{IsScaleOf, place_by};
ghost use Rattle.psy_draw.specs.Silences.{silent_of};
ghost use Rattle.psy_draw.specs.Sources.{HasNames, IsFileBy, IsOf};
ghost use Rattle.psy_draw.specs.Gathering.{AreFirst, Gathers, asks_stream, asks_variable, first_values, is_known};
ghost use Rattle.psy_draw.specs.Frames.{HaveRoom};
ghost use Rattle.psy_draw.specs.Inputs.{input_lines, input_text};
ghost use Rattle.psy_draw.specs.Pictures.{IsFileOf, dates_text, inputs_group, parts_text, ticks_text};
ghost use Rattle.psy_draw.specs.Summaries.{behind_table, table_width, tables_text, titles_of};
ghost use Rattle.psy_draw.specs.Homes.{housed_of};
ghost use Rattle.psy_draw.specs.Knowledge.{knowledge_of};
ghost use Rattle.psy_draw.specs.Listing.{Lists, first_unlisted, first_unasked};
ghost use Rattle.psy_draw.specs.Dates.{last_date};
ghost use Rattle.psy_draw.specs.Places.{window_end};
ghost use Rattle.psy_draw.specs.declared.window.Window.{Window};
ghost use Rattle.psy_draw.specs.Tables.{NamesFault, AllListed};

use crate::DrawFault;
use crate::axis::{AXIS_HEIGHT, draw_axis, draw_grid, ticks_of};
use crate::drawing::draw_lane;
use crate::file::{file_of, too_large};
use crate::firsts::Firsts;
use crate::frame::{Frame, LANES_TOP, TABLE_GAP, is_high};
use crate::gathering::Gathering;
use crate::head::put_head;
use crate::hover::TELLING_COLUMNS;
use crate::inputs::Inputs;
use crate::known::Known;
use crate::lane::Lane;
use crate::layout::{Corner, MARGIN};
use crate::legend::{INPUTS, LEGEND};
use crate::listed::Listed;
use crate::names::Names;
use crate::outset::Outset;
use crate::plan::Plan;
use crate::room::MOST_LANES;
use crate::scale::{Scale, first_date};
use crate::silence::Silence;
use crate::source::Source;
use crate::stopped::{Stopped, Stops};
use crate::table::Table;
use crate::tables::Tables;
use crate::unlisted::{first_unknown, first_unlisted};
use crate::window::Window;
use psy_base::Memory;
use psy_log::Note;
use psy_page::Page;
use psy_page::Piece::{Number, Raw};
use std::alloc::Global;

// What was asked for: the agents of the summary, the names, and what the program tells.
#[derive(Clone, Copy)]
struct Asked<'a, 's> {
    agents: &'s Names<'a>,
    names: &'s [String],
    known: Known<'s>,
}

/// The picture of the dates of a run in a window, as an SVG file of at most 2,000,000 bytes with this title. Its lanes are those
/// of the agents that were stopped up to the window's end, of the variables that have a value there and of the streams; of these
/// those whose names were asked for, or all where none were, as it is with the names of the other variables below them. All lanes
/// together have at most 40,000 columns of at least a pixel, and each one more where a value stands at the last date: of several
/// values in one column a line goes over the first, the least, the greatest and the last, a box is filled, and several messages are
/// one mark. Lines and boxes of a variable that is silent are dashed from there on, and the processor of a stopped agent stands behind its name, where the
/// program tells of them. The tables of the summary stand at the end.
/// Where a file would be longer, or would have more than 4,096 lanes, names or rows of a table, it is one that says so. Notes that
/// are no part of a run are skipped.
pub fn timeline(
    alloc: Global,
    title: &str,
    notes: &[Note],
    window: Window,
    names: &[String],
    known: Known,
) -> Result<Vec<u8>, DrawFault>
    ensures unlisted { (n : ℕ) → result ≡ Err (DrawFault.Unlisted n) → first_unlisted notes.now ≡ Some n }
    ensures listed { OnOk result (first_unlisted notes.now ≡ None) }
    // A name that was asked for is looked at where all names in the notes are listed, and the window where those that were asked for are too.
    ensures unknown { (k : ℕ) → result ≡ Err (DrawFault.Unknown k) → (first_unlisted notes.now ≡ None)
        × (first_unasked notes.now (map string_bytes names.now) ≡ Some k) }
    ensures known { OnOk result (first_unasked notes.now (map string_bytes names.now) ≡ None) }
    ensures empty { result ≡ Err DrawFault.Empty → (first_unlisted notes.now ≡ None) × (first_unasked notes.now (map string_bytes names.now) ≡ None)
        × (window_end window (last_date notes.now) < window.from) }
    ensures dated { OnOk result (window.from ≤ window_end window (last_date notes.now)) }
    // The file is the whole picture, exactly where that has room; where it hasn't, it says that the picture would be too large.
    ensures picture { IfOk result (λ svg. IsFileOf title.now window (knowledge_of known.entry) (map string_bytes names.now) notes.now svg.items) }
    ensures small { IfOk result (λ svg. vec_len svg ≤ 2000000) }
{
    let listed = Listed::of(alloc, notes)?;
    match names_fault(notes, names, &listed) {
        Some(fault) => Err(fault),
        None => drawn(
            alloc,
            title,
            notes,
            window,
            Asked {
                agents: &listed.agents,
                names,
                known,
            },
        ),
    }
}

// The first name that isn't listed, of those in the notes, or else of those that were asked for.
fn names_fault(notes: &[Note], names: &[String], listed: &Listed) -> Option<DrawFault>
    ensures { MatchOption result (AllListed listed.now notes.now (map string_bytes names.now)) (NamesFault listed.now notes.now (map string_bytes names.now)) }
{
    match first_unlisted(notes, listed) {
        Some(number) => Some(DrawFault::Unlisted { number }),
        None => match first_unknown(names, listed) {
            Some(place) => Some(DrawFault::Unknown { place }),
            None => None,
        },
    }
}

// The picture, where all names are listed: one walk over the notes tells what must be known before their values are drawn, and a second one fills all lanes.
fn drawn<'a>(
    alloc: Global,
    title: &str,
    notes: &[Note<'a>],
    window: Window,
    asked: Asked<'a, '_>,
) -> Result<Vec<u8>, DrawFault>
    requires { list_all (is_known asked.agents.now) notes.now ≡ true }
    ensures unlisted { (n : ℕ) → result ≡ Err (DrawFault.Unlisted n) → ⊥ }
    ensures unknown { (k : ℕ) → result ≡ Err (DrawFault.Unknown k) → ⊥ }
    ensures empty { result ≡ Err DrawFault.Empty → window_end window (last_date notes.now) < window.from }
    ensures dated { OnOk result (window.from ≤ window_end window (last_date notes.now)) }
    ensures picture { IfOk result (λ svg. IsFileOf title.now window (knowledge_of asked.entry.known) (map string_bytes asked.entry.names.now)
        notes.now svg.items) }
    ensures small { IfOk result (λ svg. vec_len svg ≤ 2000000) }
{
    let mut outset = Outset::of(alloc, notes, asked.names)?;
    outset.add_all(notes, asked.names, first_date(window));
    match outset.scale(window) {
        Some(scale) => Ok(filled(alloc, title, notes, outset.firsts, &scale, asked)?),
        None => Err(DrawFault::Empty),
    }
}

// The picture by a scale, of variables with these values at the first date.
fn filled<'a>(
    alloc: Global,
    title: &str,
    notes: &[Note<'a>],
    firsts: Firsts<'a>,
    scale: &Scale,
    asked: Asked<'a, '_>,
) -> Result<Vec<u8>, Memory>
    requires known { list_all (is_known asked.agents.now) notes.now ≡ true }
    requires names { Lists (asks_variable (map string_bytes asked.names.now)) notes.now firsts.names }
    requires firsts { AreFirst (first_values scale.now.from notes.now) firsts }
    ensures picture { IfOk result (λ svg. (window : Window) → IsScaleOf window (map string_bytes asked.entry.names.now) notes.now scale.now
        → IsFileOf title.now window (knowledge_of asked.entry.known) (map string_bytes asked.entry.names.now) notes.now svg.items) }
    ensures small { IfOk result (λ svg. vec_len svg ≤ 2000000) }
{
    let Asked {
        agents,
        names,
        known,
    } = asked;
    let mut gathering = Gathering::of(alloc, notes, firsts, names, scale)?;
    let by = Stops {
        agents,
        homes: known.homes,
        names,
        scale,
    };
    gathering.add_all(by, notes)?;
    picture_of(alloc, title, notes, known.silences, by, gathering)
}

/// The picture of what was gathered of notes that come one by one, of a run with this summary: what `timeline` draws of all of them.
pub fn picture_of<'a>(
    alloc: Global,
    title: &str,
    summary: &[Note<'a>],
    silences: &[Silence],
    by: Stops<'a, '_>,
    gathering: Gathering<'a>,
) -> Result<Vec<u8>, Memory>
    requires variables { Lists (asks_variable (map string_bytes by.names.now)) summary.now gathering.variables.names }
    requires streams { Lists (asks_stream (map string_bytes by.names.now)) summary.now gathering.streams.names }
    ensures picture { IfOk result (λ svg. (window : Window) (notes : List Note) → HasSummary notes summary.now
        → IsScaleOf window (map string_bytes by.entry.names.now) notes by.entry.scale.now
        → Gathers by.entry.scale.now (map housed_of by.entry.homes.now) (map string_bytes by.entry.names.now) (first_values by.entry.scale.now.from notes) notes
        gathering.entry
        → IsFileOf title.now window (record { silences = map silent_of silences.now; homes = map housed_of by.entry.homes.now })
        (map string_bytes by.entry.names.now) notes svg.items) }
    ensures small { IfOk result (λ svg. vec_len svg ≤ 2000000) }
{
    let Gathering {
        stopped,
        variables,
        streams,
    } = gathering;
    let source = Source {
        summary,
        variables: &variables,
        streams: &streams,
        known: Known {
            silences,
            homes: by.homes,
        },
        names: by.names,
        scale: by.scale,
    };
    let file = file_by(alloc, title, source, stopped)?;
    Ok(file)
}

// The file of a picture by a scale.
fn file_by<'a>(
    alloc: Global,
    title: &str,
    source: Source<'a, '_>,
    stopped: Stopped<'a>,
) -> Result<Vec<u8>, Memory>
    requires { HasNames source }
    ensures picture { IfOk result (λ svg. (notes : List Note) → IsOf source.entry stopped.entry notes → IsFileBy title.now source.entry notes svg.items) }
    ensures small { IfOk result (λ svg. vec_len svg ≤ 2000000) }
{
    let Stopped { lanes, full } = stopped;
    if full {
        return too_large(alloc);
    }
    let plan = Plan::of(alloc, source, lanes)?;
    let tables = Tables::of(alloc, source.summary)?;
    if plan.is_crowded() {
        return too_large(alloc);
    }
    if tables.is_crowded() {
        return too_large(alloc);
    }
    let inside = inside_of(alloc, title, source.scale, &plan, &tables)?;
    file_of(alloc, &inside)
}

// The inside of the file.
fn inside_of(
    alloc: Global,
    title: &str,
    scale: &Scale,
    plan: &Plan,
    tables: &Tables,
) -> Result<Page, Memory>
    requires lanes { length plan.now.lanes.items ≤ MOST_LANES }
    requires tables { HaveRoom tables.now }
    ensures { IfOk result (λ page. page ≡ parts_text title.now scale.now.from scale.now.to scale.now.grain plan.now.lanes.items
        (input_lines (map (λ n. n.now) plan.now.inputs.items)) (input_text (map (λ n. n.now) plan.now.inputs.items))
        tables.now.agents.rows.items tables.now.variables.rows.items tables.now.streams.rows.items) }
{
    let inputs = Inputs::of(alloc, plan.inputs.as_slice())?;
    parts_of(alloc, title, scale, plan.lanes.as_slice(), &inputs, tables)
}

// The parts of the picture, one behind the other.
fn parts_of(
    alloc: Global,
    title: &str,
    scale: &Scale,
    lanes: &[Lane],
    inputs: &Inputs,
    tables: &Tables,
) -> Result<Page, Memory>
    requires lanes { length lanes.now ≤ MOST_LANES }
    requires tables { HaveRoom tables.now }
    ensures { IfOk result (λ page. page ≡ parts_text title.now scale.now.from scale.now.to scale.now.grain lanes.now inputs.now.lines inputs.now.text
        tables.now.agents.rows.items tables.now.variables.rows.items tables.now.streams.rows.items) }
{
    let frame = Frame::of(lanes, inputs, tables);
    let mut page = Page::new(alloc);
    put_head(&mut page, &frame, scale, title)?;
    put_dates(alloc, &mut page, &frame, scale)?;
    put_lanes(&mut page, scale, frame.left, lanes, tells_parts(lanes))?;
    put_inputs(&mut page, frame.inputs, inputs)?;
    page.fill(LEGEND, &[Number(frame.legend)])?;
    put_tables(&mut page, frame.tables, tables)?;
    Ok(page)
}

fn put_dates(alloc: Global, page: &mut Page, frame: &Frame, scale: &Scale) -> Result<(), Memory>
    ensures { OnOk result (page.new ≡ page.old ++ dates_text scale.now.from scale.now.to scale.now.grain frame.now.left frame.now.bottom) }
{
    let ticks = ticks_of(alloc, scale)?;
    put_ticks(page, frame, scale, ticks.as_slice())
}

// Draws the grid, and the axis above the lanes, and the one below them, where they are high.
fn put_ticks(page: &mut Page, frame: &Frame, scale: &Scale, ticks: &[u32]) -> Result<(), Memory>
    ensures { OnOk result (page.new ≡ page.old ++ ticks_text (place_by scale.now) ticks.now frame.now.left frame.now.bottom) }
{
    let Frame { left, bottom, .. } = *frame;
    let top = LANES_TOP - AXIS_HEIGHT;
    draw_grid(page, scale, ticks, left, bottom)?;
    draw_axis(page, scale, ticks, Corner { left, top })?;
    if is_high(bottom) {
        draw_axis(page, scale, ticks, Corner { left, top: bottom })
    } else {
        Ok(())
    }
}

// Draws the lanes, one below the other; their parts tell what they are, where that is asked for.
fn put_lanes(
    page: &mut Page,
    scale: &Scale,
    left: u32,
    lanes: &[Lane],
    tells: bool,
) -> Result<(), Memory>
    requires room { length lanes.now ≤ MOST_LANES }
    requires beside { 12 ≤ left }
    ensures { OnOk result (page.new ≡ page.old ++ stacked (place_by scale.now) tells left 56 lanes.now) }
{
    let mut top = LANES_TOP;
    for lane in lanes {
        draw_lane(page, scale, Corner { left, top }, lane, tells)?;
        top += lane.height();
    }
    Ok(())
}

// Do the parts of these lanes tell what they are?
fn tells_parts(lanes: &[Lane]) -> bool
    ensures { result ≡ tells_parts lanes.now }
{
    column_count(lanes) <= TELLING_COLUMNS
}

// How many columns the lanes have together, as far as they are counted.
fn column_count(lanes: &[Lane]) -> usize
    ensures { result ≡ min (column_count lanes.now) (2 ^ 64 - 1) }
{
    let mut count = 0usize;
    for lane in lanes {
        count = count.saturating_add(lane.columns().len());
    }
    count
}

fn put_inputs(page: &mut Page, top: u32, inputs: &Inputs) -> Result<(), Memory>
    ensures { OnOk result (page.new ≡ page.old ++ inputs_group top inputs.now.text) }
{
    page.fill(INPUTS, &[Number(top), Raw(inputs.text.bytes())])
}

// Draws the tables side by side.
fn put_tables(page: &mut Page, top: u32, tables: &Tables) -> Result<(), Memory>
    requires { HaveRoom tables.now }
    ensures { OnOk result (page.new ≡ page.old
        ++ tables_text top tables.now.agents.rows.items tables.now.variables.rows.items tables.now.streams.rows.items) }
{
    let Tables {
        agents,
        variables,
        streams,
    } = tables;
    agents.draw(page, Corner { left: MARGIN, top })?;
    let left = behind(MARGIN, agents);
    variables.draw(page, Corner { left, top })?;
    let left = behind(left, variables);
    streams.draw(page, Corner { left, top })?;
    Ok(())
}

// Where the next table begins behind one that begins here.
fn behind(left: u32, table: &Table) -> u32
    requires { left ≤ 900000 }
    ensures place { result ≡ behind_table left (table_width (titles_of table.now.heads) table.now.rows.items) }
    ensures above { left ≤ result }
    ensures near { result ≤ left + 3000 }
{
    match table.width() {
        0 => left,
        width => left + width + TABLE_GAP,
    }
}
