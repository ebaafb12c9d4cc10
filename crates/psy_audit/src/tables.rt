//! What is found in the lines of a trace, by kind, and by whose it is.
ghost use Rattle.std.specs.Prelude.{◌≡◌, ◌≤◌, ◌++◌, length, not, IfOk, OnOk, option_to_list};
ghost use Rattle.std.specs.List.{prefix_len};
ghost use Rattle.psy_audit.specs.Traces.{act_in, acts, body, is_end, look_in, looks, publication_in, publications, segment_in, segments};

pub mod rows;

use crate::said::{Act, Look, Publication, Said, Segment};
use psy_base::{Items, Memory};
use std::alloc::Global;

/// The actions that the lines tell of.
pub fn acts_in(alloc: Global, lines: &[Option<Said>]) -> Result<Items<Act>, Memory>
    ensures { IfOk result (λ found. found ≡ acts lines.now) }
{
    let mut found = Items::new(alloc);
    'lines: for line in body(lines) {
        add_act(&mut found, line)?;
    }
    Ok(found)
}

/// Their publications.
pub fn publications_in(alloc: Global, lines: &[Option<Said>]) -> Result<Items<Publication>, Memory>
    ensures { IfOk result (λ found. found ≡ publications lines.now) }
{
    let mut found = Items::new(alloc);
    'lines: for line in body(lines) {
        add_publication(&mut found, line)?;
    }
    Ok(found)
}

/// Their stretches of cycles.
pub fn segments_in(alloc: Global, lines: &[Option<Said>]) -> Result<Items<Segment>, Memory>
    ensures { IfOk result (λ found. found ≡ segments lines.now) }
{
    let mut found = Items::new(alloc);
    'lines: for line in body(lines) {
        add_segment(&mut found, line)?;
    }
    Ok(found)
}

/// Their looks.
pub fn looks_in(alloc: Global, lines: &[Option<Said>]) -> Result<Items<Look>, Memory>
    ensures { IfOk result (λ found. found ≡ looks lines.now) }
{
    let mut found = Items::new(alloc);
    'lines: for line in body(lines) {
        add_look(&mut found, line)?;
    }
    Ok(found)
}

// The lines before the first that ends the trace.
fn body(lines: &[Option<Said>]) -> &[Option<Said>]
    ensures { result.now ≡ body lines.now }
{
    lines.split_at(body_len(lines)).0
}

fn body_len(lines: &[Option<Said>]) -> usize
    ensures value { result ≡ prefix_len (λ line. not (is_end line)) lines.now }
    ensures within { result ≤ length lines.now }
{
    lines.iter().take_while(|line| !is_end(line)).count()
}

/// The line ends the trace.
pub fn is_end(line: &Option<Said>) -> bool
    ensures { result ≡ is_end line.now }
{
    match line {
        Some(Said::Ended) => true,
        _ => false,
    }
}

// Adds the action that a line tells of.
fn add_act(found: &mut Items<Act>, line: &Option<Said>) -> Result<(), Memory>
    ensures { OnOk result (found.new ≡ found.old ++ act_in line.now) }
{
    if let Some(Said::Acted(act)) = line {
        found.push(*act)?;
    }
    Ok(())
}

// Adds the publication that a line tells of.
fn add_publication(found: &mut Items<Publication>, line: &Option<Said>) -> Result<(), Memory>
    ensures { OnOk result (found.new ≡ found.old ++ publication_in line.now) }
{
    if let Some(Said::Published(publication)) = line {
        found.push(*publication)?;
    }
    Ok(())
}

/// Adds the stretch that a line tells of.
pub fn add_segment(found: &mut Items<Segment>, line: &Option<Said>) -> Result<(), Memory>
    ensures { OnOk result (found.new ≡ found.old ++ segment_in line.now) }
{
    if let Some(Said::Served(segment)) = line {
        found.push(*segment)?;
    }
    Ok(())
}

// Adds the look that a line tells of.
fn add_look(found: &mut Items<Look>, line: &Option<Said>) -> Result<(), Memory>
    ensures { OnOk result (found.new ≡ found.old ++ look_in line.now) }
{
    if let Some(Said::Looked(look)) = line {
        found.push(*look)?;
    }
    Ok(())
}

/// The action that a line tells of, where it tells of one.
pub fn act_in(line: &Option<Said>) -> Option<Act>
    ensures { option_to_list result ≡ act_in line.now }
{
    match line {
        Some(Said::Acted(act)) => Some(*act),
        _ => None,
    }
}

/// The publication that a line tells of, where it tells of one.
pub fn publication_in(line: &Option<Said>) -> Option<Publication>
    ensures { option_to_list result ≡ publication_in line.now }
{
    match line {
        Some(Said::Published(publication)) => Some(*publication),
        _ => None,
    }
}

/// The stretch that a line tells of, where it tells of one.
pub fn segment_in(line: &Option<Said>) -> Option<Segment>
    ensures { option_to_list result ≡ segment_in line.now }
{
    match line {
        Some(Said::Served(segment)) => Some(*segment),
        _ => None,
    }
}
