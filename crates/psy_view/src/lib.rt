//! `psyview`: explains what psyc refused, draws runs and graphs that psyc wrote, hands runs on, tries assertions on them, and tells what a
//! program is before it runs. It may know psy_notes, psy_where, psy_draw, psy_film, psy_table, psy_wave, psy_differ, psy_claims, psy_plan,
//! psy_script, psy_match, psy_feed, psy_listing, psy_report, and the door.
#![tactic(auto)]

mod asked;
mod export;
mod feeding;
mod fetching;
mod filming;
mod help;
mod log;
mod pair;
mod picture;
mod plan;
mod programs;
mod refusals;
mod told;
mod top;
mod view;
mod words;

pub use asked::{Asked, One, Selection, TEXT_BYTES, Two};
pub use top::psyview;
