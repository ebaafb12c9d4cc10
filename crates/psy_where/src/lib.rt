//! Explains a refusal of psyc: where it is in the text, by line and column, what it means, and what may stand there; and each other line that
//! psyc writes.
//! It may know texts, tokens, the notes of lines, the numbers of refusals, advice, what is told of rules, and how a line is shown; no grammar.
#![tactic(auto)]

mod answer;
mod brace;
mod broken;
mod byte;
mod fault;
mod help;
mod indent;
mod lack;
mod limit;
mod mark;
mod place;
mod plain;
mod program;
mod recall;
mod sentence;
mod unsound;
mod untrue;
mod with_feed;
mod written;

pub use answer::{explain, plain_told};
pub use broken::Broken;
pub use byte::ByteSlip;
pub use fault::WhereFault;
pub use indent::Pair;
pub use lack::Lack;
pub use limit::Limit;
pub use plain::{Plain, plain_of};
pub use program::beside;
pub use recall::{Refusal, What};
pub use unsound::Unsound;
pub use untrue::Untrue;
pub use written::Written;
