//! The verifier: what it means that code of any origin is verified, and what its runs then keep. `verify` judges the code of an image.
//! It may know units, code, ways and images; no text, no compiler.
#![tactic(auto)]

pub mod laws;
mod verifying;

pub use psy_judge::VerifyFault;
pub use verifying::{Checked, verify};
