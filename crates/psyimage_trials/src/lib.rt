//! Trials of code images: what is read of images that were spelled by hand, where changed bytes are bad, and what is written.
#![tactic(auto)]

#[cfg(test)]
mod images;
#[cfg(test)]
mod places;
#[cfg(test)]
mod written;
