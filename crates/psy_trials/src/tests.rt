//! The way from text to machine, by tables of small programs.

mod code;
mod depths;
mod exchanges;
mod flow;
mod processors;
mod resumes;
mod tokens;
mod trees;
mod ways;
mod widths;
