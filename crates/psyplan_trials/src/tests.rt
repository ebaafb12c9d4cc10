//! What was worked out by hand of graphs, weights and lines.

mod demands;
mod rates;
mod weighing;
