//! What stands below the lanes.

/// The height of the line that tells how a picture is read.
pub const LEGEND_HEIGHT: u32 = 16;

/// The line that tells how a picture is read, at a height.
pub const LEGEND: &[u8] = b"<g class=\"notes\" transform=\"translate(0 $)\">
<text x=\"12\" y=\"12\">lines and boxes: the value up to the next one; dots: messages, +n are n more there; \
red: an agent was stopped, and is silent from there on</text>
</g>
";

/// The names of the variables without a value, at a height.
pub const INPUTS: &[u8] = b"<g class=\"notes\" transform=\"translate(0 $)\">\n$</g>\n";
