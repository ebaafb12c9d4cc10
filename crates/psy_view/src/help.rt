//! What psyview says of itself.

/// What there is.
pub const HELP: &[u8] =
    b"psyview explains what psyc refused, draws what psyc wrote, and tells what a program is.
  psyview run PROGRAM ..      does what `psyc run` does, and explains a line that refuses
  psyview check PROGRAM ..    does what `psyc check` does, likewise
  psyview where FILE LINE..   shows where the line that psyc wrote points to in FILE,
                              the program, the inputs or the script, and says what it means
  psyview timeline LOG [PROGRAM [INPUTS]] [FROM TO] [NAME..]
                              draws what `psyc run` wrote as a picture, an SVG file: the dates
                              FROM to TO, and variables, streams or agents of these names; by
                              PROGRAM what is silent is dashed, and by INPUTS inputs are drawn
  psyview csv LOG             writes it as a table
  psyview vcd LOG             writes it as a dump, for viewers of waveforms
  psyview diff LOG LOG        tells the first line in which two runs differ
  psyview expect LOG FILE     tells the first assertion in FILE that a run doesn't keep
  psyview dot GRAPH [PROGRAM] draws what `psyc graph` wrote as a text for Graphviz; by PROGRAM
                              folded by point, with lines of its text
  psyview flow PROGRAM        draws who feeds whom in a program, for Graphviz too
  psyview list PROGRAM        lists the instructions of its actions, with their numbers
  psyview report PROGRAM UNTIL  reports on it, up to a date: costs, demand, sizes, warnings
  psyview --help, --version   say this, and the version
It writes to its output. It ends with 0 where it did what was asked, 1 where a text or a
line isn't in form, a program is refused, runs differ or an assertion isn't kept, 2 for
other words, 3 where a file can't be read, 4 where a write failed, 8 where memory ran
out. docs/psyview.md tells more.
";

/// The version of psyc and of psyview.
pub const VERSION: &[u8] = b"psyview 0.10.0\n";
