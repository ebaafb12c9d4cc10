//! What is told of the words of a command line, in sentences: each `$` is a hole.

pub const FORM: &[u8] = b"the form is `psyview $`";

pub const NO_OPTIONS: &[u8] =
    b"there are no options: files stand by their places, as in `psyview $`";

pub const OF_PSYC: &[u8] = b"`$` is a command of psyc, and none of psyview";

pub const NO_COMMAND: &[u8] = b"`$` is no command: `psyview --help` tells them all";

pub const NEAR_COMMAND: &[u8] = b"`$` is no command: is `$` meant?";

pub const MISSING: &[u8] = b"no $ stands behind `$`";

pub const LINE: &[u8] = b"LINE";

pub const SECOND_LOG: &[u8] = b"second LOG";

pub const EXTRA: &[u8] = b"`$` is one word too many";

pub const BEFORE: &[u8] = b"before the date `$` stands the program";

pub const TOO_GREAT: &[u8] = b"`$` is too great: 1000000 is the last date";

pub const NO_DATE: &[u8] = b"`$` is no date: a date is 1 to 12 digits, and at most 1000000";

pub const TIMELINE: &[u8] =
    b"behind the log stand files, each with a `.` or a `/` in its name, then two dates, and then names: all dates but these two are out of place";
