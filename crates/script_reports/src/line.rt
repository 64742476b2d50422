//! The shape that most lines have: a word, and values after it, a blank before each.
//!
//! A `write!` is proved anew at each place that has one, piece by piece. So each count of values is spelled out here once, and a
//! line that has that count is one call.
ghost use Rattle.std.specs.Fmt.{DisplaysOnOk};
ghost use Rattle.script_reports.specs.Line.{line_one, line_two, line_three, line_four};

use std::fmt;

/// Writes a word and one value.
pub(crate) fn write_one<W: fmt::Write, A: fmt::Display>(
    f: &mut fmt::Formatter<W>,
    word: &str,
    value: &A,
) -> fmt::Result
    ensures { DisplaysOnOk W.write_str_gives f.old result (line_one word.now (A.output value.now)) f.new }
{
    write!(f, "{word} {value}")
}

/// Writes a word and two values.
pub(crate) fn write_two<W: fmt::Write, A: fmt::Display, B: fmt::Display>(
    f: &mut fmt::Formatter<W>,
    word: &str,
    first: &A,
    second: &B,
) -> fmt::Result
    ensures { DisplaysOnOk W.write_str_gives f.old result (line_two word.now (A.output first.now) (B.output second.now)) f.new }
{
    write!(f, "{word} {first} {second}")
}

/// Writes a word and three values.
pub(crate) fn write_three<W: fmt::Write, A: fmt::Display, B: fmt::Display, C: fmt::Display>(
    f: &mut fmt::Formatter<W>,
    word: &str,
    first: &A,
    second: &B,
    third: &C,
) -> fmt::Result
    ensures { DisplaysOnOk W.write_str_gives f.old result (line_three word.now (A.output first.now) (B.output second.now) (C.output third.now)) f.new }
{
    write!(f, "{word} {first} {second} {third}")
}

/// Writes a word and four values.
pub(crate) fn write_four<
    W: fmt::Write,
    A: fmt::Display,
    B: fmt::Display,
    C: fmt::Display,
    D: fmt::Display,
>(
    f: &mut fmt::Formatter<W>,
    word: &str,
    first: &A,
    second: &B,
    third: &C,
    fourth: &D,
) -> fmt::Result
    ensures { DisplaysOnOk W.write_str_gives f.old result (line_four word.now (A.output first.now) (B.output second.now) (C.output third.now) (D.output fourth.now)) f.new }
{
    write!(f, "{word} {first} {second} {third} {fourth}")
}
