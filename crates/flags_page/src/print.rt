// The page as text on standard output.
use crate::row::{Done, Row};
use flags::{FlagKind, Phase};
use std::fmt::Display;
use std::io;
use verdicts::verdict::Verdict;

// How wide the last four columns are, the gap behind each included.
const NARROW: usize = 12;

const WIDE: usize = 17;

const LAST: usize = 0;

// A text and spaces up to a width.
fn left(rt: &impl Print, s: &str, width: usize) -> io::Result<()> {
    print!(rt; "{s:<width$}")
}

pub(crate) fn title(rt: &impl Print) -> io::Result<()> {
    rt.print("What the flags of a TCP segment count as, and what tracking does with it.\n\n")?;
    rt.print("                            where its conversation is\n")?;
    rt.print("FIN SYN RST ACK  counts as  not held    Opening          Running          Closing\n")
}

// A name in its column, or a dash.
fn flag(rt: &impl Print, set: bool, name: &str) -> io::Result<()> {
    left(rt, if set { name } else { " -" }, 4)
}

fn counts_as(rt: &impl Print, f: Option<FlagKind>) -> io::Result<()> {
    rt.print(match f {
        None => " wrong      ",
        Some(FlagKind::Open) => " open       ",
        Some(FlagKind::Carry) => " carry      ",
        Some(FlagKind::End) => " end        ",
        Some(FlagKind::Reset) => " reset      ",
    })
}

// A verb and what it is of, and spaces up to a width.
fn verb(rt: &impl Print, verb: &str, of: impl Display + Copy, width: usize) -> io::Result<()> {
    let rest = width.saturating_sub(verb.len());
    print!(rt; "{verb}{of:<rest$}")
}

// As `worked` says them: each program has the words of its page.
fn name(f: Phase) -> &'static str {
    match f {
        Phase::Opening => "Opening",
        Phase::Running => "Running",
        Phase::Closing => "Closing",
    }
}

// What becomes of a segment and of its conversation, which was held in the state before.
fn cell(rt: &impl Print, before: Option<Phase>, d: Done, width: usize) -> io::Result<()> {
    if d.verdict != Verdict::ALLOWED {
        return verb(rt, "blocked ", d.verdict, width);
    }
    match (before, d.state) {
        (_, None) => left(rt, "is removed", width),
        (None, Some(_)) => left(rt, "is opened", width),
        (Some(f), Some(g)) if f == g => verb(rt, "stays ", name(g), width),
        (Some(_), Some(g)) => verb(rt, "becomes ", name(g), width),
    }
}

pub(crate) fn line(rt: &impl Print, r: Row) -> io::Result<()> {
    flag(rt, r.fin, "FIN")?;
    flag(rt, r.syn, "SYN")?;
    flag(rt, r.rst, "RST")?;
    flag(rt, r.ack, "ACK")?;
    counts_as(rt, r.flags)?;
    cell(rt, None, r.nothing, NARROW)?;
    cell(rt, Some(Phase::Opening), r.opening, WIDE)?;
    cell(rt, Some(Phase::Running), r.running, WIDE)?;
    cell(rt, Some(Phase::Closing), r.closing, LAST)?;
    rt.print("\n")
}

pub(crate) fn legend(rt: &impl Print) -> io::Result<()> {
    rt.print(
        "\nMeant is the rule that decides the segment, if it tracks; its action and its rate come first.\n",
    )?;
    rt.print(
        "A segment that is not blocked passes; its conversation, if it is held then, has age 0.\n",
    )?;
    rt.print("is opened   held as Opening in the rule's first free place;\n")?;
    rt.print("            if none is free or its socket is at its number: blocked 5, event 61\n")?;
    rt.print("is removed  held no longer, and its place is free\n")?;
    rt.print(
        "blocked     40 wrong flags, 41 no such conversation, 42 not in this state: event 63,\n",
    )?;
    rt.print("            and the segment changes no conversation\n")?;
    rt.print("The other flags of a segment make no difference.\n")
}
