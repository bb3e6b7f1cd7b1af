//! Where a report differs from the one that is wanted, line by line.

use explain_notes::visible_text;
use report_forms::lines_in;
use std::alloc::{AllocError, Global};

/// The most lines that are shown of two texts.
const MAX_LINES: usize = 20;

/// How many lines further on, in both texts together, a line is looked for that both have.
const MAX_AHEAD: usize = 64;

/// The text that a line is of.
#[derive(Clone, Copy)]
enum Side {
    Wanted,
    Found,
}

/// The lines of two texts that aren't compared yet.
#[derive(Clone, Copy)]
struct Rest<'l, 't> {
    wanted: &'l [&'t [u8]],
    found: &'l [&'t [u8]],
}

/// Lines that differ, of each text.
#[derive(Clone, Copy)]
struct Differing {
    wanted: usize,
    found: usize,
}

impl<'l, 't> Rest<'l, 't> {
    fn is_empty(self) -> bool {
        self.wanted.is_empty() && self.found.is_empty()
    }

    /// Whether these lines are the same.
    fn are_alike(self, lines: Differing) -> bool {
        match (self.wanted.get(lines.wanted), self.found.get(lines.found)) {
            (Some(wanted), Some(found)) => *wanted == *found,
            (Some(_), None) | (None, Some(_)) | (None, None) => false,
        }
    }

    /// How many lines of each differ before the nearest that both have; all lines, where none is near.
    fn differing(self) -> Differing {
        for ahead in 0..MAX_AHEAD {
            for wanted in 0..ahead + 1 {
                let lines = Differing {
                    wanted,
                    found: ahead - wanted,
                };
                if self.are_alike(lines) {
                    return lines;
                }
            }
        }
        Differing {
            wanted: self.wanted.len(),
            found: self.found.len(),
        }
    }

    /// What comes after these lines and the one that both have.
    fn after(self, lines: Differing) -> Rest<'l, 't> {
        Rest {
            wanted: after_line(self.wanted, lines.wanted),
            found: after_line(self.found, lines.found),
        }
    }
}

/// What comes after a line.
fn after_line<'l, 't>(lines: &'l [&'t [u8]], line: usize) -> &'l [&'t [u8]] {
    let begin = line.saturating_add(1).min(lines.len());
    lines.get(begin..).unwrap_or(lines)
}

/// Writes so many lines that a text begins with, at most as many as may still be written; returns how many may be then,
/// or nothing where there was no room for all.
fn put_lines(
    alloc: Global,
    out: &mut String,
    side: Side,
    lines: &[&[u8]],
    count: usize,
    left: usize,
) -> Result<Option<usize>, AllocError> {
    for line in lines.iter().take(count.min(left)) {
        out.push_str(match side {
            Side::Wanted => "  - ",
            Side::Found => "  + ",
        })?;
        out.push_str(visible_text(alloc, line)?.as_str())?;
        out.push_str("\n")?;
    }
    Ok(left.checked_sub(count))
}

/// Writes the lines of both texts that differ here, as `put_lines` does.
fn put_differing(
    alloc: Global,
    out: &mut String,
    rest: Rest<'_, '_>,
    lines: Differing,
    left: usize,
) -> Result<Option<usize>, AllocError> {
    match put_lines(alloc, out, Side::Wanted, rest.wanted, lines.wanted, left)? {
        Some(left) => put_lines(alloc, out, Side::Found, rest.found, lines.found, left),
        None => Ok(None),
    }
}

/// Writes the lines in which a report differs from the one that is wanted, at most 20: behind `-` those that are wanted,
/// behind `+` those that were found.
pub fn put_differences<'t>(
    alloc: Global,
    out: &mut String,
    wanted: &'t [u8],
    found: &'t [u8],
) -> Result<(), AllocError> {
    let (wanted, found) = (lines_in(alloc, wanted)?, lines_in(alloc, found)?);
    let mut rest = Rest {
        wanted: &wanted,
        found: &found,
    };
    let mut left = MAX_LINES;
    for _ in 0..wanted.len().saturating_add(found.len()) {
        if rest.is_empty() {
            break;
        }
        let lines = rest.differing();
        match put_differing(alloc, out, rest, lines, left)? {
            Some(room) => left = room,
            None => return out.push_str("  ..\n"),
        }
        rest = rest.after(lines);
    }
    Ok(())
}
