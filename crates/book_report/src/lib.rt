// What `book_check` prints of a book.
#![tactic(auto)]

ghost use Rattle.std.specs.Prelude.{◌≡◌, ℕ, ◌++◌, length, drop, IfOk, OnOk, Some};
ghost use Rattle.lines.specs.Lines.{text};
ghost use Rattle.book_report.specs.Report.{site_of, sentence, count_lines, closing, Listed, Reported};

use book::reader::{HEADER, word_at};
use book::records::Records;
use book::survey::survey;
use book::types::{Ending, Fault, Tally};
use calls::command::Family;
use calls::layout::fields_of;
use lines::line::Line;
use lines::{bad_line, command_line, count_line, end_line};
use std::alloc::{AllocError, Global};
use std::fmt;

pub mod site;

use site::{FaultAt, Site};

impl Site {
    fn new(book: &[u8], place: usize) -> Site
        ensures { result ≡ site_of (length book.now) place (drop place book.now) }
    {
        let rest = book.get(place..).unwrap_or(&[]);
        let kind = word_at(rest, 2);
        Site {
            size: book.len(),
            place,
            left: rest.len(),
            said: word_at(rest, 0),
            kind,
            due: HEADER + 2 * fields_of(kind),
        }
    }
}

// What is wrong there, in one sentence.
impl fmt::Display for FaultAt {
    ghost output = { λ x. Some (sentence x.site x.fault) };

    fn fmt<W: fmt::Write>(&self, f: &mut fmt::Formatter<W>) -> fmt::Result {
        let Site {
            size,
            place,
            left,
            said,
            kind,
            due,
        } = self.site;
        match self.fault {
            Fault::TooLarge => writeln!(
                f,
                "The book has {size} bytes, and the largest book has 65536."
            ),
            Fault::BadLength if left < 6 => writeln!(
                f,
                "The record at byte {place} is cut short: only {left} of at least 6 bytes remain."
            ),
            Fault::BadLength if said < 6 => writeln!(
                f,
                "The record at byte {place} gives its length as {said}, and no record has fewer than 6 bytes."
            ),
            Fault::BadLength => writeln!(
                f,
                "The record at byte {place} gives its length as {said}, and only {left} bytes remain."
            ),
            Fault::UnknownKind => writeln!(
                f,
                "The record at byte {place} is of kind {kind}, and the kinds are 1 to 30."
            ),
            Fault::WrongFieldCount => writeln!(
                f,
                "The record at byte {place} gives its length as {said}, and a record of kind {kind} has {due} bytes."
            ),
        }
    }
}

fn put_line(out: &mut Vec<u8>, line: Line) -> Result<(), AllocError>
    ensures { OnOk result (out.new.items ≡ out.old.items ++ text line) }
{
    out.extend_from_slice(line.as_bytes())
}

// A line for each record, from the first byte of the book to where its reading stops.
fn record_lines(heap: Global, book: &[u8]) -> Result<Vec<u8>, AllocError>
    ensures { IfOk result (λ out. Listed book.now out.items) }
{
    let mut out = Vec::new(heap);
    for record in Records::new(book) {
        put_line(
            &mut out,
            command_line(record.place(), record.command().unwrap()),
        )?;
    }
    Ok(out)
}

// How many records of each family there are, a line each.
fn put_counts(out: &mut Vec<u8>, tally: Tally) -> Result<(), AllocError>
    ensures { OnOk result (out.new.items ≡ out.old.items ++ count_lines tally) }
{
    put_line(out, count_line(Family::Directory, tally.directory))?;
    put_line(out, count_line(Family::Consent, tally.consent))?;
    put_line(out, count_line(Family::Session, tally.session))?;
    put_line(out, count_line(Family::Question, tally.question))
}

// What is wrong at a place of a book, in one sentence.
fn put_sentence(out: &mut Vec<u8>, fault: FaultAt) -> Result<(), AllocError>
    ensures { OnOk result (out.new.items ≡ out.old.items ++ sentence fault.site fault.fault) }
{
    let sentence = format!(in *out.allocator(); "{fault}")?;
    out.extend_from_slice(sentence.as_bytes())
}

// The last lines: where the book ends, or what is wrong with it and where.
fn put_closing(out: &mut Vec<u8>, book: &[u8], ending: Ending) -> Result<(), AllocError>
    ensures { OnOk result (out.new.items ≡ out.old.items ++ closing book.now ending) }
{
    match ending {
        Ok(length) => put_line(out, end_line(length)),
        Err(damage) => {
            let site = Site::new(book, damage.place);
            let fault = damage.fault;
            put_sentence(out, FaultAt { site, fault })?;
            put_line(out, bad_line(damage))
        }
    }
}

// All that is printed of a book.
pub fn report(heap: Global, book: &[u8]) -> Result<Vec<u8>, AllocError>
    ensures { IfOk result (λ out. Reported book.now out.items) }
{
    let mut out = record_lines(heap, book)?;
    let survey = survey(book);
    put_counts(&mut out, survey.tally)?;
    put_closing(&mut out, book, survey.ending)?;
    Ok(out)
}
