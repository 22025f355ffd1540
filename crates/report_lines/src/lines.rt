// The lines of a report, put into a lent buffer at a place, as far as the buffer reaches. Each function answers the place after its text.
ghost use Rattle.std.specs.Prelude.{◌<◌, ◌≤◌, length};
ghost use Rattle.map_format.specs.Format.{most_edits};
ghost use Rattle.openings.specs.Openings.{openings_of};
ghost use Rattle.report_text.specs.Put.{Put, Fits};
ghost use Rattle.report_text.specs.Text.{printed_below};
ghost use Rattle.report_lines.specs.Lines.{edit_line, edit_lines, counts_line, open_line, open_lines, value_text, mid_text, mid_line};

use census::census::Counts;
use control_point::refusal::Refusal;
use openings::openings::openings;
use report_text::text::{put_bits, put_labelled, put_number, put_refused, put_text};
use store::store::Store;
use surface::evaluation::Evaluation;

// The line of an edit, by its answer number: none where that is 0.
fn put_edit_line(out: &mut [u8], at: usize, edit: u64, number: u8) -> usize
    requires few { edit < printed_below }
    requires fits { Fits at (edit_line edit number) }
    ensures { Put out.old at (edit_line edit number) out.new result }
{
    if number == 0 {
        return at;
    }
    let named = put_labelled(out, at, b"edit", edit);
    let end = put_refused(out, named, number);
    put_text(out, end, b"\n")
}

// The lines of all edits, by their answer numbers.
pub fn put_edit_lines(out: &mut [u8], at: usize, numbers: &[u8]) -> usize
    requires few { length numbers.now ≤ most_edits }
    requires fits { Fits at (edit_lines 1 numbers.now) }
    ensures { Put out.old at (edit_lines 1 numbers.now) out.new result }
{
    let mut end = at;
    for i in 0..numbers.len() {
        end = put_edit_line(out, end, i as u64 + 1, numbers[i]);
    }
    end
}

pub fn put_counts_line(out: &mut [u8], at: usize, counts: Counts) -> usize
    requires few { counts.links < printed_below }
    requires fits { Fits at (counts_line counts) }
    ensures { Put out.old at (counts_line counts) out.new result }
{
    let made = put_labelled(out, at, b"made", u64::from(counts.made));
    let listed = put_labelled(out, made, b" listed", u64::from(counts.listed));
    let links = put_labelled(out, listed, b" links", u64::from(counts.links));
    put_text(out, links, b"\n")
}

// The line of an opening.
fn put_open_line(out: &mut [u8], at: usize, n: u8, direction: u8) -> usize
    requires { Fits at (open_line n direction) }
    ensures { Put out.old at (open_line n direction) out.new result }
{
    let point = put_labelled(out, at, b"open", u64::from(n));
    let end = put_number(out, point, u64::from(direction));
    put_text(out, end, b"\n")
}

// The lines of all openings, as they are listed.
pub fn put_open_lines(out: &mut [u8], at: usize, store: Store) -> usize
    requires { Fits at (open_lines (openings_of store)) }
    ensures { Put out.old at (open_lines (openings_of store)) out.new result }
{
    let list = openings(store);
    let count = usize::from(list.count);
    let mut end = at;
    for i in 0..count {
        end = put_open_line(out, end, list.points[i], list.directions[i]);
    }
    end
}

// The bits of a position and its weight.
fn put_value(out: &mut [u8], at: usize, value: Evaluation) -> usize
    requires { Fits at (value_text value) }
    ensures { Put out.old at (value_text value) out.new result }
{
    let x = put_bits(out, at, value.x);
    let y = put_bits(out, x, value.y);
    let z = put_bits(out, y, value.z);
    put_bits(out, z, value.weight)
}

fn put_mid_text(out: &mut [u8], at: usize, answer: Result<Evaluation, Refusal>) -> usize
    requires { Fits at (mid_text answer) }
    ensures { Put out.old at (mid_text answer) out.new result }
{
    match answer {
        Ok(value) => put_value(out, at, value),
        Err(refusal) => put_refused(out, at, refusal.number()),
    }
}

pub fn put_mid_line(out: &mut [u8], at: usize, answer: Result<Evaluation, Refusal>) -> usize
    requires { Fits at (mid_line answer) }
    ensures { Put out.old at (mid_line answer) out.new result }
{
    let word = put_text(out, at, b"mid");
    let end = put_mid_text(out, word, answer);
    put_text(out, end, b"\n")
}
