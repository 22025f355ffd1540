// The report of a map file, as the program prints it.
#![tactic(auto)]

ghost use Rattle.std.specs.Prelude.{◌≡◌, ◌≤◌, length};
ghost use Rattle.big_endian.specs.Written.{written};
ghost use Rattle.map_format.specs.Format.{most_edits};
ghost use Rattle.report_text.specs.Put.{Put, Fits};
ghost use Rattle.report.specs.Report.{map_report, file_refused, valid_report, report_of};

use census::counts::counts;
use control_point::refusal::Refusal;
use map_format::format::{MOST_EDITS, validate};
use map_run::run_edits;
use report_lines::lines::{put_counts_line, put_edit_lines, put_mid_line, put_open_lines};
use report_text::text::{put_refused, put_text};
use set_point::set_point;
use t_mesh::t_mesh::{Tmesh, store_of};

// What is printed of the map that a run leaves.
fn put_map_report(out: &mut [u8], at: usize, map: Tmesh) -> usize
    requires { Fits at (map_report map) }
    ensures { Put out.old at (map_report map) out.new result }
{
    let counted = put_counts_line(out, at, counts(map));
    let opened = put_open_lines(out, counted, store_of(map.mesh));
    let given = set_point(map, 0.5, 0.5);
    let mid = given.answer;
    put_mid_line(out, opened, mid)
}

// What is printed of a valid file, by its count of edits.
fn put_valid(out: &mut [u8], file: &[u8], count: usize) -> usize
    requires few { count ≤ most_edits }
    requires fits { Fits 0 (valid_report file.now count) }
    ensures { Put out.old 0 (valid_report file.now count) out.new result }
{
    let mut numbers = [0u8; MOST_EDITS];
    let map = run_edits(file, count, &mut numbers);
    let end = put_edit_lines(out, 0, &numbers[..count]);
    put_map_report(out, end, map)
}

// What is printed of a refused file.
fn put_file_refused(out: &mut [u8], refusal: Refusal) -> usize
    requires { Fits 0 (file_refused refusal) }
    ensures { Put out.old 0 (file_refused refusal) out.new result }
{
    let word = put_text(out, 0, b"file");
    let end = put_refused(out, word, refusal.number());
    put_text(out, end, b"\n")
}

// Writes the report of a file into a buffer, as far as the buffer reaches, and answers the report's length.
pub fn report(file: &[u8], out: &mut [u8]) -> usize
    ensures { (result ≡ length (report_of file.now)) × (out.new ≡ written out.old 0 (report_of file.now)) }
{
    match validate(file) {
        Err(refusal) => put_file_refused(out, refusal),
        Ok(count) => put_valid(out, file, count),
    }
}
