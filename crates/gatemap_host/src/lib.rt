// The calls of a C host: the bytes of a map file or of a season, what is asked of it, and a buffer that receives the answer; and a load, which a seed and a count stand for. include/gatemap_host.h says them in C.
#![tactic(auto)]

ghost use Rattle.std.specs.Prelude.{◌≡◌, ◌≤◌, ◌<◌, length, MatchResult};
ghost use Rattle.control_point.specs.Told.{number_of};
ghost use Rattle.gatemap_host.specs.CellCall.{host_cell_number, host_cell_buffer, host_cell_table};
ghost use Rattle.gatemap_host.specs.LoadCall.{host_load_number};
ghost use Rattle.gatemap_host.specs.SeasonCall.{host_season_number, host_season_buffer, host_season_table};
ghost use Rattle.gatemap_host.specs.SetPoint.{host_number, host_buffer, host_table};
ghost use Rattle.load.specs.Load.{load_buffer, load_table};
ghost use Rattle.map_writing.specs.Answer.{length_or_number};

use big_endian::put_byte;
use cell_bytes::write_cell;
use control_point::refusal::{Refusal, number_of};
use float64::from_bits;
use load::write_load;
use map_cell::file_cell;
use map_set_point::file_set_point;
use map_writing::length_or_number;
use season::season_map;
use value_bytes::write_value;

// A position and its weight, as they are written.
const VALUE_BYTES: usize = 32;

// The words of a cell and the count of their ones, as they are written.
const CELL_BYTES: usize = 17;

// A map's number, as it is written.
const MAP_NUMBER_BYTES: usize = 1;

// Whether a buffer has room for what a call writes: a short one is refused before anything else is looked at.
fn has_room(out: &[u8], bytes: usize) -> Result<(), Refusal>
    ensures { MatchResult result (λ _. bytes ≤ length out.now) (λ refusal. (refusal ≡ Refusal.Short) × (length out.now < bytes)) }
{
    if out.len() < bytes {
        return Err(Refusal::Short);
    }
    Ok(())
}

// What a call returns: 0 where its answer is written, or else its refusal's number.
fn call_number(written: Result<(), Refusal>) -> u64
    ensures { result ≡ number_of written }
{
    u64::from(number_of(&written))
}

// Writes a set-point, or says why there is none.
fn write_set_point(file: &[u8], s: u64, t: u64, out: &mut [u8]) -> Result<(), Refusal>
    ensures number { number_of result ≡ host_number file.now s t out.old }
    ensures buffer { out.new ≡ host_buffer file.now s t out.old }
    ensures told { number_of result ≡ (host_table file.now s t (length out.old)).number }
{
    has_room(out, VALUE_BYTES)?;
    let value = file_set_point(file, from_bits(s), from_bits(t))?;
    write_value(out, value);
    Ok(())
}

pub fn gatemap_set_point(file: &[u8], s: u64, t: u64, out: &mut [u8]) -> u64
    ensures number { result ≡ host_number file.now s t out.old }
    ensures buffer { out.new ≡ host_buffer file.now s t out.old }
    ensures told { result ≡ (host_table file.now s t (length out.old)).number }
{
    call_number(write_set_point(file, s, t, out))
}

// Writes a cell, or says why there is none.
fn write_file_cell(file: &[u8], cell: u8, out: &mut [u8]) -> Result<(), Refusal>
    ensures number { number_of result ≡ host_cell_number file.now cell out.old }
    ensures buffer { out.new ≡ host_cell_buffer file.now cell out.old }
    ensures told { number_of result ≡ (host_cell_table file.now cell (length out.old)).number }
{
    has_room(out, CELL_BYTES)?;
    let words = file_cell(file, cell)?;
    write_cell(out, words);
    Ok(())
}

pub fn gatemap_cell(file: &[u8], cell: u8, out: &mut [u8]) -> u64
    ensures number { result ≡ host_cell_number file.now cell out.old }
    ensures buffer { out.new ≡ host_cell_buffer file.now cell out.old }
    ensures told { result ≡ (host_cell_table file.now cell (length out.old)).number }
{
    call_number(write_file_cell(file, cell, out))
}

// Writes the number of a season's map at a minute, or says why there is none.
fn write_season_map(season: &[u8], minute: u32, out: &mut [u8]) -> Result<(), Refusal>
    ensures number { number_of result ≡ host_season_number season.now minute out.old }
    ensures buffer { out.new ≡ host_season_buffer season.now minute out.old }
    ensures told { number_of result ≡ (host_season_table season.now minute (length out.old)).number }
{
    has_room(out, MAP_NUMBER_BYTES)?;
    let map = season_map(season, minute)?;
    put_byte(out, 0, map);
    Ok(())
}

pub fn gatemap_season(season: &[u8], minute: u32, out: &mut [u8]) -> u64
    ensures number { result ≡ host_season_number season.now minute out.old }
    ensures buffer { out.new ≡ host_season_buffer season.now minute out.old }
    ensures told { result ≡ (host_season_table season.now minute (length out.old)).number }
{
    call_number(write_season_map(season, minute, out))
}

pub fn gatemap_load(seed: u64, edits: u64, out: &mut [u8]) -> u64
    ensures number { result ≡ host_load_number seed edits out.old }
    ensures buffer { out.new ≡ load_buffer seed edits out.old }
    ensures told { result ≡ length_or_number (load_table seed edits (length out.old)) }
{
    length_or_number(write_load(seed, edits, out))
}
