// The season file: which map is to be used at which minute. The places and sizes are those of docs/FORMATS.md.
#![tactic(auto)]

ghost use Rattle.std.specs.Prelude.{◌≡◌, ◌≤◌, ◌<◌};
ghost use Rattle.counted_file.specs.Counted.{file_told};
ghost use Rattle.season.specs.Season.{most_windows, window_of, days_wrong, holds_with_one, clashes, checked_season, season_table, map_among, season_map, season_told, season_map_table};

use big_endian::{after, byte_at, length_at, pair_at};
use control_point::refusal::Refusal;
use counted_file::{VERSION_AT, counted_right};
use season_window::Window;

const THE_VERSION: u8 = 1;

const WINDOWS_AT: usize = 5;

const WINDOW_BYTES: usize = 13;

const MOST_WINDOWS: usize = 64;

// Within a window.
const CLOSING_IN: usize = 4;

const MAP_IN: usize = 8;

const FIRST_IN: usize = 9;

const LAST_IN: usize = 11;

// The window of a number, from 0.
fn window_of(season: &[u8], n: usize) -> Window
    requires { n < most_windows }
    ensures { result ≡ window_of season.now n }
{
    let place = after(season, WINDOWS_AT + n * WINDOW_BYTES);
    let opening = length_at(place, 0) as u32;
    let closing = length_at(place, CLOSING_IN) as u32;
    let map = byte_at(place, MAP_IN);
    let first = pair_at(place, FIRST_IN) as u32;
    let last = pair_at(place, LAST_IN) as u32;
    Window {
        opening,
        closing,
        map,
        first,
        last,
    }
}

// Whether a first or last minute of the day of one of the first so many windows is past the day.
fn days_wrong(season: &[u8], count: usize) -> bool
    requires { count ≤ most_windows }
    ensures { result ≡ days_wrong season.now count }
{
    for n in (0..count).rev() {
        if window_of(season, n).past_day() {
            return true;
        }
    }
    false
}

// Whether a window holds in some common minute with one of the first so many.
fn holds_with_one(season: &[u8], count: usize, window: Window) -> bool
    requires { count ≤ most_windows }
    ensures { result ≡ holds_with_one season.now count window }
{
    for n in (0..count).rev() {
        if window.holds_with(window_of(season, n)) {
            return true;
        }
    }
    false
}

// Whether, of the first so many windows, one can hold in no minute, or holds in some common minute with one before it.
fn clashes(season: &[u8], count: usize) -> bool
    requires { count ≤ most_windows }
    ensures { result ≡ clashes season.now count }
{
    for n in (0..count).rev() {
        let window = window_of(season, n);
        if !window.can_hold() {
            return true;
        }
        if holds_with_one(season, n, window) {
            return true;
        }
    }
    false
}

// A season's count of windows, or why it is refused.
pub fn check_season(season: &[u8]) -> Result<usize, Refusal>
    ensures is { result ≡ checked_season season.now }
    ensures told { file_told result ≡ season_table season.now }
{
    if !counted_right(season, WINDOWS_AT, WINDOW_BYTES, MOST_WINDOWS) {
        return Err(Refusal::Length);
    }
    let count = (season.len() - WINDOWS_AT) / WINDOW_BYTES;
    if days_wrong(season, count) {
        return Err(Refusal::Length);
    }
    if byte_at(season, VERSION_AT) != THE_VERSION {
        return Err(Refusal::Version);
    }
    if clashes(season, count) {
        return Err(Refusal::Clash);
    }
    Ok(count)
}

// The map of the window that holds at a minute, of the first so many.
fn map_among(season: &[u8], minute: u32, count: usize) -> Result<u8, Refusal>
    requires { count ≤ most_windows }
    ensures { result ≡ map_among season.now minute count }
{
    for n in (0..count).rev() {
        let window = window_of(season, n);
        if window.holds(minute) {
            return Ok(window.map);
        }
    }
    Err(Refusal::Shut)
}

// The map of a season at a minute, or why there is none.
pub fn season_map(season: &[u8], minute: u32) -> Result<u8, Refusal>
    ensures is { result ≡ season_map season.now minute }
    ensures told { season_told result ≡ season_map_table season.now minute }
{
    let count = check_season(season)?;
    map_among(season, minute, count)
}
