// The calls of gatemap_host for C, one export for each, with its clauses: what the archive has. include/gatemap_host.h says them in C.
#![tactic(auto)]

ghost use Rattle.std.specs.Prelude.{◌≡◌, length};
ghost use Rattle.gatemap_host.specs.CellCall.{host_cell_number, host_cell_buffer, host_cell_table};
ghost use Rattle.gatemap_host.specs.LoadCall.{host_load_number};
ghost use Rattle.gatemap_host.specs.SeasonCall.{host_season_number, host_season_buffer, host_season_table};
ghost use Rattle.gatemap_host.specs.SetPoint.{host_number, host_buffer, host_table};
ghost use Rattle.load.specs.Load.{load_buffer, load_table};
ghost use Rattle.map_writing.specs.Answer.{length_or_number};

#[unsafe(no_mangle)]
pub extern "C" fn gatemap_set_point(file: &[u8], s: u64, t: u64, out: &mut [u8]) -> u64
    ensures number { result ≡ host_number file.now s t out.old }
    ensures buffer { out.new ≡ host_buffer file.now s t out.old }
    ensures told { result ≡ (host_table file.now s t (length out.old)).number }
{
    gatemap_host::gatemap_set_point(file, s, t, out)
}

#[unsafe(no_mangle)]
pub extern "C" fn gatemap_cell(file: &[u8], cell: u8, out: &mut [u8]) -> u64
    ensures number { result ≡ host_cell_number file.now cell out.old }
    ensures buffer { out.new ≡ host_cell_buffer file.now cell out.old }
    ensures told { result ≡ (host_cell_table file.now cell (length out.old)).number }
{
    gatemap_host::gatemap_cell(file, cell, out)
}

#[unsafe(no_mangle)]
pub extern "C" fn gatemap_season(season: &[u8], minute: u32, out: &mut [u8]) -> u64
    ensures number { result ≡ host_season_number season.now minute out.old }
    ensures buffer { out.new ≡ host_season_buffer season.now minute out.old }
    ensures told { result ≡ (host_season_table season.now minute (length out.old)).number }
{
    gatemap_host::gatemap_season(season, minute, out)
}

#[unsafe(no_mangle)]
pub extern "C" fn gatemap_load(seed: u64, edits: u64, out: &mut [u8]) -> u64
    ensures number { result ≡ host_load_number seed edits out.old }
    ensures buffer { out.new ≡ load_buffer seed edits out.old }
    ensures told { result ≡ length_or_number (load_table seed edits (length out.old)) }
{
    gatemap_host::gatemap_load(seed, edits, out)
}
