// What bench/ times of the report. It stands apart from bench_host: the report calls `subs`, and with another caller of it in the archive the rows by value read otherwise (bench/README.md).
#![tactic(auto)]

use report::report;

// No report is longer.
const REPORT_BYTES: usize = 32768;

// A total with a length and a byte added, kept below 2 to the 34th.
fn counted(total: u64, length: usize, byte: u8) -> u64 {
    total % 0x1_0000_0000 + (length as u64) % 0x1_0000_0000 + (byte as u64)
}

// The report of a map file, so many times: the sum of its lengths and of one byte of each.
#[unsafe(no_mangle)]
pub extern "C" fn bench_reports(file: &[u8], repeats: u64) -> u64 {
    let mut text = [0u8; REPORT_BYTES];
    let mut total = 0;
    for turn in 0..repeats {
        let end = report(file, &mut text);
        let byte = text[turn as usize % REPORT_BYTES];
        total = counted(total, end, byte);
    }
    total
}
