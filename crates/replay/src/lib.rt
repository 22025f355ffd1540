// What the programs that replay stored cases share: the reading of the file of cases, the count of those that come out right, and the report.
#![tactic(auto)]

ghost use Rattle.std.specs.Prelude.{◌≡◌, ◌≤◌, ◌↔◌, length, take, drop, IfOk, IfSome, IsSome};
ghost use Rattle.std.specs.Fn.{FnReturnsAt};
ghost use Rattle.big_endian.specs.BigEndian.{number_at};
ghost use Rattle.replay.specs.Cases.{JudgesNext, sized_bytes, prefixed_bytes};
ghost use Rattle.replay.specs.Outcomes.{CountsOutcomes};

use big_endian::pair_at;
use reading::read_full;
use std::fs::File;
use std::io;
use std::io::Read;
use std::rt::Files;

// The length of a buffer that has room for every case whose length stands in two bytes.
const CASE_ROOM: usize = 65536;

// More cases than any file holds: the loop over them ends with the file.
const MOST_CASES: u64 = 1000000;

// How many cases came out right, and how many wrong.
#[derive(Clone, Copy)]
pub struct Tally {
    pub right: u64,
    pub wrong: u64,
}

impl Tally {
    ghost use Rattle.replay.specs.Tally.{counted};

    // A count stays where one more would not fit.
    fn counted(self, is_right: bool) -> Tally
        ensures { result ≡ counted self is_right }
    {
        let Tally { right, wrong } = self;
        if is_right {
            return Tally {
                right: right.saturating_add(1),
                wrong,
            };
        }
        Tally {
            right,
            wrong: wrong.saturating_add(1),
        }
    }
}

// Whether the next case, which fills a buffer, is right: none where the cases have ended. One that they end within is wrong.
fn judge_sized<R: Read, F: Fn(&[u8]) -> bool>(
    cases: &mut R,
    case: &mut [u8],
    is_right: &F,
) -> io::Result<Option<bool>>
    requires { F.IsAlwaysCallable is_right.now }
    ensures { IfOk result (JudgesNext (sized_bytes (length case.old)) 0 (FnReturnsAt F.Fn is_right.now) (R.remaining cases.old) (R.remaining cases.new)) }
{
    let read = read_full(cases, case)?;
    if read == 0 {
        return Ok(None);
    }
    Ok(Some(read == case.len() && is_right(case)))
}

// The same of a case that begins with two bytes for the length of the rest, which is judged alone.
fn judge_prefixed<R: Read, F: Fn(&[u8]) -> bool>(
    cases: &mut R,
    is_right: &F,
) -> io::Result<Option<bool>>
    requires { F.IsAlwaysCallable is_right.now }
    ensures { IfOk result (JudgesNext prefixed_bytes 2 (FnReturnsAt F.Fn is_right.now) (R.remaining cases.old) (R.remaining cases.new)) }
{
    let mut buffer = [0u8; CASE_ROOM];
    let mut prefix = [0u8; 2];
    match read_full(cases, &mut prefix)? {
        0 => return Ok(None),
        1 => return Ok(Some(false)),
        _ => {}
    }
    let rest = &mut buffer[..pair_at(&prefix, 0)];
    let read = read_full(cases, rest)?;
    Ok(Some(read == rest.len() && is_right(rest)))
}

// The part of a case whose length its first two bytes say, and what stands behind. None where the case ends before.
pub fn split_prefixed(case: &[u8]) -> Option<(&[u8], &[u8])>
    ensures given { IsSome result ↔ (prefixed_bytes case.now ≤ length case.now) }
    ensures part { IfSome result (λ parts. parts.0.now ≡ take (number_at 2 case.now 0) (drop 2 case.now)) }
    ensures behind { IfSome result (λ parts. parts.1.now ≡ drop (prefixed_bytes case.now) case.now) }
{
    let (_, rest) = case.split_at_checked(2)?;
    rest.split_at_checked(pair_at(case, 0))
}

// Counts the outcomes that a closure gives, until it gives none.
fn tally_of<N: FnMut() -> io::Result<Option<bool>>>(mut next: N) -> io::Result<Tally>
    requires { N.IsAlwaysCallable next }
    ensures { IfOk result (CountsOutcomes N.step next) }
{
    let mut tally = Tally { right: 0, wrong: 0 };
    for _ in 0..MOST_CASES {
        let Some(is_right) = next()? else {
            return Ok(tally);
        };
        tally = tally.counted(is_right);
    }
    Ok(tally)
}

fn report(rt: &impl Print, tally: Tally) -> io::Result<()> {
    let Tally { right, wrong } = tally;
    println!(rt; "right {right} wrong {wrong}")
}

// Judges each case of the file `cases`, in the folder that the program runs in, and prints how many are right.
pub fn run<R: Files + Print, F: Fn(&[u8]) -> bool>(rt: &R, is_right: F) -> io::Result<()>
    requires { F.IsAlwaysCallable is_right }
{
    let mut cases = File::open(rt, "cases")?;
    let tally = tally_of(
        ||
            requires { F.IsAlwaysCallable is_right }
        { judge_prefixed(&mut cases, &is_right) },
    )?;
    report(rt, tally)
}

// The same of cases that all have as many bytes as a buffer.
pub fn run_sized<R: Files + Print, F: Fn(&[u8]) -> bool>(
    rt: &R,
    case: &mut [u8],
    is_right: F,
) -> io::Result<()>
    requires { F.IsAlwaysCallable is_right }
{
    let mut cases = File::open(rt, "cases")?;
    let tally = tally_of(
        ||
            requires { F.IsAlwaysCallable is_right }
        { judge_sized(&mut cases, case, &is_right) },
    )?;
    report(rt, tally)
}
