// What an insertion finds and answers.
ghost use Rattle.std.specs.Prelude.{◌≡◌};
ghost use Rattle.insertion.specs.Insert.{answer_number, is_done, is_torn, is_refused, opened_count, inferred_count, tears, answer_of};

use control_point::refusal::Refusal;
use store::store::Store;

// What a side becomes: a border, a link, an opening, or an opening whose search failed; or it stays as it is.
#[derive(Clone, Copy, Debug)]
pub enum NewSide {
    Takes(f64),
    Joins(u8, f64),
    Opens,
    Tears,
    Stays,
}

// What an insertion that is not refused has done: the sides opened and the links inferred.
#[derive(Clone, Copy, Debug, PartialEq, Eq)]
pub enum Insertion {
    Done(u8, u8),
    // A search failed.
    Torn(u8, u8),
}

// The answer number of an insertion: 0 done, 8 torn, or the refusal's.
pub fn answer_number(answer: Result<Insertion, Refusal>) -> u8
    ensures { result ≡ answer_number answer }
{
    match answer {
        Ok(Insertion::Done(_, _)) => 0,
        Ok(Insertion::Torn(_, _)) => 8,
        Err(refusal) => refusal.number(),
    }
}

pub fn is_done(answer: Result<Insertion, Refusal>) -> bool
    ensures { result ≡ is_done answer }
{
    matches!(answer, Ok(Insertion::Done(_, _)))
}

pub fn is_torn(answer: Result<Insertion, Refusal>) -> bool
    ensures { result ≡ is_torn answer }
{
    matches!(answer, Ok(Insertion::Torn(_, _)))
}

pub fn is_refused(answer: Result<Insertion, Refusal>) -> bool
    ensures { result ≡ is_refused answer }
{
    answer.is_err()
}

#[derive(Clone, Copy)]
pub struct Inserted {
    pub answer: Result<Insertion, Refusal>,
    pub store: Store,
}

fn opened_count(side: NewSide) -> u8
    ensures { result ≡ opened_count side }
{
    match side {
        NewSide::Joins(_, _) | NewSide::Opens | NewSide::Tears => 1,
        NewSide::Takes(_) | NewSide::Stays => 0,
    }
}

fn inferred_count(side: NewSide) -> u8
    ensures { result ≡ inferred_count side }
{
    match side {
        NewSide::Joins(_, _) => 1,
        NewSide::Takes(_) | NewSide::Opens | NewSide::Tears | NewSide::Stays => 0,
    }
}

fn tears(side: NewSide) -> bool
    ensures { result ≡ tears side }
{
    matches!(side, NewSide::Tears)
}

// The answer, by what both sides became.
pub fn answer_of(first: NewSide, second: NewSide) -> Result<Insertion, Refusal>
    ensures { result ≡ answer_of first second }
{
    let opened = opened_count(first) + opened_count(second);
    let inferred = inferred_count(first) + inferred_count(second);
    if tears(first) || tears(second) {
        return Ok(Insertion::Torn(opened, inferred));
    }
    Ok(Insertion::Done(opened, inferred))
}
