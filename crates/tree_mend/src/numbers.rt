// 01's numbers of what the check and the mender answer.
ghost use Rattle.std.specs.Prelude.{◌≡◌, MatchResult};
ghost use Rattle.strip.specs.Answers.{refusal_number};
ghost use Rattle.tree_mend_model.specs.Check.{check_number, check_yes, check_slot, bare_number, bare_yes};
ghost use Rattle.tree_mend_model.specs.Mend.{mend_number, mend_skipped};

use strip::Refusal;

// The refusal's number, and 0 where nothing is refused.
fn number<T: Copy>(answer: Result<T, Refusal>) -> u32
    ensures { MatchResult answer (λ _. result ≡ 0) (λ r. result ≡ refusal_number r) }
{
    match answer {
        Ok(_) => 0,
        Err(why) => u32::from(why),
    }
}

pub fn check_number(c: Result<Option<u32>, Refusal>) -> u32
    ensures { result ≡ check_number c }
{
    number(c)
}

// 1 for yes.
pub fn check_yes(c: Result<Option<u32>, Refusal>) -> u32
    ensures { result ≡ check_yes c }
{
    match c {
        Ok(None) => 1,
        _ => 0,
    }
}

// The slot that is named.
pub fn check_slot(c: Result<Option<u32>, Refusal>) -> u32
    ensures { result ≡ check_slot c }
{
    match c {
        Ok(Some(p)) => p,
        _ => 0,
    }
}

pub fn bare_number(b: Result<bool, Refusal>) -> u32
    ensures { result ≡ bare_number b }
{
    number(b)
}

pub fn bare_yes(b: Result<bool, Refusal>) -> u32
    ensures { result ≡ bare_yes b }
{
    match b {
        Ok(true) => 1,
        _ => 0,
    }
}

pub fn mend_number(a: Result<u32, Refusal>) -> u32
    ensures { result ≡ mend_number a }
{
    number(a)
}

// How many were skipped.
pub fn mend_skipped(a: Result<u32, Refusal>) -> u32
    ensures { result ≡ mend_skipped a }
{
    a.unwrap_or(0)
}
