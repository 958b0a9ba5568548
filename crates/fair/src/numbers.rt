// The numbers and elements of what fair ranks answer.
ghost use Rattle.std.specs.Prelude.{◌≡◌};
ghost use Rattle.fair_model.specs.Calls.{answer_number, served_element};

use fair_model::FairAnswer;
use strip::{Element, no_element};

// The refusal's number, and 0 where nothing is refused.
pub fn number(a: FairAnswer) -> u32
    ensures { result ≡ answer_number a }
{
    match a {
        Ok(_) => 0,
        Err(why) => u32::from(why),
    }
}

// The element that is served: rank, tag and length 0 where none is.
pub fn given(a: FairAnswer) -> Element
    ensures { result ≡ served_element a }
{
    match a {
        Ok(Some(e)) => e,
        _ => no_element(),
    }
}
