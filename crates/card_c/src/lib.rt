// The static library for C and Rust. Each export calls the function of its name of a boundary library, and states its clauses again.
// It has the functions that host/card.h declares, and no others. (A module may not have the name of a crate below.)
#![tactic(auto)]

ghost use Rattle.std.specs.Prelude.{◌≡◌};

mod bucket_calls;
mod cluster_calls;
mod lines_calls;
mod packed_calls;
mod tree_calls;
mod tree_clock_calls;

#[unsafe(no_mangle)]
pub extern "C" fn card_version() -> u32
    ensures { result ≡ 1 }
{
    card::card_version()
}
