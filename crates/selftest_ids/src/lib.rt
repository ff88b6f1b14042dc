// Cases of `selftest`: bytes and entry IDs, on small inputs.
// What a case expects is a theorem: `expect_..` asks that the definitions give it, and holds what runs to it.
#![tactic(auto)]

mod ids;
mod words;

// Every case.
pub fn run() {
    words::words();
    words::comparisons();
    words::long_comparisons();
    words::end_comparisons();
    words::puts();
    words::copies();
    words::no_copies();
    ids::host_forms();
    ids::card_forms();
    ids::field_forms();
    ids::processor_forms();
    ids::no_processors();
    ids::no_features();
    ids::no_kinds();
    ids::alternative_forms();
    ids::unknown_forms();
    ids::primary_forms();
    ids::other_forms();
    ids::long_forms();
    ids::standings();
    ids::more_standings();
    ids::one_kind();
    ids::other_kinds();
}
