// Cases of `selftest`: bundles, on small inputs.
// What a case expects is a theorem: `expect_..` asks that the definitions give it, and holds what runs to it.
#![tactic(auto)]

mod bundle_writer;
mod bundles;
mod compare;
mod each;
mod lookup;

// Every case.
pub fn run() {
    bundles::heads();
    bundles::tables();
    bundles::ranges();
    bundles::apart();
    bundles::overlaps();
    bundles::overlaps_in_turn();
    bundles::meanings();
    bundles::kinds();
    bundles::cards();
    bundles::picks();
    bundles::more_picks();
    bundles::not_asked();
    bundles::not_found();
    bundles::kinds_picked();
    bundles::cards_picked();
    bundles::cards_not_asked();
    bundles::entries();
    bundles::no_entries();
    bundles::no_entries_normal();
    bundles::host_normal();
    bundles::normal_again();
    bundles::cards_normal();
    bundles::cards_again();
    bundles::kinds_normal();
    bundles::names_normal();
    each::few_names();
    each::sixteen_names();
    each::refused();
    each::parts();
    each::long_names();
    each::side_by_side();
    each::one_entry();
    lookup::answers();
    lookup::no_answer();
    lookup::refused();
    compare::differences();
    compare::no_room();
    compare::refused();
    bundle_writer::written();
    bundle_writer::written_before();
    bundle_writer::no_room();
    bundle_writer::no_ids();
    bundle_writer::no_entries();
    bundle_writer::no_bundle();
}
