// What entry IDs mean: definitions and theorems, in specs/. The code is in `canonical_form`, `profile_form` and `entry_compare`.

// By which rules an ID is read: the general ones, or the profile's for AMD's cards.
#![tactic(auto)]

#[derive(Clone, Copy)]
pub enum Reading {
    General,
    Profile,
}
