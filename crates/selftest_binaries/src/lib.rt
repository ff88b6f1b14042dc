// Cases of `selftest`: offload binaries, on small inputs.
// What a case expects is a theorem: `expect_..` asks that the definitions give it, and holds what runs to it.
#![tactic(auto)]

mod binaries;
mod binary_writer;
mod recovery;

// Every case.
pub fn run() {
    binaries::read_on();
    binaries::ends();
    binaries::bare();
    binaries::heads();
    binaries::spans();
    binaries::bodies();
    binaries::seconds();
    binary_writer::written();
    binary_writer::written_before();
    binary_writer::no_room();
    binary_writer::not_written();
    binary_writer::bare();
    binary_writer::with_arch();
    binary_writer::too_many();
    recovery::damaged();
    recovery::sound();
    recovery::nothing();
    recovery::no_room();
}
