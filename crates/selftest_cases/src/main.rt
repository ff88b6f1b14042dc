// The cases of the self test that read no input, so that `rt try` runs them on its interpreter too.
#![tactic(auto)]

use std::io;

fn main(rt: HostRuntime) -> io::Result<()> {
    selftest_ids::run();
    selftest_bundles::run();
    selftest_binaries::run();
    selftest_large::long_copy(&rt)?;
    selftest_large::sixty_four(&rt)?;
    selftest_large::sixty_five(&rt)
}
