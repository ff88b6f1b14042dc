// The library, run: `rt ci` runs this as two compilers build it, and `rt try selftest` as one builds it with checks, so that the compilers' back ends,
// which no proof covers, are held to the definitions. A case is a call of an `expect_..` in the library of its subject; it is proved by computation.
#![tactic(auto)]

use std::io;

fn main(rt: HostRuntime) -> io::Result<()> {
    selftest_ids::run();
    selftest_bundles::run();
    selftest_binaries::run();
    selftest_large::long_copy(&rt)?;
    selftest_large::sixty_four(&rt)?;
    selftest_large::sixty_five(&rt)?;
    selftest_large::real_bundle(&rt)
}
