// Makes the public calls of the library reachable: requests on standard input, one answer line each. Its stored answers are the Rust's.
#![tactic(auto)]

use std::io;

fn main(rt: HostRuntime) -> io::Result<()> {
    harness::serve(rt)
}
