// Posts the day that lies in the folder it is run in.
#![tactic(auto)]

use std::io;

fn main(rt: HostRuntime) -> io::Result<()> {
    folder::posts::post(&rt)
}
