// Prints one page: what each setting of FIN, SYN, RST and ACK counts as, and what a rule that tracks does with such a frame.
#![tactic(auto)]

mod print;
mod row;

use flags::FLAG_SETTINGS;
use std::io;

fn main(rt: HostRuntime) -> io::Result<()> {
    print::title(&rt)?;
    for n in 0..FLAG_SETTINGS {
        print::line(&rt, row::row_at(n))?;
    }
    print::legend(&rt)
}
