// Two incidents at docks of patrol readers, played with visits over the mark memory and told in print:
// each call with what the dock answered, and the book at the end.
#![tactic(auto)]

use std::io;
use stories::{bus_depot, timber_yard};
use telling::tell;

mod desk;
mod step;
mod stories;
mod telling;

fn main(rt: HostRuntime) -> io::Result<()> {
    println!(rt; "The timber yard: two bays and two slots, over the mark memory.")?;
    tell(&rt, timber_yard)?;
    println!(rt; "The bus depot: two bays and two slots, over the mark memory.")?;
    tell(&rt, bus_depot)
}
