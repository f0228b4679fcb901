// Ten worked examples of the dock's lines and calls, and the limits of an open, run on the dock and told
// in print: for each what it shows, and what the dock answered.
#![tactic(auto)]

use std::io;

mod desk;
mod plays;
mod telling;

fn main(rt: HostRuntime) -> io::Result<()> {
    let trials = [
        plays::put_alone(&rt)?,
        plays::take_alone(&rt)?,
        plays::put_on_full(&rt)?,
        plays::take_on_new(&rt)?,
        plays::take_beside_held(&rt)?,
        plays::put_helps_held(&rt)?,
        plays::take_beside_put(&rt)?,
        plays::put_beside_take(&rt)?,
        plays::put_at_top(&rt)?,
        plays::put_given_up(&rt)?,
        plays::limits(&rt)?,
    ];
    let good = trials.iter().filter(|good| **good).count();
    let all = trials.len();
    println!(rt; "{good} of {all} as they should be")
}
