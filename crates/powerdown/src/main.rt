// Takes two small designs through a whole power-down and prints what happened.
#![tactic(auto)]

use std::io;
use watch::settle::Watched;

mod island;
mod pair;
mod print;
mod rounds;

use island::Island;
use pair::Pair;
use print::Summary;

fn main(rt: HostRuntime) -> io::Result<()> {
    let pair = Summary {
        name: "pair",
        tally: pair::power_down(&rt)?,
        bound: Pair::BOUND,
    };
    let island = Summary {
        name: "island",
        tally: island::power_down(&rt)?,
        bound: Island::BOUND,
    };
    println!(rt; "summary")?;
    println!(rt; "{pair}")?;
    println!(rt; "{island}")
}
