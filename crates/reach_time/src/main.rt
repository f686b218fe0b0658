// The worst cases of a reach: a chain of all 64 roles, and stacked diamonds, in which more than a thousand million chains
// lead from the top to the bottom. Given a number of rounds it also prints how long a reach takes.
#![tactic(auto)]

use bits::set::RoleSet;
use hierarchy::hierarchy::Hierarchy;
use std::env;
use std::time::Instant;

mod hierarchies;

// How many roles are reached in all, from the top and one role more, in so many rounds.
fn reached(hierarchy: &Hierarchy, rounds: u32) -> u64 {
    (0..rounds).fold(0, |total: u64, round| {
        let start = RoleSet::empty().with(0).with((round % 64) as u16);
        total.wrapping_add(hierarchy.reach(start).len() as u64)
    })
}

fn measure(rt: HostRuntime, name: &str, hierarchy: &Hierarchy, rounds: u32) -> anyhow::Result<()> {
    let roles = hierarchy.reach(RoleSet::empty().with(0)).len();
    println!(rt; "{name}: {roles} roles reached from the top")?;
    if rounds == 0 {
        return Ok(());
    }
    let start = Instant::now(&rt)?;
    let total = reached(hierarchy, rounds);
    let nanoseconds = start.elapsed(&rt)?.as_nanos() / rounds as u128;
    println!(rt; "{name}: {nanoseconds} ns a reach, {total} roles in {rounds} rounds")?;
    Ok(())
}

fn main(rt: HostRuntime) -> anyhow::Result<()> {
    let mut rounds = 0;
    if let Some(word) = env::args(&rt)?.nth(1) {
        rounds = word.parse::<u32>()?;
    }
    measure(rt, "chain of 64", &hierarchies::chain(), rounds)?;
    measure(rt, "30 stacked diamonds", &hierarchies::diamonds(), rounds)
}
