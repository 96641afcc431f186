#![tactic(auto)]

mod copies;
mod examples;
mod streams;
mod table;
mod texts;

// Prints both check sums of each line of hexadecimal bytes.
fn main(rt: HostRuntime) -> anyhow::Result<()> {
    table::run(&rt)
}
