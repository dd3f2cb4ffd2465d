//! Answers each line of standard input as it comes, with the rules that the lines before it set.
#![tactic(auto)]

use std::io::{BufRead, BufReader};

fn run(rt: &HostRuntime) -> anyhow::Result<()> {
    let lines = BufReader::new(rt.alloc(), rt.stdin())?.split(rt.alloc(), b'\n');
    let mut hand = desk::Hand::new();
    // The count would end at 2^64, which no input reaches.
    for (line, number) in lines.zip(1u64..) {
        let line = line?;
        let text = desk::answer_line(rt.alloc(), &mut hand, number, line.as_slice())?;
        if !text.is_empty() {
            println!(rt; "{text}")?;
        }
    }
    Ok(())
}

fn main(rt: HostRuntime) -> anyhow::Result<()> {
    run(&rt)
}
