// The bench program: it reads records from standard input and prints one line for each event, as soon as its record is
// whole.
#![tactic(auto)]

mod failure;
mod input;

use failure::Failure;

// The status is 0 whatever happens; what has failed is said as far as there is a standard error to say it on.
fn main(rt: HostRuntime) {
    if let Err(failure) = run(&rt) {
        let _ = eprintln!(rt; "bench: {failure}");
    }
}

fn run(rt: &HostRuntime) -> Result<(), Failure> {
    let mut stdin = rt.stdin();
    let mut bytes = io::large_buffer();
    let mut lines = io::large_buffer();
    let mut bench = bench_play::at_first();
    let mut hand = 0;
    let mut ended = false;

    // The language asks every loop to end; at a turn a nanosecond this one takes 584 years.
    for _ in 0..u64::MAX {
        let turned = bench_play::turn(bench, &mut bytes[..hand], ended, &mut lines);
        bench = turned.bench;
        hand = turned.kept;
        rt.write_all(&lines[..turned.used])
            .map_err(Failure::Output)?;
        if bench.stopped {
            return Ok(());
        }
        if turned.waits {
            let read = input::more(&mut stdin, &mut bytes, hand).map_err(Failure::Input)?;
            hand = read.hand;
            ended = read.ended;
        }
    }
    Ok(())
}
