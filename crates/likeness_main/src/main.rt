// Runs the figures of likeness that are run and not proved, a line each. The file stdout has what the rule says of them.
#![tactic(auto)]

use std::io;

fn show<P: Print>(rt: &P, held: bool) -> io::Result<()> {
    if held {
        println!(rt; "in")
    } else {
        println!(rt; "out")
    }
}

fn main(rt: HostRuntime) -> io::Result<()> {
    // LANE (size 6) against LANES (size 7), 4 features shared
    print!(rt; "Jaccard 1/2: ")?;
    show(&rt, likeness::similar(2, 1, 2, 6, 7, 4))?;
    print!(rt; "overlap 667/1000: ")?;
    show(&rt, likeness::similar(4, 667, 1000, 6, 7, 4))?;
    print!(rt; "threshold 0/5: ")?;
    show(&rt, likeness::good_threshold(0, 5))?;
    print!(rt; "threshold 1000/1000: ")?;
    show(&rt, likeness::good_threshold(1000, 1000))?;
    print!(rt; "threshold 1000/1001: ")?;
    show(&rt, likeness::good_threshold(1000, 1001))
}
