// The move to form 2: one cage file on standard input, the file of the same cage in form 2 on standard output.
#![tactic(auto)]

use cagefile::fields::Form;

fn main(rt: HostRuntime) {
    // one byte more than the longest file that reads
    let mut file = [0u8; 46112];
    mover::move_input(&rt, &mut file, Form::One, Form::Two);
}
