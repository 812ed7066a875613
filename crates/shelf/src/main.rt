// Reads one shelf image from standard input, and tells what became of it: the shape, its columns and the answer.
#![tactic(auto)]

mod reading;
mod telling;

fn main(rt: HostRuntime) {
    let mut input = [0u8; 16385];
    let mut stripe = [0u8; 49056];
    let mut bench = [0u8; 32704];
    let mut out = [0u8; 102400];
    let mut from = rt.stdin();
    let taken = reading::read_input(&mut from, &mut input);
    let end = telling::tell(taken, &input, &mut stripe, &mut bench, &mut out);
    io::write_all(1, &out[0..end]);
}
