// Reads one standalone term from standard input and prints the bench's line of it. A longer input than 65,536 bytes is never cut to that.
#![tactic(auto)]

// Standard output's number.
const STDOUT: i32 = 1;

fn main() {
    let mut input = [0u8; 65540];
    let n = io::read_full(0, &mut input);
    let mut line = [0u8; bench_line::LINE_MOST];
    let m = bench_line::line(&input[..n], &mut line);
    io::write_all(STDOUT, &line[..m]);
}
