// Cases worked out by hand, run through the library. Standard input has one case a line, and what this prints is
// compared with the file stdout: a line that starts with # is printed as it is, any other is a case and prints its outcome.
#![tactic(auto)]

mod commands;
mod groups;
mod models;
mod outcomes;
mod tables;

// Each line has an end, the last one maybe not.
fn run(input: &[u8]) {
    if !input.is_empty() {
        let lines = input.strip_suffix(b"\n").unwrap_or(input);
        for line in lines.split(|b| *b == b'\n') {
            commands::run_line(line);
        }
    }
}

// Room for all cases. A case beyond it isn't read, and what this prints would lack its outcome.
fn room() -> [u8; 262144] {
    [0; 262144]
}

fn main() {
    let mut input = room();
    let n = io::read_full(0, &mut input);
    run(&input[..n]);
}
