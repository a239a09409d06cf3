//! The program: it reads kernels and observations, and writes what a command asks for.
#![tactic(auto)]

#[cfg(test)]
mod audit_tests;
#[cfg(test)]
mod excerpt_tests;
mod files;
#[cfg(test)]
mod help_tests;
mod inputs;
#[cfg(test)]
mod invert_tests;
#[cfg(test)]
mod least_tests;
mod made;
mod over;
mod pictured;
#[cfg(test)]
mod plot_tests;
#[cfg(test)]
mod publish_tests;
mod reading;
#[cfg(test)]
mod sample_tests;
#[cfg(test)]
mod slips_tests;
mod start;
#[cfg(test)]
mod tests;
mod top;

pub use reading::{document, read_file};
use sk_edge::{FileDepot, StreamSink};
pub use start::{exit_code, given_words, refuse};
use std::env;
use std::process::ExitCode;
pub use top::run;

fn main(rt: HostRuntime) -> ExitCode {
    let alloc = rt.alloc();
    let mut notes = StreamSink::new(rt.stderr());
    let status = match given_words(alloc, env::args(&rt)) {
        Ok(words) => {
            let mut depot = FileDepot::new(&rt);
            let mut out = StreamSink::new(rt.stdout());
            run(alloc, &words, &mut depot, &mut out, &mut notes)
        }
        Err(status) => refuse(&mut notes, status),
    };
    exit_code(status)
}
