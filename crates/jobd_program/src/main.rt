//! The programs `jobd`, `jobctl`, `jobscope` and a launcher's helper process in one file: it acts by the name under which it was started.
#![tactic(auto)]

mod stack;

use crate::stack::{PAGES, take_stack};
use apply_folder::jobctl_apply;
use control_client::jobctl;
use files_and_process::own_process::{Programs, run_by_name};
use jobd::jobd;
use scope::{HostSubcommands, jobscope};
use std::process::ExitCode;
use std::sync::Wait;

struct OneFile;

impl Programs for OneFile {
    fn jobd<L: Wait>(&self, host: &HostRuntime, waits: &L, words: &[String]) -> u8 {
        // The first is 0, so the status is that of the second.
        take_stack(PAGES) | jobd(host, waits, host.alloc(), words)
    }

    fn jobctl(&self, host: &HostRuntime, words: &[String]) -> u8 {
        match jobctl_apply(host, host.alloc(), words) {
            Some(status) => status,
            None => jobctl(host, host.alloc(), words),
        }
    }

    fn jobscope<L: Wait>(&self, host: &HostRuntime, waits: &L, words: &[String]) -> u8 {
        let subcommands = HostSubcommands {
            host,
            waits,
            alloc: host.alloc(),
        };
        jobscope(host, &subcommands, words)
    }

    fn look_out(&self, host: &HostRuntime) -> u8 {
        look_out::by_input(host)
    }
}

fn main(rt: HostRuntime) -> ExitCode {
    ExitCode::from(run_by_name(&rt, &rt, &OneFile))
}
