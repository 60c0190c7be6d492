//! `jobd serve`: the launcher opens what it needs step by step, and then it serves. What opens holds the edge and the
//! store as type parameters. So only `serve_by` is proved for all that the edge of the system holds, and only `startup`
//! for the store's files.

use crate::journal_watch::journal_watch;
use crate::keeper::Keeper;
use crate::own_process::own_process;
use crate::places_file::{PlacesFile, places_file};
use crate::round_edge::RoundEdge;
use crate::round_launcher::RoundLauncher;
use crate::standing_file::StandingFile;
use crate::status_edge::StatusEdge;
use child_edge::{OsEdge, room_for};
use control_socket::ControlSocket;
use ctl_protocol::{Header, HeaderSettings, ZoneText, header_line};
use exit_status::{CLOCK_OR_WAITING, NO_MEMORY, STORE};
use files_and_process::run_names::LauncherId;
use files_and_process::socket_file;
use history_model::{Reading, Setting, Text};
use launchctl_words::ZoneWords;
use launcher::{Host, HostFault};
use live_loop::{Live, LoopHost, ServeFault, System, round, serve};
use outside::SettingStore;
use startup::{
    Places, Plan, StoreUser, begun, bound, hold_spool, journal_at, no_clock, plan_of, report,
    system_of, tell_long_header, tell_standing, with_store, zone_of,
};
use std::alloc::Global;
use std::fs::File;
use std::io::BufWriter;
use std::rt::Env;
use std::sync::Wait;
use std::{env, str};

/// The variable that names the status file.
const STATUS_FILE: &str = "JOBD_STATUS_FILE";

/// What names the group that may read it.
const STATUS_GROUP: &str = "JOBD_STATUS_GROUP";

/// Serves until a shutdown was accepted and no job is left: 0. It reports a fault, and gives its status. In this order:
/// the zone 7, how the process was started and the clock 9, the control socket 6, the journal 8. Then the store 5, the
/// spool 10, waiting 9; 1 for want of memory. A journal is emptied only after the spool. The files of the control
/// socket and of locks are removed in each case, and what else was made is left.
pub(crate) fn serve_at<L: Wait>(
    host: &HostRuntime,
    waits: &L,
    alloc: Global,
    places: Places,
    zone: ZoneWords,
) -> u8 {
    match plan_of(host, alloc, places) {
        Ok(plan) => {
            let status = serve_by(host, waits, alloc, &plan, zone);
            drop(plan);
            status
        }
        Err(status) => status,
    }
}

// Here alone the edge is that of the system.
fn serve_by<L: Wait>(
    host: &HostRuntime,
    waits: &L,
    alloc: Global,
    plan: &Plan,
    zone: ZoneWords,
) -> u8 {
    let zone = match zone_of(host, alloc, plan.requested.level, zone) {
        Ok(zone) => zone,
        Err(status) => return status,
    };
    match system_of(host, alloc, plan) {
        Ok((edge, reading)) => {
            let mut edge = edge;
            name_runs(host, &mut edge);
            serve_kept(host, host, waits, plan, zone, edge, reading)
        }
        Err(status) => {
            drop(zone);
            status
        }
    }
}

// Each run gets the name that this process gives it, if the system says which process this is.
fn name_runs(host: &HostRuntime, edge: &mut OsEdge<HostRuntime>) {
    if let Some(own) = own_process(host) {
        edge.name_runs(LauncherId {
            pid: own.pid,
            began: own.began,
        });
    }
}

// Serves by the edge, and keeps the status file if there must be one.
fn serve_kept<L: Wait, R: System + Env + Print, E: RoundEdge + Drop>(
    host: &HostRuntime,
    rt: &R,
    waits: &L,
    plan: &Plan,
    zone: ZoneText,
    edge: E,
    reading: Reading,
) -> u8 {
    let group = group_of(rt, plan);
    let (zone, kept) = kept_for(rt, host.alloc(), plan, zone, reading, group);
    let places = told_places(rt, host.alloc(), plan, kept.is_some(), group);
    let journal = journal_watch(rt, host.alloc(), plan);
    let edge = StatusEdge::new(host.alloc(), edge, kept, places, journal);
    serve_over(host, rt, waits, plan, zone, edge, reading)
}

// What keeps the status file, if the environment names one: its lock is held from now on. If it can't be kept, the
// launcher reports that, and goes on without.
fn kept_for<R: System + Env>(
    rt: &R,
    alloc: Global,
    plan: &Plan,
    zone: ZoneText,
    reading: Reading,
    group: Option<u32>,
) -> (ZoneText, Option<(StandingFile<R>, Keeper)>) {
    let Ok(path) = env::var(rt, STATUS_FILE) else {
        return (zone, None);
    };
    if path.is_empty() {
        drop(path);
        return (zone, None);
    }
    let (zone, line) = headed(alloc, zone, reading);
    let kept = match keeper_of(rt, alloc, plan, line, reading) {
        Some(keeper) => held_with(rt, alloc, plan, path.as_str(), group, keeper),
        None => {
            let why = "this process is not known, or there is no memory";
            report(rt, plan.requested.level, "status file", path.as_str(), &why);
            None
        }
    };
    drop(path);
    (zone, kept)
}

// The file that says the launcher's places. It names the status file if that is kept.
fn told_places<R: System + Env>(
    rt: &R,
    alloc: Global,
    plan: &Plan,
    keeps_status: bool,
    group: Option<u32>,
) -> Option<PlacesFile<R>> {
    match env::var(rt, STATUS_FILE) {
        Ok(path) => {
            let named = if keeps_status {
                Some(path.as_str())
            } else {
                None
            };
            let file = places_file(rt, alloc, plan, named, group);
            drop(path);
            file
        }
        Err(_) => places_file(rt, alloc, plan, None, group),
    }
}

// The group that may read the file, by its number. Another value is reported, and names none.
fn group_of<R: System + Env>(rt: &R, plan: &Plan) -> Option<u32> {
    let Ok(word) = env::var(rt, STATUS_GROUP) else {
        return None;
    };
    let group = match word.as_str().parse::<u32>() {
        // By it chown(2) leaves the group.
        Ok(u32::MAX) | Err(_) => None,
        Ok(group) => Some(group),
    };
    if group.is_none() && !word.is_empty() {
        let level = plan.requested.level;
        report(
            rt,
            level,
            STATUS_GROUP,
            word.as_str(),
            &"it is not the number of a group",
        );
    }
    drop(word);
    group
}

// What is written to it, if it is known which process this is.
fn keeper_of<R: System>(
    rt: &R,
    alloc: Global,
    plan: &Plan,
    line: Option<Text>,
    reading: Reading,
) -> Option<Keeper> {
    let line = line?;
    match own_process(rt) {
        Some(own) => {
            let has_journal = plan.places.journal.is_some();
            Some(Keeper::new(alloc, own, line, has_journal, reading))
        }
        None => {
            drop(line);
            None
        }
    }
}

// It, with its lock.
fn held_with<R: System>(
    rt: &R,
    alloc: Global,
    plan: &Plan,
    path: &str,
    group: Option<u32>,
    keeper: Keeper,
) -> Option<(StandingFile<R>, Keeper)> {
    match StandingFile::take(rt, alloc, path, plan.standing.user, group) {
        Ok(file) => Some((file, keeper)),
        Err(error) => {
            drop(keeper);
            report(rt, plan.requested.level, "status file", path, &error);
            None
        }
    }
}

// The line of a header without settings, without its newline; and the zone again.
fn headed(alloc: Global, zone: ZoneText, reading: Reading) -> (ZoneText, Option<Text>) {
    let header = Header {
        reading,
        zone,
        overrides: HeaderSettings::new(Vec::new(alloc)),
    };
    let text = match header_line(alloc, &header) {
        Ok(line) => match str::from_utf8(line.as_slice()) {
            Ok(text) => Text::copy_of(alloc, text.trim_end()).ok(),
            Err(_) => None,
        },
        Err(_) => None,
    };
    let Header { zone, .. } = header;
    (zone, text)
}

// Opens what comes before the spool, and serves. The store's files are opened by the runtime itself, which is passed as
// `host` too.
fn serve_over<L: Wait, R: System + Print, E: RoundEdge + Drop>(
    host: &HostRuntime,
    rt: &R,
    waits: &L,
    plan: &Plan,
    zone: ZoneText,
    edge: E,
    reading: Reading,
) -> u8 {
    let alloc = host.alloc();
    let control = match bound(rt, alloc, plan) {
        Ok(control) => control,
        Err(status) => {
            drop(zone);
            drop(edge);
            return status;
        }
    };
    let journal = match journal_at(rt, alloc, plan) {
        Ok(journal) => journal,
        Err(status) => {
            drop(zone);
            drop(edge);
            control.remove(rt);
            return status;
        }
    };
    let edge = with_journal(edge, &journal);
    let serving = Serving {
        rt,
        waits,
        alloc,
        plan,
        zone,
        edge,
        reading,
        control,
        journal,
    };
    match with_store(host, alloc, plan, serving) {
        Ok(status) => status,
        Err((status, serving)) => serving.refused(status),
    }
}

// The edge, which lets the journal's lock go once that is closed. Without a descriptor for this it is held until the end.
fn with_journal<E: RoundEdge>(edge: E, journal: &Option<File>) -> E {
    let mut edge = edge;
    if let Some(file) = journal {
        if let Ok(own) = file.try_clone() {
            edge.keep_journal(own);
        }
    }
    edge
}

/// What a launcher has before its store is opened, and what it serves by.
struct Serving<'a, L, R, E> {
    rt: &'a R,
    waits: &'a L,
    alloc: Global,
    plan: &'a Plan,
    zone: ZoneText,
    edge: E,
    reading: Reading,
    control: ControlSocket,
    journal: Option<File>,
}

impl<L, R: System, E: Drop> Serving<'_, L, R, E> {
    // Drops all that was opened before the store.
    fn refused(self, status: u8) -> u8 {
        let Serving {
            rt,
            waits: _,
            alloc: _,
            plan: _,
            zone,
            edge,
            reading: _,
            control,
            journal,
        } = self;
        drop(zone);
        drop(edge);
        drop(journal);
        control.remove(rt);
        status
    }
}

impl<L: Wait, R: System + Print, E: RoundEdge + Drop> StoreUser for Serving<'_, L, R, E> {
    // Holds the spool, and serves.
    fn use_store<T: SettingStore + Drop>(self, store: T, settings: Vec<Setting>) -> Result<u8, u8> {
        let rt = self.rt;
        match hold_spool(rt, self.alloc, self.plan) {
            Ok(lock) => {
                let served = self.serve_from(store, settings);
                if let Some(lock) = lock {
                    lock.remove(rt);
                }
                served
            }
            Err(status) => {
                drop(store);
                drop(settings);
                Err(self.refused(status))
            }
        }
    }
}

impl<L: Wait, R: System + Print, E: RoundEdge + Drop> Serving<'_, L, R, E> {
    // Puts the launcher together, and serves. Err: nothing was served, and what was opened is dropped.
    fn serve_from<T: SettingStore + Drop>(
        self,
        store: T,
        settings: Vec<Setting>,
    ) -> Result<u8, u8> {
        let Serving {
            rt,
            waits,
            alloc,
            plan,
            zone,
            edge,
            reading,
            control,
            journal,
        } = self;
        let mut edge = edge;
        let slept = edge.slept();
        let header = Header {
            reading,
            zone,
            overrides: HeaderSettings::new(settings),
        };
        let status = match writer_of(rt, alloc, plan, &header, journal) {
            Ok(journal) => match Host::new(alloc, header, store, edge, journal) {
                Ok(launcher) => {
                    let launcher = RoundLauncher::new(launcher, slept);
                    return serve_with(rt, waits, alloc, plan, launcher, control);
                }
                Err(fault) => report_host(rt, plan, fault),
            },
            Err(status) => {
                drop(header);
                drop(edge);
                drop(store);
                status
            }
        };
        control.remove(rt);
        Err(status)
    }
}

// The journal, emptied. A header that is too long for it is reported.
fn writer_of<R: System>(
    rt: &R,
    alloc: Global,
    plan: &Plan,
    header: &Header,
    journal: Option<File>,
) -> Result<Option<BufWriter<File>>, u8> {
    let journal = match begun(rt, alloc, plan, journal) {
        Ok(journal) => journal,
        Err(status) => return Err(status),
    };
    match tell_long_header(rt, alloc, plan, header) {
        Ok(()) => Ok(journal),
        Err(status) => {
            drop(journal);
            Err(status)
        }
    }
}

fn report_host(rt: &impl Eprint, plan: &Plan, fault: HostFault) -> u8 {
    let level = plan.requested.level;
    match fault {
        HostFault::NoMemory => NO_MEMORY,
        HostFault::Store => {
            let path = plan.places.store.as_str();
            report(rt, level, "store", path, &"its settings were not read");
            STORE
        }
        HostFault::Header => no_clock(rt, level),
    }
}

fn serve_with<L: Wait, R: System + Print, H: LoopHost + Drop>(
    rt: &R,
    waits: &L,
    alloc: Global,
    plan: &Plan,
    launcher: H,
    control: ControlSocket,
) -> Result<u8, u8> {
    let mark = control.mark();
    let mut live = match Live::new(rt, alloc, launcher, control) {
        Ok(live) => live,
        Err(fault) => {
            socket_file::remove(rt, plan.places.socket.as_str(), mark);
            return Err(report_loop(rt, plan, fault));
        }
    };
    set_requested(plan, &mut live);
    tell_standing(rt, plan);
    // The first pass writes the files that others read. That it was the last, or that the system refuses to wait, the next pass finds too.
    let _is_last = round(rt, alloc, &mut live);
    // Nobody has to hear it.
    let _written = println!(rt; "jobd: ready");
    match serve(waits, rt, alloc, live) {
        Ok(()) => Ok(0),
        Err(fault) => Ok(report_loop(rt, plan, fault)),
    }
}

fn set_requested<H>(plan: &Plan, live: &mut Live<H>) {
    if plan.requested.level.is_told {
        live.set_leveled();
    }
    live.set_room(room_for(plan.standing.descriptors, 0));
}

fn report_loop(rt: &impl Eprint, plan: &Plan, fault: ServeFault) -> u8 {
    match fault {
        ServeFault::NoMemory => NO_MEMORY,
        ServeFault::Poll => {
            let path = plan.places.socket.as_str();
            report(
                rt,
                plan.requested.level,
                "control socket",
                path,
                &"the poll failed",
            );
            CLOCK_OR_WAITING
        }
    }
}
