//! Which sockets wait on this machine now, as proc(5) reports it. Nothing is connected to, and nothing bound.

use files_and_process::path_files::read_front;
use std::alloc::Global;

/// So much of a table is looked at, in bytes: some 7,000 sockets.
const MOST: usize = 1_048_576;

/// Whether a socket waits for connections at this port of TCP, at an address that a bind of this host meets. A table that can't be read
/// has none.
pub(crate) fn is_port_in_use(host: &HostRuntime, alloc: Global, own: &[u8; 4], port: u16) -> bool {
    for table in ["/proc/net/tcp", "/proc/net/tcp6"].iter() {
        let mut bytes = Vec::new(alloc);
        let is_read = read_front(host, *table, MOST, &mut bytes).is_ok();
        let is_there = is_read && has_port(bytes.as_slice(), own, port);
        drop(bytes);
        if is_there {
            return true;
        }
    }
    false
}

/// Whether this machine has the address, as far as its table of routes can be read.
pub(crate) fn has_address(host: &HostRuntime, alloc: Global, own: &[u8; 4]) -> bool {
    let mut bytes = Vec::new(alloc);
    let is_read = read_front(host, "/proc/net/fib_trie", MOST, &mut bytes).is_ok();
    let is_there = own[0] == 0 || own[0] == 127 || has_local(bytes.as_slice(), own);
    drop(bytes);
    !is_read || is_there
}

// The address follows |--, and a line below says that it is this machine's own.
fn has_local(table: &[u8], own: &[u8; 4]) -> bool {
    let mut is_here = false;
    for line in str::from_utf8(table).unwrap_or("").split('\n') {
        if let Some(address) = line.trim_start().strip_prefix("|-- ") {
            is_here = is_written(address, own);
        } else if is_here && line.contains("host LOCAL") {
            return true;
        }
    }
    false
}

fn is_written(address: &str, own: &[u8; 4]) -> bool {
    let mut count: usize = 0;
    for part in address.split('.') {
        let mut value: u32 = 0;
        for byte in part.as_bytes() {
            let digit = u32::from(byte.saturating_sub(b'0'));
            value = value.saturating_mul(10).saturating_add(digit);
        }
        match own.get(count) {
            Some(byte) if u32::from(*byte) == value => count = count.saturating_add(1),
            _ => return false,
        }
    }
    count == 4
}

/// Whether a bind at this port is refused to this process: it is below the first that anybody may take, and the process lacks the capability.
pub(crate) fn is_port_barred(host: &HostRuntime, alloc: Global, port: u16) -> bool {
    let mut bytes = Vec::new(alloc);
    let first = "/proc/sys/net/ipv4/ip_unprivileged_port_start";
    let is_read = read_front(host, first, 64, &mut bytes).is_ok();
    let mut least: u32 = 0;
    for byte in str::from_utf8(bytes.as_slice())
        .unwrap_or("")
        .trim()
        .as_bytes()
    {
        least = least
            .saturating_mul(10)
            .saturating_add(u32::from(byte.saturating_sub(b'0')));
    }
    drop(bytes);
    let least = if is_read { least } else { 1024 };
    u32::from(port) < least && !may_bind(host, alloc)
}

// The effective capabilities of this process have that of low ports, which is bit 10, as capabilities(7) says.
fn may_bind(host: &HostRuntime, alloc: Global) -> bool {
    let mut bytes = Vec::new(alloc);
    let mut is_able = read_front(host, "/proc/self/status", 65_536, &mut bytes).is_err();
    for line in str::from_utf8(bytes.as_slice()).unwrap_or("").split('\n') {
        if let Some(mask) = line.strip_prefix("CapEff:") {
            is_able = port_of(mask.trim_start()) / 1024 % 2 == 1;
        }
    }
    drop(bytes);
    is_able
}

/// Whether a Unix socket waits for connections at the path.
pub(crate) fn is_path_in_use(host: &HostRuntime, alloc: Global, path: &str) -> bool {
    let mut bytes = Vec::new(alloc);
    let is_read = read_front(host, "/proc/net/unix", MOST, &mut bytes).is_ok();
    let is_there = is_read && has_path(bytes.as_slice(), path);
    drop(bytes);
    is_there
}

// After the number of a line come its own address and the other's, and then the state; 0A says that it waits.
fn has_port(table: &[u8], host: &[u8; 4], port: u16) -> bool {
    for line in str::from_utf8(table).unwrap_or("").split('\n') {
        let mut words = line.split_whitespace();
        let _number = words.next();
        let own = words.next().unwrap_or("");
        let _other = words.next();
        let waits = words.next() == Some("0A");
        if waits && port_of(own) == u32::from(port) && meets(own, host) {
            return true;
        }
    }
    false
}

// Whether a bind at the host meets a socket at this address. It is in hexadecimal digits, of an IPv4 address its last byte first. An IPv6
// address meets the host if it means all addresses, or maps an IPv4 address that does.
fn meets(address: &str, host: &[u8; 4]) -> bool {
    let digits = match address.split_once(':') {
        Some((digits, _)) => digits,
        None => address,
    };
    let is_all = digits.trim_start_matches('0').is_empty();
    let own = if digits.len() == 8 {
        digits
    } else {
        match digits.strip_prefix("0000000000000000FFFF0000") {
            Some(own) => own,
            None => return is_all,
        }
    };
    let number = port_of(own);
    let wanted = u32::from_le_bytes(*host);
    is_all || wanted == 0 || number == wanted
}

// The port of an address: the hexadecimal digits after the last colon.
fn port_of(address: &str) -> u32 {
    let mut port: u32 = 0;
    for byte in address.as_bytes() {
        let digit = match *byte {
            b':' => {
                port = 0;
                continue;
            }
            b'0'..=b'9' => byte.saturating_sub(b'0'),
            b'a'..=b'f' => byte.saturating_sub(b'a').saturating_add(10),
            _ => byte.saturating_sub(b'A').saturating_add(10),
        };
        port = port.saturating_mul(16).saturating_add(u32::from(digit));
    }
    port
}

// The fourth field of a line has the flags, of which 00010000 says that it waits; the last one is the path.
fn has_path(table: &[u8], path: &str) -> bool {
    for line in str::from_utf8(table).unwrap_or("").split('\n') {
        let mut words = line.split_whitespace();
        let _number = words.next();
        let _count = words.next();
        let _protocol = words.next();
        let waits = words.next() == Some("00010000");
        let is_at = match line.strip_suffix(path) {
            Some(front) => front.ends_with(' '),
            None => false,
        };
        if waits && is_at {
            return true;
        }
    }
    false
}
