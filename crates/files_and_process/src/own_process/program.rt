//! Which of its programs a file is, by the name that it was started under.
ghost use Rattle.std.specs.Prelude.{◌≡◌, map, string_bytes};
ghost use Rattle.files_and_process.specs.Programs as spec;

/// The programs that are one file.
pub enum Program {
    Jobd,
    Jobctl,
    Jobscope,
    /// What a launcher starts to check and open paths in its place. No user starts it.
    LookOut,
}

/// The program that these arguments mean: the first is its name. The last part of the name's path means `jobctl` or
/// `jobscope`. The name `jobd-look-out`, without a path in front of it, means a launcher's helper process. Every other
/// name means `jobd`.
pub fn program_of(words: &[String]) -> Program
    ensures { result ≡ spec.program_of (map string_bytes words.now) }
{
    match words.first() {
        Some(name) => program_meant(name.as_str().as_bytes()),
        None => Program::Jobd,
    }
}

/// The program that a path means.
pub(crate) fn program_meant(path: &[u8]) -> Program
    ensures { result ≡ spec.program_meant path.now }
{
    if path == b"jobctl".as_slice() || path.ends_with(b"/jobctl") {
        Program::Jobctl
    } else if path == b"jobscope".as_slice() || path.ends_with(b"/jobscope") {
        Program::Jobscope
    } else if path == b"jobd-look-out".as_slice() {
        Program::LookOut
    } else {
        Program::Jobd
    }
}
