//! Numeric hosts and ports: nothing is looked up.

ghost use Rattle.std.specs.Prelude.{◌≡◌, ◌≤◌, [], ◌∷◌, MatchOption};
ghost use Rattle.std.specs.List.{slice_split};
ghost use Rattle.job_defs.specs.Sockets as sockets;
ghost use Rattle.job_defs.specs.Sockets.{four_octets};

use json_kinds::all_digits;

/// `localhost`, which is 127.0.0.1, or four numbers of 0 to 255 joined by dots.
#[tactic(auto, unfolding(crate::specs::Sockets::host_in))]
pub(crate) fn host_in(text: &str) -> Option<[u8; 4]>
    ensures { result ≡ sockets.host_in text.now }
{
    if text == "localhost" {
        return Some([127, 0, 0, 1]);
    }
    dotted_in(text)
}

#[tactic(auto, unfolding(crate::specs::Sockets::dotted_in))]
fn dotted_in(text: &str) -> Option<[u8; 4]>
    ensures { result ≡ sockets.dotted_in text.now }
{
    let (first, rest) = cut(text)?;
    let (second, rest) = cut(rest)?;
    let (third, fourth) = cut(rest)?;
    match cut(fourth) {
        Some(_) => None,
        None => octets_in(first, second, third, fourth),
    }
}

fn octets_in(first: &str, second: &str, third: &str, fourth: &str) -> Option<[u8; 4]>
    ensures { result ≡ four_octets (sockets.octet_in first.now) (sockets.octet_in second.now)
        (sockets.octet_in third.now) (sockets.octet_in fourth.now) }
{
    match (
        octet_in(first),
        octet_in(second),
        octet_in(third),
        octet_in(fourth),
    ) {
        (Some(a), Some(b), Some(c), Some(d)) => Some([a, b, c, d]),
        _ => None,
    }
}

/// What is before the first dot and after it.
fn cut(text: &str) -> Option<(&str, &str)>
    ensures { MatchOption result
        (slice_split sockets.is_dot text.now ≡ text.now ∷ [])
        (λ parts. slice_split sockets.is_dot text.now
        ≡ parts.0.now ∷ slice_split sockets.is_dot parts.1.now) }
{
    text.split_once('.')
}

#[tactic(auto, unfolding(crate::specs::Sockets::octet_in))]
fn octet_in(text: &str) -> Option<u8>
    ensures { result ≡ sockets.octet_in text.now }
{
    match number_in(text, 3) {
        Some(n) if n <= 255 => Some(n as u8),
        _ => None,
    }
}

/// The number that 1 to `most` decimal digits write.
#[tactic(auto, unfolding(crate::specs::Sockets::number_in))]
pub(crate) fn number_in(text: &str, most: usize) -> Option<u32>
    requires { most ≤ 9 }
    ensures { result ≡ sockets.number_in most text.now }
{
    if text.is_empty() || text.len() > most || !all_digits(text.as_bytes()) {
        return None;
    }
    text.parse().ok()
}
