//! What the edge's maps are asked, whatever they hold.

use std::collections::BTreeMap;

/// The least key of the map, this one or above it.
pub(crate) fn key_from<K: Copy + Ord, V>(map: &BTreeMap<K, V>, key: K) -> Option<K> {
    match map.range(key..).next() {
        Some((found, _)) => Some(*found),
        None => None,
    }
}
