//! The first line of a journal, and what it says.

ghost use Rattle.std.specs.Prelude.{◌≡◌, ℕ, List};
ghost use Rattle.history_model.specs.declared.event.Setting as model;

use history_model::{Reading, Setting, Text};
use std::marker::Model;

/// The bytes of a zone file, as tzfile(5) has them. To a contract it is these bytes.
#[derive(Drop)]
pub struct ZoneFile {
    bytes: Vec<u8>,
}

impl Model for ZoneFile {
    ghost Value = { List ℕ };

    ghost view = { λ f. f.bytes.items };
}

impl ZoneFile {
    /// The file of these bytes.
    pub fn new(bytes: Vec<u8>) -> ZoneFile
        ensures { result ≡ bytes.items }
    {
        ZoneFile { bytes }
    }

    /// Its bytes.
    pub fn as_slice(&self) -> &[u8]
        ensures { result.now ≡ self.now }
    {
        self.bytes.as_slice()
    }
}

/// The settings of labels that a journal begins with. To a contract it is their list.
#[derive(Drop)]
pub struct HeaderSettings {
    items: Vec<Setting>,
}

impl Model for HeaderSettings {
    ghost Value = { List model.Setting };

    ghost view = { λ s. s.items.items };
}

impl HeaderSettings {
    /// These settings. Of a label that is named twice the last counts.
    pub fn new(items: Vec<Setting>) -> HeaderSettings
        ensures { result ≡ items.items }
    {
        HeaderSettings { items }
    }

    /// The settings, the last of a label deciding.
    pub fn as_slice(&self) -> &[Setting]
        ensures { result.now ≡ self.now }
    {
        self.items.as_slice()
    }

    /// The settings as a list of one's own.
    pub fn into_vec(self) -> Vec<Setting>
        ensures { result.items ≡ self }
    {
        let HeaderSettings { items } = self;
        items
    }
}

/// The zone of civil time, as a header writes it.
#[derive(Drop)]
pub enum ZoneText {
    /// A rule in the form of POSIX `TZ`, as `EST5EDT,M3.2.0,M11.1.0`.
    Posix(Text),
    /// Whole seconds east of UTC.
    Offset(i64),
    /// A zone file.
    File(ZoneFile),
}

/// What a journal begins with: the clocks' first reading (milliseconds and seconds), the zone, and the settings of
/// labels.
#[derive(Drop)]
pub struct Header {
    pub reading: Reading,
    pub zone: ZoneText,
    pub overrides: HeaderSettings,
}
