//! The findings on a text, gathered.

use crate::check::finding::{Finding, Position, Severity};
use crate::check::outline::OutlineMark;
use crate::check::place::{WayStep, place_by};
use history_model::KeyName;
use json_kinds::key_name;
use run_times::{Piece, TextWriter};
use std::alloc::{AllocError, Global};

/// The findings on a text of JSON with these marks. A refusal of memory is kept, and returned once the findings are taken.
#[derive(Drop)]
pub(crate) struct FindingList<'a> {
    pub(crate) alloc: Global,
    pub(crate) text: &'a str,
    pub(crate) marks: &'a [OutlineMark],
    list: Vec<Finding>,
    is_refused: bool,
}

impl<'a> FindingList<'a> {
    /// None yet.
    pub(crate) fn new(alloc: Global, text: &'a str, marks: &'a [OutlineMark]) -> FindingList<'a> {
        FindingList {
            alloc,
            text,
            marks,
            list: Vec::new(alloc),
            is_refused: false,
        }
    }

    /// Adds a warning on the key, if it holds.
    pub(crate) fn add_if(&mut self, holds: bool, key: KeyName, told: &str) {
        if holds {
            self.add(Severity::Warning, key, told, &[]);
        }
    }

    /// Adds a remark on the key: the form, with the pieces.
    pub(crate) fn add(
        &mut self,
        severity: Severity,
        key: KeyName,
        form: &str,
        pieces: &[Piece<'_>],
    ) {
        let place = self.place_of(key);
        let mut writer = TextWriter::new(self.alloc);
        writer.fill(form, pieces);
        self.push(place, severity, writer.into_text());
    }

    /// Adds a warning on the key, for whose text memory may have been refused.
    pub(crate) fn add_made(&mut self, key: KeyName, told: Result<String, AllocError>) {
        let place = self.place_of(key);
        self.push(place, Severity::Warning, told);
    }

    /// Adds a warning at the value to which the way leads: the form, with the pieces.
    pub(crate) fn add_at(&mut self, way: &[WayStep<'_>], form: &str, pieces: &[Piece<'_>]) {
        let mut writer = TextWriter::new(self.alloc);
        writer.fill(form, pieces);
        self.push_at(way, writer.into_text());
    }

    /// Adds a warning at the value to which the way leads, for whose text memory may have been refused.
    pub(crate) fn push_at(&mut self, way: &[WayStep<'_>], told: Result<String, AllocError>) {
        let place = place_by(self.text, self.marks, way, false);
        self.push(place, Severity::Warning, told);
    }

    /// Adds a remark, if there was and is memory for it.
    pub(crate) fn push(
        &mut self,
        place: Option<Position>,
        severity: Severity,
        told: Result<String, AllocError>,
    ) {
        match told {
            Ok(text) => {
                let is_kept = self
                    .list
                    .push(Finding {
                        place,
                        severity,
                        text,
                    })
                    .is_ok();
                self.is_refused = self.is_refused || !is_kept;
            }
            Err(_) => self.is_refused = true,
        }
    }

    /// Where the value of a key is; for `Program`, if it is absent, that of `ProgramArguments`.
    pub(crate) fn place_of(&self, key: KeyName) -> Option<Position> {
        let own = place_by(self.text, self.marks, &[WayStep::Key(key_name(key))], false);
        match (key, own) {
            (KeyName::Program, None) => {
                let instead = WayStep::Key(key_name(KeyName::ProgramArguments));
                place_by(self.text, self.marks, &[instead], false)
            }
            (_, own) => own,
        }
    }

    /// Memory was refused for what would be added.
    pub(crate) fn refuse(&mut self) {
        self.is_refused = true;
    }

    /// The findings, if memory was never refused.
    pub(crate) fn into_list(self) -> Result<Vec<Finding>, AllocError> {
        let FindingList {
            list,
            is_refused,
            ..
        } = self;
        if is_refused {
            drop(list);
            return Err(AllocError);
        }
        Ok(list)
    }
}
