//! Which of the labels that the arguments name are named in a line of the journals.

use crate::journal::news::News;
use history_model::Text;
use std::alloc::{AllocError, Global};

/// The labels of the arguments, and those of them that a line named.
#[derive(Drop)]
pub(crate) struct NamedLabels<'a> {
    asked: &'a [Text],
    found: Vec<&'a str>,
}

impl<'a> NamedLabels<'a> {
    /// No line is read yet.
    pub(crate) fn new(alloc: Global, asked: &'a [Text]) -> NamedLabels<'a> {
        NamedLabels {
            asked,
            found: Vec::new(alloc),
        }
    }

    /// Takes what a line gave: a load, a request, an order, an answer or an exit, each with its label.
    pub(crate) fn see(&mut self, news: &[News]) -> Result<(), AllocError> {
        for label in self.asked {
            let label = label.as_str();
            if is_of(news, label) && !self.has(label) {
                self.found.push(label)?;
            }
        }
        Ok(())
    }

    /// Whether a line named the label.
    pub(crate) fn has(&self, label: &str) -> bool {
        self.found.iter().any(|found| *found == label)
    }
}

fn is_of(news: &[News], label: &str) -> bool {
    news.iter().any(|news| news.label.as_str() == label)
}
