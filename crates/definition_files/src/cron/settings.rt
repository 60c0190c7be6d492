//! The variables that the lines above a line set.

use std::alloc::{AllocError, Global};

/// The variables, each once, in the order in which they were first set.
#[derive(Drop)]
pub struct CronVariables {
    variables: Vec<(String, String)>,
}

impl CronVariables {
    /// No variable is set.
    pub fn new(alloc: Global) -> CronVariables {
        CronVariables {
            variables: Vec::new(alloc),
        }
    }

    /// Sets the variable, in place of an earlier value.
    pub fn set(&mut self, alloc: Global, name: &str, value: &str) -> Result<(), AllocError> {
        let value = String::from_str(alloc, value)?;
        let mut index: usize = 0;
        for (known, _) in self.variables.as_slice() {
            if known.as_str() == name {
                break;
            }
            index = index.saturating_add(1);
        }
        match self.variables.get_mut(index) {
            Some(found) => {
                found.1 = value;
                Ok(())
            }
            None => self.add(alloc, name, value),
        }
    }

    fn add(&mut self, alloc: Global, name: &str, value: String) -> Result<(), AllocError> {
        match String::from_str(alloc, name) {
            Ok(name) => Ok(self.variables.push((name, value))?),
            Err(error) => {
                drop(value);
                Err(error)
            }
        }
    }

    /// The value of the variable, if it is set.
    pub fn value_of(&self, name: &str) -> Option<&str> {
        for (known, value) in self.variables.as_slice() {
            if known.as_str() == name {
                return Some(value.as_str());
            }
        }
        None
    }

    /// The variables, each with its value.
    pub fn as_slice(&self) -> &[(String, String)] {
        self.variables.as_slice()
    }
}
