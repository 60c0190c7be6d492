//! The members of an object of a line, each by its key and kind. The first fault is kept and returned at the end: so those who read have one way out.

ghost use Rattle.std.specs.Prelude.{◌≡◌, Some, None, true, IfSome, IsSome, is_some};
ghost use Rattle.std.specs.Option.{option_map};
ghost use Rattle.serde_json.specs.Data.{null};
ghost use Rattle.serde_json.specs.View.{items_view, view};
ghost use Rattle.status_file.specs.Reads.{CountIf, FlagIf, IsReading, TextIf, count_at, flag_at, items_at, object_of, text_at, value_at};

use crate::read::StatusFault;
use history_model::Reading;
use serde_json::Value;

/// An object of a line, as far as it is read.
#[derive(Clone, Copy)]
pub(crate) struct Fields<'a> {
    object: Option<&'a Value>,
    pub(crate) fault: Option<StatusFault>,
}

impl<'a> Fields<'a> {
    pub(crate) fn of(object: &'a Value) -> Fields<'a>
        ensures object { object_of result ≡ Some (view object.now) }
        ensures fault { result.fault ≡ None }
    {
        Fields {
            object: Some(object),
            fault: None,
        }
    }

    fn fail(&mut self, fault: StatusFault)
        ensures object { self.new.object ≡ self.old.object }
        ensures failed { IsSome self.new.fault }
    {
        if self.fault.is_none() {
            self.fault = Some(fault);
        }
    }

    // The value of the key. A key that is absent is a fault.
    pub(crate) fn found(&mut self, key: &'static str) -> Option<&'a Value>
        ensures object { self.new.object ≡ self.old.object }
        ensures kept { self.new.fault ≡ None → self.old.fault ≡ None }
        ensures value { option_map (λ v. view v.now) result ≡ value_at key.now (object_of self.old) }
        ensures there { self.new.fault ≡ None → IsSome result }
    {
        let found = match self.object {
            Some(object) => object.get(key),
            None => None,
        };
        if found.is_none() {
            self.fail(StatusFault::Missing(key));
        }
        found
    }

    // The value of the key, if it is not null.
    fn filled(&mut self, key: &'static str) -> Option<&'a Value>
        ensures object { self.new.object ≡ self.old.object }
        ensures kept { self.new.fault ≡ None → self.old.fault ≡ None }
        ensures none { self.new.fault ≡ None → result ≡ None → value_at key.now (object_of self.old) ≡ Some null }
        ensures value { IfSome result (λ v. Some (view v.now) ≡ value_at key.now (object_of self.old)) }
    {
        let value = self.found(key)?;
        if value.is_null() { None } else { Some(value) }
    }

    /// The number under the key, or none if it is null.
    pub(crate) fn count_if(&mut self, key: &'static str) -> Option<u64>
        ensures object { self.new.object ≡ self.old.object }
        ensures kept { self.new.fault ≡ None → self.old.fault ≡ None }
        ensures value { self.new.fault ≡ None → CountIf key.now (object_of self.old) result }
    {
        let count = self.filled(key)?.as_u64();
        if count.is_none() {
            self.fail(StatusFault::Wrong(key));
        }
        count
    }

    /// The number under the key; 0 after a fault.
    pub(crate) fn count(&mut self, key: &'static str) -> u64
        ensures object { self.new.object ≡ self.old.object }
        ensures kept { self.new.fault ≡ None → self.old.fault ≡ None }
        ensures value { self.new.fault ≡ None → count_at key.now (object_of self.old) ≡ Some result }
    {
        let count = match self.found(key) {
            Some(value) => value.as_u64(),
            None => None,
        };
        self.present(key, count.is_some());
        count.unwrap_or(0)
    }

    /// The number under the key, which has 32 bits.
    pub(crate) fn short(&mut self, key: &'static str) -> u32
        ensures object { self.new.object ≡ self.old.object }
        ensures kept { self.new.fault ≡ None → self.old.fault ≡ None }
        ensures value { self.new.fault ≡ None → count_at key.now (object_of self.old) ≡ Some result }
    {
        let count = self.count(key);
        match u32::try_from(count) {
            Ok(count) => count,
            Err(_) => {
                self.fail(StatusFault::Wrong(key));
                0
            }
        }
    }

    /// The number under the key, which has 32 bits, or none if it is null.
    pub(crate) fn short_if(&mut self, key: &'static str) -> Option<u32>
        ensures object { self.new.object ≡ self.old.object }
        ensures kept { self.new.fault ≡ None → self.old.fault ≡ None }
        ensures value { self.new.fault ≡ None → CountIf key.now (object_of self.old) result }
    {
        let count = self.count_if(key)?;
        match u32::try_from(count) {
            Ok(count) => Some(count),
            Err(_) => {
                self.fail(StatusFault::Wrong(key));
                None
            }
        }
    }

    /// The flag under the key.
    pub(crate) fn flag(&mut self, key: &'static str) -> bool
        ensures object { self.new.object ≡ self.old.object }
        ensures kept { self.new.fault ≡ None → self.old.fault ≡ None }
        ensures value { self.new.fault ≡ None → flag_at key.now (object_of self.old) ≡ Some result }
    {
        let flag = match self.found(key) {
            Some(value) => value.as_bool(),
            None => None,
        };
        self.present(key, flag.is_some());
        flag.unwrap_or(false)
    }

    /// The flag under the key, or none if it is null.
    pub(crate) fn flag_if(&mut self, key: &'static str) -> Option<bool>
        ensures object { self.new.object ≡ self.old.object }
        ensures kept { self.new.fault ≡ None → self.old.fault ≡ None }
        ensures value { self.new.fault ≡ None → FlagIf key.now (object_of self.old) result }
    {
        let flag = self.filled(key)?.as_bool();
        if flag.is_none() {
            self.fail(StatusFault::Wrong(key));
        }
        flag
    }

    /// The text under the key.
    pub(crate) fn text(&mut self, key: &'static str) -> &'a str
        ensures object { self.new.object ≡ self.old.object }
        ensures kept { self.new.fault ≡ None → self.old.fault ≡ None }
        ensures value { self.new.fault ≡ None → text_at key.now (object_of self.old) ≡ Some result.now }
    {
        let text = match self.found(key) {
            Some(value) => value.as_str(),
            None => None,
        };
        self.present(key, text.is_some());
        text.unwrap_or("")
    }

    /// The text under the key, or none if it is null.
    pub(crate) fn text_if(&mut self, key: &'static str) -> Option<&'a str>
        ensures object { self.new.object ≡ self.old.object }
        ensures kept { self.new.fault ≡ None → self.old.fault ≡ None }
        ensures value { self.new.fault ≡ None → TextIf key.now (object_of self.old) result }
    {
        let text = self.filled(key)?.as_str();
        if text.is_none() {
            self.fail(StatusFault::Wrong(key));
        }
        text
    }

    // Notes a fault, if the value of the key is of another kind.
    fn present(&mut self, key: &'static str, is_found: bool)
        ensures object { self.new.object ≡ self.old.object }
        ensures kept { self.new.fault ≡ None → self.old.fault ≡ None }
        ensures found { self.new.fault ≡ None → is_found ≡ true }
    {
        if !is_found {
            self.fail(StatusFault::Wrong(key));
        }
    }

    /// Whether the key is present. It is not a fault if it is absent.
    pub(crate) fn has(&self, key: &str) -> bool
        ensures { result ≡ is_some (value_at key.now (object_of self.now)) }
    {
        match self.object {
            Some(object) => object.get(key).is_some(),
            None => false,
        }
    }

    /// The object under the key, with the faults so far.
    pub(crate) fn inside(&mut self, key: &'static str) -> Fields<'a>
        ensures object { self.new.object ≡ self.old.object }
        ensures kept { self.new.fault ≡ None → self.old.fault ≡ None }
        ensures value { object_of result ≡ value_at key.now (object_of self.old) }
        ensures fault { result.fault ≡ self.new.fault }
    {
        let object = self.found(key);
        Fields {
            object,
            fault: self.fault,
        }
    }

    /// The object under the key, or none if it is null.
    pub(crate) fn inside_if(&mut self, key: &'static str) -> Option<Fields<'a>>
        ensures object { self.new.object ≡ self.old.object }
        ensures kept { self.new.fault ≡ None → self.old.fault ≡ None }
        ensures none { self.new.fault ≡ None → result ≡ None → value_at key.now (object_of self.old) ≡ Some null }
        ensures value { IfSome result (λ inside. object_of inside ≡ value_at key.now (object_of self.old)) }
        ensures fault { IfSome result (λ inside. inside.fault ≡ self.new.fault) }
    {
        let object = self.filled(key)?;
        Some(Fields {
            object: Some(object),
            fault: self.fault,
        })
    }

    /// Takes the first fault of an object inside this one, which began with this one's faults.
    pub(crate) fn with(&mut self, inside: Fields<'a>)
        ensures object { self.new.object ≡ self.old.object }
        ensures fault { self.new.fault ≡ inside.entry.fault }
    {
        self.fault = inside.fault;
    }

    /// The clock reading: `up` and `wall`.
    pub(crate) fn reading(&mut self) -> Reading
        ensures object { self.new.object ≡ self.old.object }
        ensures kept { self.new.fault ≡ None → self.old.fault ≡ None }
        ensures value { self.new.fault ≡ None → IsReading (object_of self.old) result }
    {
        Reading {
            up: self.count("up"),
            wall: self.count("wall"),
        }
    }

    /// The value of the key is not one of the allowed names.
    pub(crate) fn refuse(&mut self, key: &'static str)
        ensures object { self.new.object ≡ self.old.object }
        ensures failed { IsSome self.new.fault }
    {
        self.fail(StatusFault::Wrong(key));
    }

    /// The members of the list under the key; None after a fault.
    pub(crate) fn list(&mut self, key: &'static str) -> Option<&'a [Value]>
        ensures object { self.new.object ≡ self.old.object }
        ensures kept { self.new.fault ≡ None → self.old.fault ≡ None }
        ensures value { IfSome result (λ values. items_at key.now (object_of self.old) ≡ Some (items_view values.now)) }
    {
        let list = match self.found(key) {
            Some(value) => value.as_array(),
            None => None,
        };
        self.present(key, list.is_some());
        match list {
            Some(list) => Some(list.as_slice()),
            None => None,
        }
    }
}
