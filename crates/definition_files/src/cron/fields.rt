//! The five fields of a line.

/// The values of a field, in rising order and each once; with `is_every`, which `*` is, each value that the field may have.
#[derive(Drop)]
pub struct Field {
    pub is_every: bool,
    pub values: Vec<u8>,
}

/// The fields of a line. Weekdays 0 and 7 are Sunday.
#[derive(Drop)]
pub struct Fields {
    pub minutes: Field,
    pub hours: Field,
    pub days: Field,
    pub months: Field,
    pub weekdays: Field,
    /// A day or a weekday suffices, as neither field begins with `*`.
    pub is_either: bool,
}
