//! The elements of a property list.

/// An element that has others in it, or is a value of its own.
#[derive(Clone, Copy)]
pub(crate) enum Element {
    Dict,
    Array,
    Leaf(Leaf),
}

/// An element that has a text in it.
#[derive(Clone, Copy)]
pub(crate) enum Leaf {
    Key,
    Text,
    Integer,
    Real,
    True,
    False,
    /// A date or bytes, which no key of a definition has.
    Other,
}

const ELEMENTS: &[(&str, Element)] = &[
    ("dict", Element::Dict),
    ("array", Element::Array),
    ("key", Element::Leaf(Leaf::Key)),
    ("string", Element::Leaf(Leaf::Text)),
    ("integer", Element::Leaf(Leaf::Integer)),
    ("true", Element::Leaf(Leaf::True)),
    ("false", Element::Leaf(Leaf::False)),
    ("real", Element::Leaf(Leaf::Real)),
    ("date", Element::Leaf(Leaf::Other)),
    ("data", Element::Leaf(Leaf::Other)),
];

/// The element of this name.
pub(crate) fn element_named(name: &str) -> Option<Element> {
    for (known, element) in ELEMENTS {
        if *known == name {
            return Some(*element);
        }
    }
    None
}
