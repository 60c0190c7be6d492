//! The marks of a text of XML (XML 1.0, without declarations of its own).

use crate::fault::Wrong;

/// What comes next in a text.
#[derive(Clone, Copy)]
pub(crate) enum Token<'a> {
    /// `<NAME>`
    Open(&'a str),
    /// `</NAME>`
    Close(&'a str),
    /// `<NAME/>`
    Empty(&'a str),
    /// Text in which entities mean letters.
    Text(&'a str),
    /// The inner text of a CDATA section, which is taken as it is.
    Plain(&'a str),
    /// The DOCTYPE line, whose names are not looked up.
    Doctype,
    /// A comment or a processing instruction.
    Nothing,
    /// The text has ended.
    End,
}

/// The one element that may have an attribute, its version.
const ROOT: &str = "plist";

/// Its versions.
const VERSIONS: &[&str] = &["version=\"1.0\"", "version='1.0'", "version=\"0.9\""];

const HEAD: &str = "<?xml ..?> is not first, or is not version=\"1.0\" encoding=\"UTF-8\"";

/// What a first line of XML may have.
const HEAD_WORDS: &[&str] = &[
    "version=\"1.0\"",
    "version='1.0'",
    "encoding=\"UTF-8\"",
    "encoding='UTF-8'",
    "encoding=\"utf-8\"",
    "encoding='utf-8'",
    "standalone=\"yes\"",
    "standalone=\"no\"",
];

/// What follows the first line of XML, `<?xml ..?>`, if there is one. Refused: another version than 1.0, another encoding than UTF-8.
pub(crate) fn behind_head(text: &str) -> Result<&str, Wrong<'_>> {
    let Some(inner) = text.strip_prefix("<?xml") else {
        return Ok(text);
    };
    let Some((words, behind)) = inner.split_once("?>") else {
        return Err(Wrong::Because(HEAD, ""));
    };
    if !words.starts_with(is_blank) {
        return Err(Wrong::Because(HEAD, ""));
    }
    for word in words.split_ascii_whitespace() {
        if !HEAD_WORDS.contains(&word) {
            return Err(Wrong::Because(HEAD, ""));
        }
    }
    Ok(behind)
}

/// The next mark, and what follows it. Refused: a mark that does not end, an attribute, and declarations of the text's own.
pub(crate) fn next_mark(text: &str) -> Result<(Token<'_>, &str), Wrong<'_>> {
    if text.is_empty() {
        return Ok((Token::End, text));
    }
    let Some(inner) = text.strip_prefix('<') else {
        let end = text.find('<').unwrap_or(text.len());
        return match text.split_at_checked(end) {
            Some((front, behind)) => Ok((Token::Text(front), behind)),
            None => Ok((Token::Text(text), "")),
        };
    };
    if let Some(inner) = inner.strip_prefix("!--") {
        return passed(inner, "-->", "a comment has no end");
    }
    if inner.starts_with("?xml") {
        return Err(Wrong::Because(HEAD, ""));
    }
    if let Some(inner) = inner.strip_prefix('?') {
        return passed(inner, "?>", "an instruction <?.. has no end");
    }
    if let Some(inner) = inner.strip_prefix("![CDATA[") {
        return match inner.split_once("]]>") {
            Some((plain, behind)) => Ok((Token::Plain(plain), behind)),
            None => Err(Wrong::Because("a CDATA section has no end", "")),
        };
    }
    let Some((tag, behind)) = inner.split_once('>') else {
        return Err(Wrong::Because("a tag has no >", ""));
    };
    if tag.starts_with('!') {
        return match declaration(tag) {
            Some(why) => Err(Wrong::Because(why, "")),
            None => Ok((Token::Doctype, behind)),
        };
    }
    match tag_of(tag) {
        Ok(mark) => Ok((mark, behind)),
        Err(wrong) => Err(wrong),
    }
}

fn passed<'a>(
    inner: &'a str,
    end: &str,
    why: &'static str,
) -> Result<(Token<'a>, &'a str), Wrong<'a>> {
    match inner.split_once(end) {
        Some((_, behind)) => Ok((Token::Nothing, behind)),
        None => Err(Wrong::Because(why, "")),
    }
}

// What is wrong with what is between `<` and `>` and begins with `!`: anything but the DOCTYPE line of a list.
fn declaration(tag: &str) -> Option<&'static str> {
    if !tag.starts_with("!DOCTYPE ") {
        Some("a declaration <!.. is not part of a property list")
    } else if tag.contains('[') {
        Some("a DOCTYPE with declarations of its own is not read")
    } else {
        None
    }
}

// The mark whose inner text this is.
fn tag_of(tag: &str) -> Result<Token<'_>, Wrong<'_>> {
    if let Some(name) = tag.strip_prefix('/') {
        return Ok(Token::Close(name.trim_end_matches(is_blank)));
    }
    let inner = tag.strip_suffix('/');
    let (name, rest) = match inner.unwrap_or(tag).split_once(is_blank) {
        Some((name, rest)) => (name, rest),
        None => (inner.unwrap_or(tag), ""),
    };
    let attribute = rest.trim_matches(is_blank);
    let is_version = name == ROOT && VERSIONS.contains(&attribute);
    if !attribute.is_empty() && !is_version {
        return Err(Wrong::Because("<$> has an attribute that no property list has", name));
    }
    Ok(if inner.is_some() {
        Token::Empty(name)
    } else {
        Token::Open(name)
    })
}

/// Whether it is one of the blanks of XML.
pub(crate) fn is_blank(letter: char) -> bool {
    letter == ' ' || letter == '\t' || letter == '\n' || letter == '\r'
}
