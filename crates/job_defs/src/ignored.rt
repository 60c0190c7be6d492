//! The keys of a definition that are not supported.

ghost use Rattle.std.specs.Prelude.{◌≡◌, [], ◌∷◌, ◌++◌, codes, string_bytes, IfOk, OnOk};
ghost use Rattle.serde_json.specs.View.{view, items_view, members_view};
ghost use Rattle.serde_json.specs.Find.{get, as_object};
ghost use Rattle.history_model.specs.RefusalTexts.{key_text};
ghost use Rattle.history_model.specs.declared.KeyName.TheVariants as keys;
ghost use Rattle.job_defs.specs.Ignored as ignored;
ghost use Rattle.job_defs.specs.Ignored.{members_in};
ghost use Rattle.job_defs.specs.GatheredNames.{Gains, names_of};
ghost use Rattle.json_kinds.specs.JsonKinds.{texts_in};

use history_model::{KeyName, Text};
use json_kinds::kinds::{is_among, members_or_one_of};
use json_kinds::names::{
    ALL, CRASHED, DAY, FAMILY, HOUR, MINUTE, MONTH, NODE_NAME, PASSIVE, PATH_NAME, PATH_STATE,
    PROTOCOL, SECURE_KEY, SERVICE_NAME, SOCKET_TYPE, SUCCESSFUL_EXIT, WAIT, WEEKDAY, key_name,
};
use serde_json::{Map, Value};
use std::alloc::{AllocError, Global};
use std::collections::BTreeSet;

/// The keys that are not supported, in byte order and each once.
#[tactic(auto, using(crate::proofs::IgnoredLemmas::with_both), unfolding(crate::specs::Ignored::not_acted_on))]
pub(crate) fn not_acted_on_of(
    alloc: Global,
    has_sockets: bool,
    def: &Value,
) -> Result<Vec<Text>, AllocError>
    ensures { IfOk result (λ texts. texts.items ≡ ignored.not_acted_on has_sockets (view def.now)) }
{
    let mut names = BTreeSet::new(alloc);
    given!(add_unlisted_in(alloc, &mut names, def));
    given!(add_overruled(alloc, &mut names, has_sockets, def));
    given!(add_inside(alloc, &mut names, def));
    texts_of(alloc, names)
}

fn texts_of(alloc: Global, names: BTreeSet<String>) -> Result<Vec<Text>, AllocError>
    ensures { IfOk result (λ texts. texts.items ≡ names_of names) }
{
    let mut texts = Vec::new(alloc);
    for name in names {
        texts.push(Text::new(name))?;
    }
    Ok(texts)
}

/// Adds a prefix and a key as one name.
fn add(
    alloc: Global,
    names: &mut BTreeSet<String>,
    prefix: &str,
    key: &str,
) -> Result<(), AllocError>
    ensures { OnOk result (Gains names.old ((prefix.now ++ key.now) ∷ []) names.new) }
{
    let mut name = String::new(alloc);
    name.push_str(prefix)?;
    name.push_str(key)?;
    names.insert(name)?;
    Ok(())
}

// ---- top keys

#[tactic(auto, unfolding(crate::specs::Ignored::is_key))]
fn is_key(name: &str) -> bool
    ensures { result ≡ ignored.is_key name.now }
{
    ALL.iter().any(|key| key_name(*key) == name)
}

fn add_unlisted_in(
    alloc: Global,
    names: &mut BTreeSet<String>,
    def: &Value,
) -> Result<(), AllocError>
    ensures { OnOk result
        (Gains names.old (ignored.unlisted (members_in (as_object (view def.now)))) names.new) }
{
    match def.as_object() {
        Some(members) => add_unlisted(alloc, names, members),
        None => Ok(()),
    }
}

fn add_unlisted(
    alloc: Global,
    names: &mut BTreeSet<String>,
    members: &Map<String, Value>,
) -> Result<(), AllocError>
    ensures { OnOk result
        (Gains names.old (ignored.unlisted (members_view members.now.entries)) names.new) }
{
    for (name, _) in members.iter() {
        if !is_key(name.as_str()) {
            given!(add(alloc, names, "", name.as_str()));
        }
    }
    Ok(())
}

/// The keys that are read only together with others, or only without them.
#[tactic(auto, using(crate::proofs::IgnoredLemmas::with_both), unfolding(crate::specs::Ignored::overruled))]
fn add_overruled(
    alloc: Global,
    names: &mut BTreeSet<String>,
    has_sockets: bool,
    def: &Value,
) -> Result<(), AllocError>
    ensures { OnOk result
        (Gains names.old (ignored.overruled has_sockets (view def.now)) names.new) }
{
    let on_demand = has(def, KeyName::OnDemand) && has(def, KeyName::KeepAlive);
    given!(add_if(alloc, names, on_demand, KeyName::OnDemand));
    let inetd = has(def, KeyName::InetdCompatibility) && !has_sockets;
    add_if(alloc, names, inetd, KeyName::InetdCompatibility)
}

fn has(def: &Value, key: KeyName) -> bool
    ensures { result ≡ ignored.has_key key (view def.now) }
{
    def.get(key_name(key)).is_some()
}

fn add_if(
    alloc: Global,
    names: &mut BTreeSet<String>,
    holds: bool,
    key: KeyName,
) -> Result<(), AllocError>
    ensures { OnOk result (Gains names.old (ignored.named_if holds key) names.new) }
{
    if holds {
        return add(alloc, names, "", key_name(key));
    }
    Ok(())
}

// ---- keys of the objects inside

const CONDITIONS: [&str; 3] = [CRASHED, PATH_STATE, SUCCESSFUL_EXIT];

const PARTS: [&str; 5] = [DAY, HOUR, MINUTE, MONTH, WEEKDAY];

const SOCKET_KEYS: [&str; 8] = [
    SECURE_KEY,
    SOCKET_TYPE,
    PASSIVE,
    FAMILY,
    PROTOCOL,
    PATH_NAME,
    NODE_NAME,
    SERVICE_NAME,
];

#[tactic(auto, using(crate::proofs::IgnoredLemmas::with_both), unfolding(crate::specs::Ignored::inside))]
fn add_inside(alloc: Global, names: &mut BTreeSet<String>, def: &Value) -> Result<(), AllocError>
    ensures { OnOk result (Gains names.old (ignored.inside (view def.now)) names.new) }
{
    given!(add_under(
        alloc,
        names,
        KeyName::KeepAlive,
        "KeepAlive.",
        &CONDITIONS,
        def
    ));
    given!(add_in_calendar(alloc, names, def));
    given!(add_in_sockets(alloc, names, def));
    add_under(
        alloc,
        names,
        KeyName::InetdCompatibility,
        "inetdCompatibility.",
        &[WAIT],
        def,
    )
}

/// Adds those of the object under a key of the definition.
fn add_under(
    alloc: Global,
    names: &mut BTreeSet<String>,
    key: KeyName,
    prefix: &str,
    known: &[&str],
    def: &Value,
) -> Result<(), AllocError>
    ensures { OnOk result (Gains names.old
        (ignored.where_found (ignored.others_in prefix.now (texts_in known.now))
        (get (key_text key) (view def.now)))
        names.new) }
{
    match def.get(key_name(key)) {
        Some(found) => add_others_in(alloc, names, prefix, known, found),
        None => Ok(()),
    }
}

fn add_in_calendar(
    alloc: Global,
    names: &mut BTreeSet<String>,
    def: &Value,
) -> Result<(), AllocError>
    ensures { OnOk result (Gains names.old
        (ignored.where_found ignored.others_in_calendar
        (get (key_text keys.StartCalendarInterval) (view def.now)))
        names.new) }
{
    match def.get(key_name(KeyName::StartCalendarInterval)) {
        Some(found) => add_others_in_each(
            alloc,
            names,
            "StartCalendarInterval.",
            &PARTS,
            members_or_one_of(found),
        ),
        None => Ok(()),
    }
}

fn add_others_in(
    alloc: Global,
    names: &mut BTreeSet<String>,
    prefix: &str,
    known: &[&str],
    found: &Value,
) -> Result<(), AllocError>
    ensures { OnOk result (Gains names.old
        (ignored.others_in prefix.now (texts_in known.now) (view found.now))
        names.new) }
{
    match found.as_object() {
        Some(members) => add_others(alloc, names, prefix, known, members),
        None => Ok(()),
    }
}

fn add_others(
    alloc: Global,
    names: &mut BTreeSet<String>,
    prefix: &str,
    known: &[&str],
    members: &Map<String, Value>,
) -> Result<(), AllocError>
    ensures { OnOk result (Gains names.old
        (ignored.others prefix.now (texts_in known.now) (members_view members.now.entries))
        names.new) }
{
    for (name, _) in members.iter() {
        if !is_among(known, name.as_str()) {
            given!(add(alloc, names, prefix, name.as_str()));
        }
    }
    Ok(())
}

#[tactic(auto, using(crate::proofs::IgnoredLemmas::with_both))]
fn add_others_in_each(
    alloc: Global,
    names: &mut BTreeSet<String>,
    prefix: &str,
    known: &[&str],
    items: &[Value],
) -> Result<(), AllocError>
    ensures { OnOk result (Gains names.old
        (ignored.others_in_each prefix.now (texts_in known.now) (items_view items.now))
        names.new) }
{
    for item in items {
        given!(add_others_in(alloc, names, prefix, known, item));
    }
    Ok(())
}

fn add_in_sockets(
    alloc: Global,
    names: &mut BTreeSet<String>,
    def: &Value,
) -> Result<(), AllocError>
    ensures { OnOk result (Gains names.old
        (ignored.where_found (λ found. ignored.others_in_sockets (members_in (as_object found)))
        (get (key_text keys.Sockets) (view def.now)))
        names.new) }
{
    let Some(found) = def.get(key_name(KeyName::Sockets)) else {
        return Ok(());
    };
    match found.as_object() {
        Some(members) => add_others_in_names(alloc, names, members),
        None => Ok(()),
    }
}

#[tactic(auto, using(crate::proofs::IgnoredLemmas::with_both))]
fn add_others_in_names(
    alloc: Global,
    names: &mut BTreeSet<String>,
    members: &Map<String, Value>,
) -> Result<(), AllocError>
    ensures { OnOk result
        (Gains names.old (ignored.others_in_sockets (members_view members.now.entries)) names.new) }
{
    for (name, found) in members.iter() {
        given!(add_others_under(alloc, names, name.as_str(), found));
    }
    Ok(())
}

#[tactic(auto, unfolding(crate::specs::Ignored::others_under))]
fn add_others_under(
    alloc: Global,
    names: &mut BTreeSet<String>,
    name: &str,
    found: &Value,
) -> Result<(), AllocError>
    ensures { OnOk result
        (Gains names.old (ignored.others_under name.now (view found.now)) names.new) }
{
    let prefix = prefix_of(alloc, name)?;
    let items = members_or_one_of(found);
    add_others_in_each(alloc, names, prefix.as_str(), &SOCKET_KEYS, items)
}

/// What is written before a key of the sockets under this name.
fn prefix_of(alloc: Global, name: &str) -> Result<String, AllocError>
    ensures { IfOk result (λ prefix. string_bytes prefix
        ≡ codes "Sockets." ++ name.now ++ codes ".") }
{
    let mut prefix = String::new(alloc);
    prefix.push_str("Sockets.")?;
    prefix.push_str(name)?;
    prefix.push_str(".")?;
    Ok(prefix)
}
