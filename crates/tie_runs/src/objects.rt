// Tied sources as text, with their objects, functions, sites and constants.

use crate::expressions::bits;
use crate::statements::block;
use c_typed::{Typed, TypedFunction};
use operator_meaning::{Object, Site, SiteKind, Storage};
use sat_base::Width;
use written_text::{Written, push_number, push_numbered, push_word};

fn push_name(out: &mut Written, name: &[u8]) {
    match str::from_utf8(name) {
        Ok(text) => push_word(out, text),
        Err(_) => push_word(out, "?"),
    }
}

fn flags(out: &mut Written, object: &Object) {
    push_word(
        out,
        match object.storage {
            Storage::Static => "S",
            Storage::Automatic => "A",
            Storage::Parameter => "P",
        },
    );
    push_word(out, if object.view { "v" } else { "" });
    push_word(out, if object.is_const { "c" } else { "" });
    push_word(out, if object.exposed { "e" } else { "" });
}

/// Values, where one that stands several times in a row is told once with their number.
fn values(out: &mut Written, values: &[i32]) {
    let mut last = 0;
    let mut times: u32 = 0;
    for value in values {
        if times > 0 && *value == last && times < u32::MAX {
            times += 1;
        } else {
            repeated(out, last, times);
            last = *value;
            times = 1;
        }
    }
    repeated(out, last, times);
}

fn repeated(out: &mut Written, value: i32, times: u32) {
    if times > 0 {
        push_number(out, i64::from(value));
        push_numbered(out, "x", times);
        push_word(out, ",");
    }
}

fn object(out: &mut Written, one: &Object) {
    push_name(out, one.name.as_bytes());
    push_numbered(out, ":", bits(one.width));
    push_numbered(out, "[", one.rows);
    push_numbered(out, ",", one.columns);
    push_word(out, "]");
    flags(out, one);
    if let Some(number) = one.function {
        push_numbered(out, "@f", number);
    }
    push_word(out, "=");
    match &one.initial {
        Some(listed) => values(out, listed.as_slice()),
        None => push_word(out, "-"),
    }
}

fn gives(out: &mut Written, width: Option<Width>) {
    match width {
        Some(width) => push_numbered(out, ":", bits(width)),
        None => push_word(out, ":void"),
    }
}

fn function(out: &mut Written, one: &TypedFunction) {
    push_name(out, one.name.as_bytes());
    gives(out, one.gives);
    if let Some(at) = one.defined {
        push_numbered(out, "@", at.tok);
    }
    push_word(out, "(");
    for param in one.params.as_slice() {
        push_numbered(out, "o", *param);
        push_word(out, ";");
    }
    push_word(out, ")");
    match &one.body {
        Some(body) => block(out, body),
        None => push_word(out, "-"),
    }
}

fn site(out: &mut Written, one: &Site) {
    push_numbered(out, "", one.tok);
    push_numbered(out, "@", one.pos.line);
    push_numbered(out, ":", one.pos.col);
    push_word(out, " ");
    match one.kind {
        SiteKind::Call(op) => push_word(out, operator_meaning::name(op)),
        SiteKind::Sum => push_word(out, "+"),
        SiteKind::Difference => push_word(out, "-"),
        SiteKind::Product => push_word(out, "*"),
        SiteKind::Opposite => push_word(out, "opposite"),
        SiteKind::Bound(length) => push_numbered(out, "bound", length),
        SiteKind::ViewBound => push_word(out, "view"),
        SiteKind::ViewEdge => push_word(out, "edge"),
        SiteKind::Sample => push_word(out, "sample"),
    }
}

fn objects(out: &mut Written, list: &[Object]) {
    for one in list {
        object(out, one);
        push_word(out, " ");
    }
}

fn functions(out: &mut Written, list: &[TypedFunction]) {
    for one in list {
        function(out, one);
        push_word(out, " ");
    }
}

fn sites(out: &mut Written, list: &[Site]) {
    for one in list {
        site(out, one);
        push_word(out, ", ");
    }
}

/// The whole source.
pub fn source(out: &mut Written, whole: &Typed) {
    objects(out, whole.objects.as_slice());
    functions(out, whole.functions.as_slice());
    push_word(out, "sites ");
    sites(out, whole.sites.as_slice());
    push_word(out, "constants ");
    for value in whole.constants.as_slice() {
        push_number(out, i64::from(*value));
        push_word(out, ",");
    }
    push_numbered(out, " weights ", whole.weights);
}
