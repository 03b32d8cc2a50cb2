//! Documents dumped with their types, and typed events: texts and flags worked out by hand.
use super::Given::{Flow, Mapping, Quoted, Sequence, Tagged, Text};
use super::{Given, close, document, dump_typed};
use crate::tests::emitters::{Answer, UNSET, made};
use crate::tests::{equal, event_of, same, same_values};
use std::alloc::Global;
use std::process::Abort;
use yaml_base::yaml_node_pair_t;
use yaml_dump::typed_event;
use yaml_emitter::{Settings, yaml_emitter_t};

const NULL: &str = "tag:yaml.org,2002:null";

const BOOL: &str = "tag:yaml.org,2002:bool";

const INT: &str = "tag:yaml.org,2002:int";

const FLOAT: &str = "tag:yaml.org,2002:float";

const STR: &str = "tag:yaml.org,2002:str";

const MAP: &str = "tag:yaml.org,2002:map";

/// Nodes, and the text of a typed dump of them.
type Row<'a> = (&'a [Given<'a>], &'a str);

/// Texts are quoted if a reader may take them for another type.
const TEXTS: &[Row] = &[
    (&[Text("a")], "a\n"),
    (&[Text("no")], "'no'\n"),
    (&[Text("3")], "'3'\n"),
    (&[Text("~")], "'~'\n"),
    (&[Text("2001-12-14")], "'2001-12-14'\n"),
    (&[Text("")], "''\n"),
    (&[Quoted(STR, "a")], "\"a\"\n"),
];

/// Words and numbers are plain if that gives them their tag; otherwise the tag is written.
const OTHERS: &[Row] = &[
    (&[Tagged(NULL, "~")], "~\n"),
    (&[Tagged(NULL, "null")], "null\n"),
    (&[Tagged(NULL, "nothing")], "!!null nothing\n"),
    (&[Sequence(&[2]), Tagged(NULL, "")], "- !!null\n"),
    (&[Tagged(BOOL, "True")], "True\n"),
    (&[Tagged(BOOL, "yes")], "!!bool yes\n"),
    (&[Tagged(INT, "3")], "3\n"),
    (&[Tagged(INT, "-12")], "-12\n"),
    (&[Tagged(INT, "007")], "007\n"),
    (&[Tagged(INT, "0x1F")], "0x1F\n"),
    (&[Tagged(INT, "+1")], "+1\n"),
    (&[Tagged(INT, "-0")], "-0\n"),
    (&[Tagged(INT, "00")], "00\n"),
    (&[Tagged(INT, "08")], "!!int 08\n"),
    // 8 by YAML 1.1, and 10 by YAML 1.2.
    (&[Tagged(INT, "010")], "!!int 010\n"),
    (&[Tagged(INT, "-017")], "!!int -017\n"),
    (&[Tagged(INT, "-0x1F")], "!!int -0x1F\n"),
    (&[Tagged(INT, "0b1")], "!!int 0b1\n"),
    (&[Tagged(INT, "1_000")], "!!int 1_000\n"),
    (&[Tagged(INT, "three")], "!!int three\n"),
    (&[Tagged(INT, "3.0")], "!!int 3.0\n"),
    (&[Tagged(FLOAT, "1.50")], "1.50\n"),
    (&[Tagged(FLOAT, "1.0e+5")], "1.0e+5\n"),
    (&[Tagged(FLOAT, ".5")], ".5\n"),
    (&[Tagged(FLOAT, "-1.")], "-1.\n"),
    (&[Tagged(FLOAT, "1.5E+3")], "1.5E+3\n"),
    (&[Tagged(FLOAT, "1e5")], "!!float 1e5\n"),
    (&[Tagged(FLOAT, "3")], "!!float 3\n"),
    (&[Tagged(FLOAT, "-.INF")], "-.INF\n"),
    (
        &[Tagged("tag:yaml.org,2002:timestamp", "2001-12-14")],
        "!!timestamp 2001-12-14\n",
    ),
    (&[Tagged("!mine", "3")], "!mine 3\n"),
    // A style that was asked for gives way to the type.
    (&[Quoted(INT, "3")], "3\n"),
    (&[Quoted(INT, "three")], "!!int \"three\"\n"),
];

const PAIRS: &[yaml_node_pair_t] = &[
    yaml_node_pair_t { key: 2, value: 3 },
    yaml_node_pair_t { key: 4, value: 5 },
];

/// Each node keeps its type in collections, too, as a key, and if it is shared.
const NESTED: &[Row] = &[
    (
        &[
            Mapping(PAIRS),
            Text("country"),
            Text("no"),
            Text("size"),
            Tagged(INT, "3"),
        ],
        "country: 'no'\nsize: 3\n",
    ),
    (
        &[
            Flow(MAP, PAIRS),
            Text("yes"),
            Tagged(INT, "3"),
            Tagged(BOOL, "true"),
            Text("a, b"),
        ],
        "{'yes': 3, true: 'a, b'}\n",
    ),
    (
        &[Sequence(&[2, 2]), Tagged(INT, "3")],
        "- &id001 3\n- *id001\n",
    ),
];

const CANONICAL: &[Row] = &[
    (&[Text("no")], "---\n!!str \"no\"\n"),
    (&[Tagged(INT, "3")], "---\n!!int \"3\"\n"),
];

const IN_FULL: Settings = Settings {
    canonical: true,
    ..UNSET
};

// A dump of these nodes and a close are answered so.
fn dump_and_close(
    rt: &impl Abort,
    alloc: Global,
    emitter: &mut yaml_emitter_t<Global>,
    given: &[Given],
) -> [Answer; 2] {
    let document = document(rt, alloc, given);
    [dump_typed(rt, alloc, emitter, document), close(rt, emitter)]
}

fn check(rt: &impl Abort, alloc: Global, settings: &Settings, row: &Row) {
    let mut emitter = made(rt, alloc, settings);
    let answers = dump_and_close(rt, alloc, &mut emitter, row.0);
    equal(rt, &answers, &[Ok(()); 2]);
    same(rt, emitter.output(), row.1.as_bytes());
    drop(emitter);
}

fn check_rows(rt: &impl Abort, alloc: Global, settings: &Settings, rows: &[Row]) {
    for row in rows {
        check(rt, alloc, settings, row);
    }
}

/// Rows under settings.
const TABLES: &[(&Settings, &[Row])] = &[
    (&UNSET, TEXTS),
    (&UNSET, OTHERS),
    (&UNSET, NESTED),
    (&IN_FULL, CANONICAL),
];

#[test]
fn a_typed_dump_keeps_the_type_of_each_scalar(rt: HostRuntime) {
    for (settings, rows) in TABLES {
        check_rows(&rt, rt.alloc(), settings, rows);
    }
}

/// Events, and the same typed. A scalar without a tag stays as it is.
const EVENTS: &[(&str, &str)] = &[
    (
        r#"=VAL any 1 0 - "tag:yaml.org,2002:str" "yes""#,
        r#"=VAL any 0 1 - "tag:yaml.org,2002:str" "yes""#,
    ),
    (
        r#"=VAL plain 0 0 "a" "tag:yaml.org,2002:str" "north""#,
        r#"=VAL plain 1 1 "a" "tag:yaml.org,2002:str" "north""#,
    ),
    (
        r#"=VAL double 1 1 - "tag:yaml.org,2002:int" "3""#,
        r#"=VAL plain 1 0 - "tag:yaml.org,2002:int" "3""#,
    ),
    (
        r#"=VAL double 1 1 - "tag:yaml.org,2002:int" "3.0""#,
        r#"=VAL double 0 0 - "tag:yaml.org,2002:int" "3.0""#,
    ),
    (r#"=VAL single 1 0 - - "no""#, r#"=VAL single 1 0 - - "no""#),
    ("-SEQ", "-SEQ"),
];

#[test]
fn a_typed_event_has_the_flags_that_keep_its_tag(rt: HostRuntime) {
    let alloc = rt.alloc();
    for row in EVENTS {
        let typed = typed_event(event_of(&rt, alloc, row.0));
        same_values(&rt, typed, event_of(&rt, alloc, row.1));
    }
}
