//! Which tables are read as which instance, and what refusals say: no clause says it.

use instance_json::{canonical, generate};
use instance_tables::{ImportRefusal, TableBytes, exported, imported};
use shift_instance::Instance;
use std::alloc::{AllocError, Global};
use std::test::Fail;

const SETTINGS: &str = "slot_minutes,days,excess,shortage,shift,max_heads\n30,2,1,4,25,20\n";

const NEED: &str = "day,time,need\n1,0:00,2\n1,12:00,5\n2,0:00,3\n";

const TYPES: &str =
    "name,first_start,last_start,shortest,longest,rule\nearly,6:00,7:30,8:00,8:30,ward\nnight,22:00,22:00,10,10,\n";

const RULES: &str =
    "rule,lead,work_max,totals,lunches\nward,1:00,4:30,4:00=0:30 8:00=1:00,8:00=0:30@3:00-5:30\n";

/// The tables of these texts.
fn tables_of<'a>(
    settings: &'a str,
    need: &'a str,
    types: &'a str,
    rules: &'a str,
) -> TableBytes<'a> {
    TableBytes {
        settings: settings.as_bytes(),
        need: need.as_bytes(),
        types: types.as_bytes(),
        rules: Some(rules.as_bytes()),
    }
}

/// The canonical text of the instance of tables, or the sentence of their refusal.
fn answer(alloc: Global, tables: &TableBytes) -> Result<String, Fail> {
    match imported(alloc, tables) {
        Ok(instance) => Ok(String::from_utf8(canonical(alloc, &instance)?)?),
        Err(ImportRefusal::NoMemory) => Err(Fail::from("no memory")),
        Err(why) => Ok(format!(in alloc; "{why}")?),
    }
}

/// The canonical text of the instance that the tables of an instance state.
fn text_again(alloc: Global, instance: &Instance) -> Result<String, Fail> {
    let texts = exported(alloc, instance)?;
    let tables = TableBytes {
        settings: texts.settings.as_slice(),
        need: texts.need.as_slice(),
        types: texts.types.as_slice(),
        rules: Some(texts.rules.as_slice()),
    };
    answer(alloc, &tables)
}

#[test]
fn exported_tables_are_read_as_the_same_instance(rt: HostRuntime) -> Result<(), Fail> {
    let alloc = rt.alloc();
    for number in 0..20 {
        let instance = generate(alloc, number)?;
        let text = String::from_utf8(canonical(alloc, &instance)?)?;
        let again = text_again(alloc, &instance)?;
        assert_eq!(rt; again.as_str(), text.as_str(), "at {number}");
    }
    Ok(())
}

#[test]
fn what_a_spreadsheet_writes_is_read(rt: HostRuntime) -> Result<(), Fail> {
    let alloc = rt.alloc();
    let plain = answer(alloc, &tables_of(SETTINGS, NEED, TYPES, RULES))?;
    assert!(rt; plain.as_str().starts_with("{\"days\":2,"), "{plain}");
    let settings =
        "\u{feff}Slot minutes;DAYS;max heads;excess;shortage;shift;;\r\n30;2;20;1;4;25;;\r\n;;;;;;;\r\n";
    let need = "need;day;time\r\n3;2;0\r\n5;1;12,0\r\n2;1;00:00:00\r\n";
    let types =
        "rule;Name;first-start;Last start;longest;shortest\nward; \"early\" ;6,0;7,5;8,5;8,0\n;night;22:00;22:00;10:00;10:00\n";
    let rules =
        "rule;lead;work max;totals;lunches;tail\n\"ward\";1,0;4,5;4:00=0:30  8:00=1,0;8:00=0:30@3:00-5:30;0\n";
    let other = answer(alloc, &tables_of(settings, need, types, rules))?;
    assert_eq!(rt; other.as_str(), plain.as_str());
    Ok(())
}

#[test]
fn guarded_names_are_read_without_their_guard(rt: HostRuntime) -> Result<(), Fail> {
    let alloc = rt.alloc();
    let plain = answer(
        alloc,
        &tables_of(
            SETTINGS,
            NEED,
            "name,first_start,last_start,shortest,longest,rule\n=1+1,6:00,6:00,8,8,\n",
            RULES,
        ),
    )?;
    let guarded = answer(
        alloc,
        &tables_of(
            SETTINGS,
            NEED,
            "name,first_start,last_start,shortest,longest,rule\n'=1+1,6:00,6:00,8,8,\n",
            RULES,
        ),
    )?;
    assert!(rt; plain.as_str().contains("\"name\":\"=1+1\""), "{plain}");
    assert_eq!(rt; guarded.as_str(), plain.as_str());
    Ok(())
}

/// What each refusal says of a table of needs.
const NEED_REFUSALS: &[(&str, &str)] = &[
    (
        "",
        "need.csv: the file is empty: its first line has the names of the columns",
    ),
    (
        "day,time\n1,0:00\n",
        "need.csv, row 1, column need: the first line must name this column",
    ),
    (
        "day,time,need\n1,0:00,2\n1,12:00,5\n",
        "need.csv: day 2 has no row for 0:00: a day has a row at every step from 0:00 on (here 24:00), with need 0 where nobody is wanted",
    ),
    (
        "day,time,need\n1,0:00,2\n1,8:00,3\n2,0:00,3\n",
        "need.csv: day 1 has no row for 16:00: a day has a row at every step from 0:00 on (here 8:00), with need 0 where nobody is wanted",
    ),
    (
        "day,time,need\n1,0:10,2\n",
        "need.csv, row 2, column time: `0:10` stands there; a whole number of slots of 30 minutes stands here, as 0:30 or 6:00",
    ),
    (
        "day,time,need,need_max\n1,0:00,2,1\n",
        "need.csv, row 2, column need_max: `1` stands there; a whole number from 2 to 10000 stands here",
    ),
    (
        "day,time,need\r1,0:00,2\r",
        "need.csv, row 1: a cell holds a line end, or begins with a quotation mark that doesn't end: cells have neither",
    ),
    (
        "day,time,need\n1,a\"b,\"2\n1,12:00,5\n",
        "need.csv, row 2: a cell holds a line end, or begins with a quotation mark that doesn't end: cells have neither",
    ),
    (
        "day,time,need\n1,0:00,2\n\n1,0:00,2\n",
        "need.csv, row 4, column time: `0:00` stands there; it stands in row 2 too",
    ),
];

#[test]
fn refusals_tell_the_place_and_what_may_stand_there(rt: HostRuntime) -> Result<(), Fail> {
    let alloc = rt.alloc();
    for (need, said) in NEED_REFUSALS {
        let found = answer(alloc, &tables_of(SETTINGS, need, TYPES, RULES))?;
        assert_eq!(rt; found.as_str(), *said);
    }
    Ok(())
}

#[test]
fn bands_are_read_and_written(rt: HostRuntime) -> Result<(), Fail> {
    let alloc = rt.alloc();
    let need = "day,time,need,need_max\n1,0:00,2,\n1,12:00,5,7\n2,0:00,3,3\n";
    let tables = tables_of(SETTINGS, need, TYPES, RULES);
    let text = answer(alloc, &tables)?;
    assert!(rt; text.as_str().contains(",2,5,5,"), "{text}");
    assert!(rt; text.as_str().contains(",7,7,3,3,"), "{text}");
    let Ok(instance) = imported(alloc, &tables) else {
        return Err(Fail::from("refused"));
    };
    let again = text_again(alloc, &instance)?;
    assert_eq!(rt; again.as_str(), text.as_str());
    Ok(())
}

#[test]
fn tables_without_rules_are_read(rt: HostRuntime) -> Result<(), Fail> {
    let alloc = rt.alloc();
    let mut tables = tables_of(SETTINGS, NEED, TYPES, RULES);
    tables.rules = None;
    let found = answer(alloc, &tables)?;
    assert_eq!(rt;
        found.as_str(),
        "types.csv, row 2, column rule: `ward` stands there; no row of rules.csv has this name; a type without breaks leaves the cell empty"
    );
    Ok(())
}
